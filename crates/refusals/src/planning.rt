//! What is printed of a plan that breaks a rule.

ghost use Rattle.std.specs.Prelude.{◌≡◌, ◌∷◌, [], Some, IfOk, option_map};
ghost use Rattle.file_plan.specs.InUse.{resolver_path};
ghost use Rattle.file_plan.specs.Plan.{breaks};
ghost use Rattle.refusals.specs.Planning.{break_of, plan_report};
ghost use Rattle.refusals.specs.Refusal.{counted, report, report_text};

use crate::refusal::{append_count, append_ring_sets, refuse};
use crate::rule::Rule;
use file_plan::{Files, PlanRefusal};
use name_path::Trail;
use resolver_doc::PlanRule;
use std::alloc::Global;
use tk_io::{Bytes, NoMemory};

const RESOLVER: &str = "resolver.json";

// What is printed of a rule that `resolver.json` breaks at a span.
fn refused(
    alloc: Global,
    files: &Files<'_>,
    rule: Rule,
    start: usize,
    end: usize,
) -> Result<Bytes, NoMemory>
    ensures { IfOk result (λ b. b
        ≡ report_text files.now (report rule resolver_path start end [])) }
{
    refuse(alloc, files, rule, RESOLVER, start, end)
}

// A rule of resolver documents, with the sets of a ring.
fn broken_text(
    alloc: Global,
    files: &Files<'_>,
    rule: PlanRule,
    start: usize,
    end: usize,
    ring: &Trail<'_>,
) -> Result<Bytes, NoMemory>
    ensures { IfOk result (λ b. b
        ≡ report_text files.now
        (plan_report (breaks (record { rule = rule; start = start; end = end }) ring.now))) }
{
    let mut out = refused(alloc, files, Rule::Plan(rule), start, end)?;
    append_ring_sets(alloc, &mut out, ring)?;
    Ok(out)
}

// A number that is beyond a limit.
fn limit_text(
    alloc: Global,
    files: &Files<'_>,
    rule: Rule,
    start: usize,
    end: usize,
    count: u64,
) -> Result<Bytes, NoMemory>
    ensures { IfOk result (λ b. b
        ≡ report_text files.now (report rule resolver_path start end (counted count ∷ []))) }
{
    let mut out = refused(alloc, files, rule, start, end)?;
    append_count(&mut out, count)?;
    Ok(out)
}

/// What is printed of a plan that breaks a rule, at its span in `resolver.json`.
pub fn plan_text(
    alloc: Global,
    files: &Files<'_>,
    refusal: &PlanRefusal<'_>,
) -> Result<Bytes, NoMemory>
    ensures { IfOk result (λ b. option_map (λ k. report_text files.now (plan_report k))
        (break_of refusal.now) ≡ Some b) }
{
    match refusal {
        PlanRefusal::Syntax(at) => refused(alloc, files, Rule::JsonSyntax, *at, *at),
        PlanRefusal::Duplicate(start, end) => {
            refused(alloc, files, Rule::JsonDuplicate, *start, *end)
        }
        PlanRefusal::Depth(start, end) => refused(alloc, files, Rule::JsonDepth, *start, *end),
        PlanRefusal::Broken {
            rule,
            start,
            end,
            ring,
        } => broken_text(alloc, files, *rule, *start, *end, ring),
        PlanRefusal::TooMany { start, end, count } => {
            limit_text(alloc, files, Rule::PlanPermutations, *start, *end, *count)
        }
        PlanRefusal::TooManySources { start, end, count } => {
            limit_text(alloc, files, Rule::PlanSources, *start, *end, *count)
        }
        PlanRefusal::NoMemory => Err(NoMemory),
    }
}
