//! What is made of files, with what was made before.

ghost use Rattle.std.specs.Prelude.{◌≡◌, ◌+◌, ℕ, List, Some, Option, Ok, Err, IfOk};
ghost use Rattle.std.specs.FinMap as map;
ghost use Rattle.tk_io.specs.FilesData.{FilesData};
ghost use Rattle.file_plan.specs.InUse.{files_in_use, resolver_in, resolver_path};
ghost use Rattle.file_plan.specs.Plan.{Plans, planned};
ghost use Rattle.file_plan.specs.Trees.{AreTreesIn};
ghost use Rattle.file_plan.specs.View.{IsPlanRefusal, plan_view};
ghost use Rattle.source_trees.specs.Trees.{AreShapesIn};
ghost use Rattle.build_plain.specs.Out.{Builds, GivesFrom, IsConfigFault, settings_of};
ghost use Rattle.build_plain.specs.Work.{RiseWithin, added, work};
ghost use Rattle.rebuild_core.specs.Engine.{counts_view};
ghost use Rattle.rebuild_core.specs.Work.{IsWorkFrom, PermsWorkFrom, WorkUnderFrom};
ghost use Rattle.rebuild_core.specs.inner.Past.{CameTo, IsBare, IsMadeOf, IsPast};
ghost use Rattle.rebuild_core.specs.inner.Reading.{AreInUse, ReadsFirst};
ghost use Rattle.rebuild_core.specs.inner.Renewing.{IsRenewed, all_view};

use crate::below::laws_below;
use crate::commit::Counts;
use crate::past::{Past, Shared, UsedTexts};
use crate::plan_perms::{AllDone, outputs_of, renewed_perms};
use crate::reading::{InUse, in_use, resolver_tree};
use crate::used::RESOLVER;
use build_plain::{config_of, refused_config, refused_plan};
use file_plan::{Files, Plan, PlanPerm, PlanRefusal, Trees, file_plan_laws, plan_of};
use source_trees::{Shapes, shapes_known};
use std::alloc::Global;
use std::sync::ledger::Ledger;
use tk_io::{NoMemory, Outputs, Steps, TextMap};
use transforms::{Config, ConfigFault};

/// What was made of files: what is kept of it, their outputs, and how much was done.
#[derive(Drop)]
pub(crate) struct Renewed<'s> {
    pub(crate) past: Past<'s>,
    pub(crate) outputs: Outputs,
    pub(crate) counts: Counts,
}

// The numbers of a commit, as long as they can be told.
fn counts_of(
    first: usize,
    others: usize,
    merged: usize,
    evaluated: usize,
) -> Result<Counts, NoMemory>
    ensures { IfOk result (λ counts. counts_view counts ≡ work (first + others) merged evaluated) }
{
    let Some(parsed) = first.checked_add(others) else {
        return Err(NoMemory);
    };
    Ok(Counts {
        parsed: parsed as u64,
        merged: merged as u64,
        evaluated: evaluated as u64,
    })
}

// What was made of files without permutations.
fn bare_past<'s>(
    alloc: Global,
    files: &Files<'s>,
    config: Config,
    used: UsedTexts<'s>,
    trees: Trees<'s>,
) -> Result<Past<'s>, NoMemory>
    ensures { IfOk result (IsBare files.now used.entry trees.entry) }
{
    let files = files.copy()?;
    let shapes = Shapes::new(alloc);
    let plan = Plan::new(alloc);
    let outcomes = Vec::new(alloc);
    Ok(Past {
        files,
        used,
        trees,
        shapes,
        config,
        plan,
        outcomes,
    })
}

// What is kept of files with this plan.
fn planned_past<'s>(
    files: &Files<'s>,
    config: Config,
    plan: Plan<'s>,
    now: InUse<'s>,
    outcomes: Vec<Shared<'s>>,
) -> Result<Past<'s>, NoMemory>
    ensures { IfOk result (IsMadeOf files.now config plan.entry now.entry outcomes.entry.items) }
{
    let files = files.copy()?;
    let InUse {
        used,
        trees,
        shapes,
        read: _,
    } = now;
    Ok(Past {
        files,
        used,
        trees,
        shapes,
        config,
        plan,
        outcomes,
    })
}

// What was made of files, with their outputs.
fn with_outputs<'s>(alloc: Global, past: Past<'s>, counts: Counts) -> Result<Renewed<'s>, NoMemory>
    requires { CameTo past.config past.files (plan_view past.plan) past.outcomes.items }
    ensures past { IfOk result (λ r. r.past ≡ past.entry) }
    ensures outputs { IfOk result (λ r.
        GivesFrom past.entry.config past.entry.files (plan_view past.entry.plan) map.empty r.outputs) }
    ensures counts { IfOk result (λ r. r.counts ≡ counts) }
{
    let plan = past.plan.as_slice();
    let outcomes = past.outcomes.as_slice();
    let outputs = outputs_of(alloc, &past.files, &past.config, plan, outcomes)?;
    Ok(Renewed {
        past,
        outputs,
        counts,
    })
}

// Files with this plan, when its permutations came to these. So many texts were read: `first` of the resolver document, and
// `others` of the other files.
fn renewed_by<'s>(
    alloc: Global,
    files: &Files<'s>,
    cfg: Config,
    plan: Plan<'s>,
    now: InUse<'s>,
    all: AllDone<'s>,
    first: usize,
    others: usize,
) -> Result<Renewed<'s>, NoMemory>
    requires plan { Plans (map.get files.now resolver_path) (planned (plan_view plan)) }
    requires now { AreInUse files.now (plan_view plan) now }
    requires all { CameTo cfg files.now (plan_view plan) all.outcomes.items }
    ensures renewed { IfOk result (IsRenewed files.now (Ok cfg)) }
    ensures counts { IfOk result (λ r. counts_view r.counts
        ≡ work (first + others) all.entry.merged all.entry.evaluated) }
{
    file_plan_laws();
    let AllDone {
        outcomes,
        merged,
        evaluated,
    } = all;
    let counts = counts_of(first, others, merged, evaluated)?;
    let past = planned_past(files, cfg, plan, now, outcomes)?;
    with_outputs(alloc, past, counts)
}

// What the permutations of a plan come to, where these are the shapes of the files in use.
fn perms_under<'s, M: Ledger, N: Ledger>(
    alloc: Global,
    files: &Files<'s>,
    cfg: &Config,
    past: &Past<'s>,
    plan: &[PlanPerm<'s>],
    shapes: &Shapes<'s>,
    merges: &mut Steps<M>,
    evals: &mut Steps<N>,
) -> Result<AllDone<'s>, NoMemory>
    requires past { (before : Option FilesData) × IsPast before past.now }
    requires plan { Plans (map.get files.now resolver_path) (planned (plan_view plan.now)) }
    requires shapes { AreShapesIn (files_in_use files.now (plan_view plan.now)) shapes.now }
    ensures outcomes { IfOk result (λ all.
        CameTo cfg.now files.now (plan_view plan.now) all.outcomes.items) }
    ensures work { (before : Option FilesData) → IsPast before past.now → IfOk result (λ all.
        PermsWorkFrom before cfg.now files.now (plan_view plan.now) (all_view all)) }
    ensures counted { IfOk result (λ all. work 0 merges.new evals.new
        ≡ added (work 0 merges.old evals.old) (all_view all)) }
    ensures at_most { (before : Option FilesData) → IsPast before past.now
        → RiseWithin (PermsWorkFrom before cfg.now files.now (plan_view plan.now))
        (work 0 merges.old evals.old) (work 0 merges.new evals.new) }
{
    file_plan_laws();
    shapes_known();
    renewed_perms(alloc, files, cfg, shapes, past, plan, merges, evals)
}

// Files with this plan, of which the resolver document is read.
fn renewed_plan<'s, L: Ledger, M: Ledger, N: Ledger>(
    alloc: Global,
    files: &Files<'s>,
    cfg: Config,
    past: &Past<'s>,
    plan: Plan<'s>,
    trees: Trees<'s>,
    first: usize,
    parses: &mut Steps<L>,
    merges: &mut Steps<M>,
    evals: &mut Steps<N>,
) -> Result<Renewed<'s>, NoMemory>
    requires past { (before : Option FilesData) × IsPast before past.now }
    requires plan { Plans (map.get files.now resolver_path) (planned (plan_view plan)) }
    requires trees { AreTreesIn (resolver_in files.now) trees }
    requires first { ReadsFirst past.now.used (map.get files.now resolver_path) first }
    ensures renewed { IfOk result (IsRenewed files.now (Ok cfg)) }
    ensures work { (before : Option FilesData) → IsPast before past.now → IfOk result (λ r.
        WorkUnderFrom before files.now (Ok cfg) (counts_view r.counts)) }
    ensures counted { (start : ℕ) → parses.old ≡ start + first → IfOk result (λ r.
        work parses.new merges.new evals.new
        ≡ added (work start merges.old evals.old) (counts_view r.counts)) }
    ensures at_most { (before : Option FilesData) (start : ℕ) → IsPast before past.now
        → parses.old ≡ start + first → RiseWithin (WorkUnderFrom before files.now (Ok cfg))
        (work start merges.old evals.old) (work parses.new merges.new evals.new) }
{
    laws_below();
    let list = plan.as_slice();
    let now = in_use(alloc, files, past, list, trees, parses)?;
    let others = now.read;
    let all = perms_under(alloc, files, &cfg, past, list, &now.shapes, merges, evals)?;
    renewed_by(alloc, files, cfg, plan, now, all, first, others)
}

// Files without permutations, whose outputs are these.
fn bare_renewed<'s>(
    alloc: Global,
    files: &Files<'s>,
    cfg: Config,
    now: InUse<'s>,
    outputs: Outputs,
    first: usize,
) -> Result<Renewed<'s>, NoMemory>
    ensures past { IfOk result (λ r. IsBare files.now now.entry.used now.entry.trees r.past) }
    ensures outputs { IfOk result (λ r. r.outputs ≡ outputs) }
    ensures counts { IfOk result (λ r. counts_view r.counts ≡ work (first + now.entry.read) 0 0) }
{
    let InUse {
        used,
        trees,
        shapes: _,
        read,
    } = now;
    let counts = counts_of(first, read, 0, 0)?;
    let past = bare_past(alloc, files, cfg, used, trees)?;
    Ok(Renewed {
        past,
        outputs,
        counts,
    })
}

// Files whose plan is refused, of which the resolver document is read.
fn unplanned<'s, L: Ledger>(
    alloc: Global,
    files: &Files<'s>,
    cfg: Config,
    past: &Past<'s>,
    refusal: &PlanRefusal<'_>,
    trees: Trees<'s>,
    first: usize,
    parses: &mut Steps<L>,
) -> Result<Renewed<'s>, NoMemory>
    requires past { (before : Option FilesData) × IsPast before past.now }
    requires refused { IsPlanRefusal (Plans (map.get files.now resolver_path)) refusal.now }
    requires trees { AreTreesIn (resolver_in files.now) trees }
    requires first { ReadsFirst past.now.used (map.get files.now resolver_path) first }
    ensures renewed { IfOk result (IsRenewed files.now (Ok cfg)) }
    ensures work { (before : Option FilesData) → IsPast before past.now → IfOk result (λ r.
        WorkUnderFrom before files.now (Ok cfg) (counts_view r.counts)) }
    ensures counted { (start m e : ℕ) → parses.old ≡ start + first → IfOk result (λ r.
        work parses.new m e ≡ added (work start m e) (counts_view r.counts)) }
    ensures at_most { (before : Option FilesData) (start m e : ℕ) → IsPast before past.now
        → parses.old ≡ start + first → RiseWithin (WorkUnderFrom before files.now (Ok cfg))
        (work start m e) (work parses.new m e) }
{
    laws_below();
    let outputs = refused_plan(alloc, files, refusal)?;
    let none = Plan::new(alloc);
    let now = in_use(alloc, files, past, none.as_slice(), trees, parses)?;
    bare_renewed(alloc, files, cfg, now, outputs, first)
}

// Files whose configuration is refused.
fn unconfigured<'s>(
    alloc: Global,
    files: &Files<'s>,
    fault: &ConfigFault,
) -> Result<Renewed<'s>, NoMemory>
    requires { IsConfigFault files.now fault.now }
    ensures renewed { IfOk result (IsRenewed files.now (settings_of files.now)) }
    ensures work { (before : Option FilesData) → IfOk result (λ r.
        IsWorkFrom before files.now (counts_view r.counts)) }
    ensures counted { IfOk result (λ r. counts_view r.counts ≡ work 0 0 0) }
{
    let outputs = refused_config(alloc, files, fault)?;
    let used = TextMap::new(alloc);
    let trees = Trees::new(alloc);
    let past = bare_past(alloc, files, Config::plain(alloc), used, trees)?;
    Ok(Renewed {
        past,
        outputs,
        counts: Counts {
            parsed: 0,
            merged: 0,
            evaluated: 0,
        },
    })
}

// Files under a configuration.
fn renewed_under<'s, L: Ledger, M: Ledger, N: Ledger>(
    alloc: Global,
    files: &Files<'s>,
    cfg: Config,
    past: &Past<'s>,
    parses: &mut Steps<L>,
    merges: &mut Steps<M>,
    evals: &mut Steps<N>,
) -> Result<Renewed<'s>, NoMemory>
    requires { (before : Option FilesData) × IsPast before past.now }
    ensures renewed { IfOk result (IsRenewed files.now (Ok cfg)) }
    ensures work { (before : Option FilesData) → IsPast before past.now → IfOk result (λ r.
        WorkUnderFrom before files.now (Ok cfg) (counts_view r.counts)) }
    ensures counted { IfOk result (λ r. work parses.new merges.new evals.new
        ≡ added (work parses.old merges.old evals.old) (counts_view r.counts)) }
    ensures at_most { (before : Option FilesData) → IsPast before past.now
        → RiseWithin (WorkUnderFrom before files.now (Ok cfg))
        (work parses.old merges.old evals.old) (work parses.new merges.new evals.new) }
{
    laws_below();
    let made = resolver_tree(alloc, files, past, parses)?;
    let first = made.1;
    match plan_of(alloc, made.0.get(RESOLVER)) {
        Ok(plan) => renewed_plan(
            alloc, files, cfg, past, plan, made.0, first, parses, merges, evals,
        ),
        Err(refusal) => unplanned(alloc, files, cfg, past, &refusal, made.0, first, parses),
    }
}

/// What is made of the files, with what was made before.
pub(crate) fn renew<'s, L: Ledger, M: Ledger, N: Ledger>(
    alloc: Global,
    files: &Files<'s>,
    past: &Past<'s>,
    parses: &mut Steps<L>,
    merges: &mut Steps<M>,
    evals: &mut Steps<N>,
) -> Result<Renewed<'s>, NoMemory>
    requires { (before : Option FilesData) × IsPast before past.now }
    ensures files { IfOk result (λ r. r.past.files ≡ files.now) }
    ensures past { IfOk result (λ r. IsPast (Some files.now) r.past) }
    ensures outputs { IfOk result (λ r. Builds files.now r.outputs) }
    ensures work { (before : Option FilesData) → IsPast before past.now → IfOk result (λ r.
        IsWorkFrom before files.now (counts_view r.counts)) }
    ensures counted { IfOk result (λ r. work parses.new merges.new evals.new
        ≡ added (work parses.old merges.old evals.old) (counts_view r.counts)) }
    ensures at_most { (before : Option FilesData) → IsPast before past.now
        → RiseWithin (IsWorkFrom before files.now)
        (work parses.old merges.old evals.old) (work parses.new merges.new evals.new) }
{
    match config_of(alloc, files) {
        Ok(cfg) => renewed_under(alloc, files, cfg, past, parses, merges, evals),
        Err(fault) => unconfigured(alloc, files, &fault),
    }
}
