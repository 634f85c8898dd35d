//! The outputs of one permutation, which are put beside those of others.

ghost use Rattle.std.specs.Prelude.{◌≡◌, ◌∷◌, [], Some, IfOk, OnOk, option_map};
ghost use Rattle.std.specs.FinMap as map;
ghost use Rattle.std.specs.List.{zip};
ghost use Rattle.refusals.specs.Refusal.{counted, report, report_text};
ghost use Rattle.source_trees.specs.View.{break_view};
ghost use Rattle.token_cells.specs.Breaks.{token_reports, verdict};
ghost use Rattle.build_plain.specs.Breaks.{source_report, tree_reports};
ghost use Rattle.build_plain.specs.Out.{four_outputs, perm_outputs, put_beside};

use crate::output::{put_output, put_shared};
use crate::sources::source_rule;
use file_plan::Files;
use group_inherit::{Flat, TreeFault};
use refusals::{Rule, append_count, append_lost_group, append_ring_groups, refuse, refuse_span};
use source_trees::SourceBreak;
use std::alloc::Global;
use tk_io::{Bytes, NoMemory, Outputs};
use token_cells::{Cells, Format, sheet_of, verdict_text};

/// What is printed of a source that breaks a rule.
pub fn source_text(
    alloc: Global,
    files: &Files<'_>,
    found: &SourceBreak<'_>,
) -> Result<Bytes, NoMemory>
    ensures { IfOk result (λ b. b
        ≡ report_text files.now (source_report (break_view found.now))) }
{
    let rule = source_rule(found.fault);
    refuse(alloc, files, rule, found.file, found.start, found.end)
}

/// Puts the refusal of a source that breaks a rule.
pub(crate) fn put_source_break(
    alloc: Global,
    files: &Files<'_>,
    name: &str,
    found: &SourceBreak<'_>,
    outputs: &mut Outputs,
) -> Result<(), NoMemory>
    ensures { OnOk result (outputs.new
        ≡ put_beside outputs.old (perm_outputs files.now name.now []
        (Some (source_report (break_view found.now))))) }
{
    let body = source_text(alloc, files, found)?;
    put_output(alloc, name, "/REFUSED", body, outputs)
}

// What is printed of a number of the whole tree that is beyond a limit.
fn count_text(
    alloc: Global,
    files: &Files<'_>,
    rule: Rule,
    first: &str,
    count: u64,
) -> Result<Bytes, NoMemory>
    ensures { IfOk result (λ b. b
        ≡ report_text files.now (report rule first.now 0 0 (counted count ∷ []))) }
{
    let mut out = refuse(alloc, files, rule, first, 0, 0)?;
    append_count(&mut out, count)?;
    Ok(out)
}

/// What is printed of a merged tree that breaks a rule of extension. `first` is the file of the permutation's first source.
pub fn tree_text(
    alloc: Global,
    files: &Files<'_>,
    first: &str,
    fault: &TreeFault<'_>,
) -> Result<Bytes, NoMemory>
    ensures { IfOk result (λ b.
        option_map (report_text files.now) (verdict (tree_reports first.now fault.now)) ≡ Some b) }
{
    match fault {
        TreeFault::ExtendsTarget(group, span) => {
            let mut out = refuse_span(alloc, files, Rule::ExtendsTarget, span)?;
            append_lost_group(&mut out, group)?;
            Ok(out)
        }
        TreeFault::ExtendsCycle(ring, span) => {
            let mut out = refuse_span(alloc, files, Rule::ExtendsCycle, span)?;
            append_ring_groups(&mut out, ring)?;
            Ok(out)
        }
        TreeFault::TooManyTokens(count) => {
            count_text(alloc, files, Rule::ExtendsCount, first, *count)
        }
        TreeFault::TooHigh(height) => {
            count_text(alloc, files, Rule::ExtendsHeight, first, *height)
        }
        TreeFault::NoMemory => Err(NoMemory),
    }
}

/// Puts the refusal of a merged tree that breaks a rule. `first` is the file of the permutation's first source.
pub(crate) fn put_tree_break(
    alloc: Global,
    files: &Files<'_>,
    name: &str,
    first: &str,
    fault: &TreeFault<'_>,
    outputs: &mut Outputs,
) -> Result<(), NoMemory>
    ensures { OnOk result (outputs.new
        ≡ put_beside outputs.old (perm_outputs files.now name.now []
        (verdict (tree_reports first.now fault.now)))) }
{
    let body = tree_text(alloc, files, first, fault)?;
    put_output(alloc, name, "/REFUSED", body, outputs)
}

/// Puts the four files of a permutation whose tokens break no rule, beside those of others.
///
/// # Errors
/// `NoMemory`. Some of the files may be put then.
pub fn put_sheets(
    alloc: Global,
    name: &str,
    cells: &Cells<'_>,
    outputs: &mut Outputs,
) -> Result<(), NoMemory>
    ensures { OnOk result
        (outputs.new ≡ put_beside outputs.old (four_outputs name.now cells.now)) }
{
    let swift = sheet_of(Format::Swift, cells)?;
    put_shared(alloc, name, "/Tokens.swift", swift, outputs)?;
    let css = sheet_of(Format::Css, cells)?;
    put_shared(alloc, name, "/tokens.css", css, outputs)?;
    let json = sheet_of(Format::Json, cells)?;
    put_shared(alloc, name, "/tokens.json", json, outputs)?;
    let android = sheet_of(Format::Android, cells)?;
    put_shared(alloc, name, "/tokens.xml", android, outputs)
}

/// Puts the outputs of tokens: the refusal of the first break among them, or else their files.
pub(crate) fn put_tokens<'s>(
    alloc: Global,
    files: &Files<'s>,
    name: &str,
    flat: &Flat<'s>,
    cells: &Cells<'s>,
    outputs: &mut Outputs,
) -> Result<(), NoMemory>
    ensures { OnOk result (outputs.new
        ≡ put_beside outputs.old (perm_outputs files.now name.now cells.now
        (verdict (token_reports flat.now (zip (map.entries flat.now) cells.now))))) }
{
    match verdict_text(alloc, files, flat, cells)? {
        Some(text) => put_output(alloc, name, "/REFUSED", text, outputs),
        None => put_sheets(alloc, name, cells, outputs),
    }
}
