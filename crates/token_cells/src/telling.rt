//! All breaks of tokens, and of their names.

ghost use Rattle.std.specs.Prelude.{◌≡◌, ◌++◌, IfOk, OnOk, flat_map, map as each};
ghost use Rattle.std.specs.FinMap as map;
ghost use Rattle.std.specs.List.{zip};
ghost use Rattle.refusals.specs.Refusal.{report_text};
ghost use Rattle.transforms.specs.Clash.{first_taken};
ghost use Rattle.token_cells.specs.Breaks.{cell_reports, names_on, clash_reports, clashes_from, clashes_on, name_clashes, taken_behind, token_reports};
ghost use Rattle.token_cells.specs.inner.Kept.{row_view, rows_view, texts_of};

use crate::cells::Cells;
use crate::names::has_apart_names;
use crate::pages::Pages;
use crate::row::Row;
use crate::verdict::{add_names, clash_text, token_text};
use file_plan::Files;
use group_inherit::{Entry, Flat};
use name_path::Path;
use std::alloc::Global;
use tk_io::{Bytes, NoMemory, Sequence};
use transforms::{Clash, Platform};

/// What is printed of breaks, one after another.
pub type BreakTexts = Sequence<Bytes>;

// Adds what is printed of the rule that a token breaks, where it breaks one.
fn add_refused<'s>(
    alloc: Global,
    files: &Files<'s>,
    flat: &Flat<'s>,
    token: &(Path<'s>, Entry<'s>),
    pages: &Pages,
    row: &Row<'s>,
    texts: &mut BreakTexts,
) -> Result<(), NoMemory>
    ensures { OnOk result (texts.new ≡ texts.old ++ each (report_text files.now)
        (cell_reports flat.now (token.now, row_view (texts_of pages.now) row.now))) }
{
    match row {
        Row::Broken(refusal) => {
            let text = token_text(alloc, files, flat, &token.0, refusal)?;
            texts.push(text)
        }
        Row::Unbroken(_) => Ok(()),
    }
}

// Adds what is printed of each token that breaks a rule.
fn add_all_refused<'s>(
    alloc: Global,
    files: &Files<'s>,
    flat: &Flat<'s>,
    tokens: &[(Path<'s>, Entry<'s>)],
    pages: &Pages,
    rows: &[Row<'s>],
    texts: &mut BreakTexts,
) -> Result<(), NoMemory>
    ensures { OnOk result (texts.new ≡ texts.old ++ each (report_text files.now)
        (flat_map (cell_reports flat.now)
        (zip tokens.now (rows_view (texts_of pages.now) rows.now)))) }
{
    for (token, row) in tokens.iter().zip(rows) {
        add_refused(alloc, files, flat, token, pages, row, texts)?;
    }
    Ok(())
}

// Adds what is printed of a token that has a name of an earlier one on the platform, where it has one, by the names of all
// before it.
fn add_clash<'s>(
    alloc: Global,
    files: &Files<'s>,
    platform: Platform,
    token: &(Path<'s>, Entry<'s>),
    pages: &Pages,
    row: &Row<'s>,
    clash: &mut Clash<'s>,
    texts: &mut BreakTexts,
) -> Result<(), NoMemory>
    ensures told { OnOk result (texts.new ≡ texts.old ++ each (report_text files.now)
        (clash_reports platform token.now
        (first_taken clash.old (names_on platform (row_view (texts_of pages.now) row.now))))) }
    ensures taken { OnOk result (clash.new ≡ taken_behind clash.old
        (names_on platform (row_view (texts_of pages.now) row.now)) token.now.0
        (first_taken clash.old (names_on platform (row_view (texts_of pages.now) row.now)))) }
{
    match add_names(alloc, clash, platform, &token.0, pages, row)? {
        Some(other) => {
            let text = clash_text(alloc, files, platform, &token.0, &token.1, &other)?;
            texts.push(text)
        }
        None => Ok(()),
    }
}

// Adds what is printed of each token that has a name of an earlier one on the platform.
fn add_told_clashes<'s>(
    alloc: Global,
    files: &Files<'s>,
    platform: Platform,
    tokens: &[(Path<'s>, Entry<'s>)],
    pages: &Pages,
    rows: &[Row<'s>],
    texts: &mut BreakTexts,
) -> Result<(), NoMemory>
    ensures { OnOk result (texts.new ≡ texts.old ++ each (report_text files.now)
        (clashes_on platform (zip tokens.now (rows_view (texts_of pages.now) rows.now)))) }
{
    let mut clash = Clash::new(alloc);
    for (token, row) in tokens.iter().zip(rows) {
        add_clash(alloc, files, platform, token, pages, row, &mut clash, texts)?;
    }
    Ok(())
}

// The same, which looks for earlier tokens only where a name stands twice.
fn add_clashes<'s>(
    alloc: Global,
    files: &Files<'s>,
    platform: Platform,
    tokens: &[(Path<'s>, Entry<'s>)],
    pages: &Pages,
    rows: &[Row<'s>],
    texts: &mut BreakTexts,
) -> Result<(), NoMemory>
    ensures { OnOk result (texts.new ≡ texts.old ++ each (report_text files.now)
        (clashes_on platform (zip tokens.now (rows_view (texts_of pages.now) rows.now)))) }
{
    if has_apart_names(alloc, platform, pages, rows)? {
        return Ok(());
    }
    add_told_clashes(alloc, files, platform, tokens, pages, rows, texts)
}

// The same on CSS, then on Android, then in Swift.
fn add_name_clashes<'s>(
    alloc: Global,
    files: &Files<'s>,
    tokens: &[(Path<'s>, Entry<'s>)],
    pages: &Pages,
    rows: &[Row<'s>],
    texts: &mut BreakTexts,
) -> Result<(), NoMemory>
    ensures { OnOk result (texts.new ≡ texts.old ++ each (report_text files.now)
        (name_clashes (zip tokens.now (rows_view (texts_of pages.now) rows.now)))) }
{
    add_clashes(alloc, files, Platform::Css, tokens, pages, rows, texts)?;
    add_clashes(alloc, files, Platform::Android, tokens, pages, rows, texts)?;
    add_clashes(alloc, files, Platform::Swift, tokens, pages, rows, texts)
}

/// What is printed of all breaks of tokens: of each that breaks a rule, in path order, and then of each that has a name of
/// an earlier one, on CSS, then on Android, then in Swift.
pub fn break_texts<'s>(
    alloc: Global,
    files: &Files<'s>,
    flat: &Flat<'s>,
    cells: &Cells<'s>,
) -> Result<BreakTexts, NoMemory>
    ensures { IfOk result (λ texts. texts ≡ each (report_text files.now)
        (token_reports flat.now (zip (map.entries flat.now) cells.now))) }
{
    let tokens = flat.as_slice();
    let (rows, pages) = cells.parts();
    let mut texts = BreakTexts::new(alloc);
    add_all_refused(alloc, files, flat, tokens, pages, rows, &mut texts)?;
    add_name_clashes(alloc, files, tokens, pages, rows, &mut texts)?;
    Ok(texts)
}
