//! The first break of tokens, and of their names.

ghost use Rattle.std.specs.Prelude.{◌≡◌, [], IfOk, flat_map};
ghost use Rattle.std.specs.FinMap as map;
ghost use Rattle.std.specs.List.{zip};
ghost use Rattle.refusals.specs.Refusal.{report, report_text};
ghost use Rattle.token_cells.specs.Cell.{token_break};
ghost use Rattle.token_cells.specs.Breaks.{place_span, token_report, cell_reports, names_on, clash_report, clashes_on, name_clashes, token_reports, verdict_text};
ghost use Rattle.token_cells.specs.inner.Kept.{row_view, rows_view, texts_of};
ghost use Rattle.transforms.specs.Clash.{first_taken, Leaves};

use crate::cells::Cells;
use crate::names::{are_named_alike, has_apart_names, push_names};
use crate::pages::Pages;
use crate::row::{Refusal, Row};
use alias_ref::span_of;
use file_plan::Files;
use group_inherit::{Entry, FileSpan, Flat};
use name_path::{Path, Place};
use refusals::{
    Rule, append_other, append_place, append_platform, append_ring_places, append_token, refuse,
    refuse_span,
};
use std::alloc::Global;
use tk_io::{Bytes, NoMemory};
use transforms::{Clash, Platform};

// Where the place stands in the file of its token's definition.
fn place_span<'s>(flat: &Flat<'s>, place: &Place<'s>) -> FileSpan<'s>
    ensures { result ≡ place_span flat.now place.now }
{
    let Some(entry) = flat.get(&place.token) else {
        return FileSpan {
            file: "",
            start: 0,
            end: 0,
        };
    };
    let (start, end) = span_of(flat, place);
    FileSpan {
        file: entry.def.file,
        start,
        end,
    }
}

/// What is printed of the rule that a token breaks.
pub(crate) fn token_text<'s>(
    alloc: Global,
    files: &Files<'s>,
    flat: &Flat<'s>,
    path: &Path<'s>,
    refusal: &Refusal<'s>,
) -> Result<Bytes, NoMemory>
    ensures { IfOk result (λ b. b ≡ report_text files.now
        (token_report flat.now path.now
        (token_break refusal.now.rule refusal.now.place refusal.now.ring))) }
{
    let span = place_span(flat, &refusal.place);
    let mut out = refuse_span(alloc, files, Rule::Token(refusal.rule), &span)?;
    append_token(&mut out, path)?;
    append_place(&mut out, &refusal.place)?;
    append_ring_places(&mut out, &refusal.ring)?;
    Ok(out)
}

// What is printed of the first token that breaks a rule.
fn first_refused<'s>(
    alloc: Global,
    files: &Files<'s>,
    flat: &Flat<'s>,
    tokens: &[(Path<'s>, Entry<'s>)],
    pages: &Pages,
    rows: &[Row<'s>],
) -> Result<Option<Bytes>, NoMemory>
    ensures { IfOk result (λ text. text ≡ verdict_text files.now
        (flat_map (cell_reports flat.now)
        (zip tokens.now (rows_view (texts_of pages.now) rows.now)))) }
{
    for (token, row) in tokens.iter().zip(rows) {
        if let Row::Broken(refusal) = row {
            let text = token_text(alloc, files, flat, &token.0, refusal)?;
            return Ok(Some(text));
        }
    }
    Ok(None)
}

/// Adds the names that the token has on the platform; the answer is an earlier token that has one of them.
pub(crate) fn add_names<'s>(
    alloc: Global,
    clash: &mut Clash<'s>,
    platform: Platform,
    path: &Path<'s>,
    pages: &Pages,
    row: &Row<'s>,
) -> Result<Option<Path<'s>>, NoMemory>
    ensures answer { IfOk result (λ other. other
        ≡ first_taken clash.old (names_on platform (row_view (texts_of pages.now) row.now))) }
    ensures leaves { IfOk result (Leaves clash.old
        (names_on platform (row_view (texts_of pages.now) row.now)) path.now clash.new) }
{
    let mut names = Vec::new(alloc);
    push_names(platform, pages, row, &mut names)?;
    clash.add(path, names.as_slice())
}

// The first lines of what is printed of that, at the token's object.
fn object_text<'s>(alloc: Global, files: &Files<'s>, entry: &Entry<'s>) -> Result<Bytes, NoMemory>
    ensures { IfOk result (λ b. b ≡ report_text files.now
        (report Rule.NameClash entry.now.def.file entry.now.def.start entry.now.def.end [])) }
{
    let def = &entry.def;
    refuse(alloc, files, Rule::NameClash, def.file, def.start, def.end)
}

/// What is printed of a token that has a name of an earlier one.
pub(crate) fn clash_text<'s>(
    alloc: Global,
    files: &Files<'s>,
    platform: Platform,
    path: &Path<'s>,
    entry: &Entry<'s>,
    other: &Path<'s>,
) -> Result<Bytes, NoMemory>
    ensures { IfOk result (λ b. b ≡ report_text files.now
        (clash_report platform (path.now, entry.now) other.now)) }
{
    let mut out = object_text(alloc, files, entry)?;
    append_token(&mut out, path)?;
    append_other(&mut out, other)?;
    append_platform(&mut out, platform)?;
    Ok(out)
}

// What is printed of the first token that has a name of an earlier one on the platform, by the names of all before it.
fn told_clash<'s>(
    alloc: Global,
    files: &Files<'s>,
    platform: Platform,
    tokens: &[(Path<'s>, Entry<'s>)],
    pages: &Pages,
    rows: &[Row<'s>],
) -> Result<Option<Bytes>, NoMemory>
    ensures { IfOk result (λ text. text ≡ verdict_text files.now
        (clashes_on platform (zip tokens.now (rows_view (texts_of pages.now) rows.now)))) }
{
    let mut clash = Clash::new(alloc);
    for (token, row) in tokens.iter().zip(rows) {
        if let Some(other) = add_names(alloc, &mut clash, platform, &token.0, pages, row)? {
            let text = clash_text(alloc, files, platform, &token.0, &token.1, &other)?;
            return Ok(Some(text));
        }
    }
    Ok(None)
}

// The same, which looks for an earlier token only where a name stands twice.
fn first_clash<'s>(
    alloc: Global,
    files: &Files<'s>,
    platform: Platform,
    tokens: &[(Path<'s>, Entry<'s>)],
    pages: &Pages,
    rows: &[Row<'s>],
) -> Result<Option<Bytes>, NoMemory>
    ensures { IfOk result (λ text. text ≡ verdict_text files.now
        (clashes_on platform (zip tokens.now (rows_view (texts_of pages.now) rows.now)))) }
{
    if has_apart_names(alloc, platform, pages, rows)? {
        return Ok(None);
    }
    told_clash(alloc, files, platform, tokens, pages, rows)
}

// The same on CSS, then on Android, then in Swift, where names that are all those on Android have no clash of their own.
fn first_name_clash<'s>(
    alloc: Global,
    files: &Files<'s>,
    tokens: &[(Path<'s>, Entry<'s>)],
    pages: &Pages,
    rows: &[Row<'s>],
) -> Result<Option<Bytes>, NoMemory>
    ensures { IfOk result (λ text. text ≡ verdict_text files.now
        (name_clashes (zip tokens.now (rows_view (texts_of pages.now) rows.now)))) }
{
    if let Some(text) = first_clash(alloc, files, Platform::Css, tokens, pages, rows)? {
        return Ok(Some(text));
    }
    if let Some(text) = first_clash(alloc, files, Platform::Android, tokens, pages, rows)? {
        return Ok(Some(text));
    }
    if are_named_alike(rows) {
        return Ok(None);
    }
    first_clash(alloc, files, Platform::Swift, tokens, pages, rows)
}

/// What is printed of the verdict of tokens: of the first that breaks a rule, or else of the first that has a name of an
/// earlier one.
pub fn verdict_text<'s>(
    alloc: Global,
    files: &Files<'s>,
    flat: &Flat<'s>,
    cells: &Cells<'s>,
) -> Result<Option<Bytes>, NoMemory>
    ensures { IfOk result (λ text. text ≡ verdict_text files.now
        (token_reports flat.now (zip (map.entries flat.now) cells.now))) }
{
    let tokens = flat.as_slice();
    let (rows, pages) = cells.parts();
    if let Some(text) = first_refused(alloc, files, flat, tokens, pages, rows)? {
        return Ok(Some(text));
    }
    first_name_clash(alloc, files, tokens, pages, rows)
}
