//! The pages of permutations, in the order of their blocks.

ghost use Rattle.std.specs.Prelude.{◌≡◌, [], ◌∷◌, IfOk, OnOk, map};
ghost use Rattle.std.specs.FinMap as finite;
ghost use Rattle.std.specs.List.{AllZip};
ghost use Rattle.std.specs.String.{string_bytes};
ghost use Rattle.permutations.specs.Name.{name_of};
ghost use Rattle.theme_css.specs.Sheet.{Declares};
ghost use Rattle.theme_css.specs.Themes.{IsTheme, by_weight, odd, with_weight};
ghost use Rattle.theme_css.specs.inner.Pages.{page_view, pages_view, row_view, rows_view};
ghost use Rattle.theme_css.specs.inner.Pages.{AddsThemes, HasSheet, lines_view};
ghost use Rattle.theme_css.specs.inner.Views.{choices_view};

use crate::choice::Choice;
use crate::choices::{Row, odd_of};
use crate::own::{Line, own_lines};
use std::alloc::Global;
use tk_io::{NoMemory, Outputs};

/// A permutation: its contexts, those that are not the usual ones, and the lines of its own sheet.
#[derive(Drop)]
pub(crate) struct Page<'t, 'p, 'o> {
    pub(crate) page: &'t [Choice<'p>],
    pub(crate) odd: Vec<Choice<'p>>,
    pub(crate) lines: Vec<Line<'o>>,
}

// The lines of the sheet of the permutation of a name.
fn sheet_lines<'o>(
    alloc: Global,
    outputs: &'o Outputs,
    name: &str,
) -> Result<Vec<Line<'o>>, NoMemory>
    ensures { IfOk result (λ lines. HasSheet outputs.entry.now name.now (lines_view lines.items)) }
{
    let mut path = String::from_str(alloc, name)?;
    path.push_str("/tokens.css")?;
    let Some(sheet) = outputs.get(path.as_str()) else {
        return Err(NoMemory);
    };
    own_lines(alloc, sheet)
}

// Adds the page of a permutation, where so many of its contexts are not the usual ones.
fn add_page<'t, 'p, 'o>(
    alloc: Global,
    outputs: &'o Outputs,
    usual: &[Choice<'p>],
    name: &str,
    row: &'t Row<'p>,
    weight: usize,
    pages: &mut Vec<Page<'t, 'p, 'o>>,
) -> Result<(), NoMemory>
    requires { name.now ≡ name_of (row_view row.now) }
    ensures { OnOk result (AddsThemes outputs.entry.now (choices_view usual.now)
        (with_weight (choices_view usual.now) (row_view row.entry.now ∷ []) weight)
        (pages_view pages.old.items) (pages_view pages.new.items)) }
{
    let page = row.choices.as_slice();
    let odd = odd_of(alloc, usual, page)?;
    if odd.len() != weight {
        return Ok(());
    }
    let lines = sheet_lines(alloc, outputs, name)?;
    pages.push(Page { page, odd, lines })?;
    Ok(())
}

// Adds the pages of all permutations so many of whose contexts are not the usual ones.
fn add_pages<'t, 'p, 'o>(
    alloc: Global,
    outputs: &'o Outputs,
    usual: &[Choice<'p>],
    names: &[&str],
    rows: &'t [Row<'p>],
    weight: usize,
    pages: &mut Vec<Page<'t, 'p, 'o>>,
) -> Result<(), NoMemory>
    requires { map (λ n. n.now) names.now ≡ map name_of (rows_view rows.now) }
    ensures { OnOk result (AddsThemes outputs.entry.now (choices_view usual.now)
        (with_weight (choices_view usual.now) (rows_view rows.entry.now) weight)
        (pages_view pages.old.items) (pages_view pages.new.items)) }
{
    for i in 0..rows.len() {
        add_page(alloc, outputs, usual, names[i], &rows[i], weight, pages)?;
    }
    Ok(())
}

/// The pages of all permutations: first by how many contexts are not the usual ones, and then in the order of permutations.
pub(crate) fn pages_of<'t, 'p, 'o>(
    alloc: Global,
    outputs: &'o Outputs,
    usual: &[Choice<'p>],
    names: &[&str],
    rows: &'t [Row<'p>],
) -> Result<Vec<Page<'t, 'p, 'o>>, NoMemory>
    requires { map (λ n. n.now) names.now ≡ map name_of (rows_view rows.now) }
    ensures { IfOk result (λ pages. AllZip (IsTheme outputs.entry.now (choices_view usual.now))
        (by_weight (choices_view usual.now) (rows_view rows.entry.now)) (pages_view pages.items)) }
{
    let mut pages = Vec::with_capacity(alloc, rows.len())?;
    for weight in 0..usual.len() {
        add_pages(alloc, outputs, usual, names, rows, weight, &mut pages)?;
    }
    add_pages(alloc, outputs, usual, names, rows, usual.len(), &mut pages)?;
    Ok(pages)
}
