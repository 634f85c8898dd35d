//! The names that cells have on a platform.

ghost use Rattle.std.specs.Prelude.{◌≡◌, ◌++◌, true, List, ℕ, IfOk, OnOk, flat_map, map};
ghost use Rattle.ring.specs.Lists.{AreApart};
ghost use Rattle.transforms.specs.Rising.{RiseTo};
ghost use Rattle.token_cells.specs.Breaks.{names_on};
ghost use Rattle.token_cells.specs.inner.Kept.{PageTexts, row_view, rows_view, texts_of};

use crate::pages::Pages;
use crate::row::Row;
use std::alloc::Global;
use tk_io::NoMemory;
use transforms::{Platform, Rising, are_apart, clash_laws};

/// Adds the names that the token has on the platform; none where a rule is broken. None is copied.
pub(crate) fn push_names<'a>(
    platform: Platform,
    pages: &'a Pages,
    row: &Row<'_>,
    all: &mut Vec<&'a [u8]>,
) -> Result<(), NoMemory>
    ensures { OnOk result (map (λ name. name.now) all.new.items
        ≡ map (λ name. name.now) all.old.items
        ++ names_on platform (row_view (texts_of pages.now) row.now)) }
{
    match row {
        Row::Unbroken(fragments) => pages.push_names(platform, fragments, all),
        Row::Broken(_) => Ok(()),
    }
}

// Whether each of these names stands behind the one before it.
fn row_rises<'a>(
    platform: Platform,
    pages: &'a Pages,
    row: &Row<'_>,
    rising: &mut Rising<'a>,
) -> bool
    ensures { (names : List (List ℕ)) → RiseTo names rising.old → result ≡ true → RiseTo
        (names ++ names_on platform (row_view (texts_of pages.now) row.now)) rising.new }
{
    match row {
        Row::Unbroken(fragments) => pages.rises(platform, fragments, rising),
        Row::Broken(_) => true,
    }
}

// Whether the names that the tokens have on the platform rise, as those of tokens in path order mostly do, so that none
// stands twice.
fn all_rise(platform: Platform, pages: &Pages, rows: &[Row<'_>]) -> bool
    ensures { result ≡ true
        → AreApart (flat_map (names_on platform) (rows_view (texts_of pages.now) rows.now)) }
{
    clash_laws();
    let mut rising = Rising::new();
    for row in rows {
        if !row_rises(platform, pages, row, &mut rising) {
            return false;
        }
    }
    true
}

// All names that the tokens have on the platform, in their order.
fn all_names<'a>(
    alloc: Global,
    platform: Platform,
    pages: &'a Pages,
    rows: &[Row<'_>],
) -> Result<Vec<&'a [u8]>, NoMemory>
    ensures { IfOk result (λ all. map (λ name. name.now) all.items
        ≡ flat_map (names_on platform) (rows_view (texts_of pages.now) rows.now)) }
{
    let mut all = Vec::with_capacity(alloc, rows.len())?;
    for row in rows {
        push_names(platform, pages, row, &mut all)?;
    }
    Ok(all)
}

/// Whether no name that the tokens have on the platform stands twice.
pub(crate) fn has_apart_names(
    alloc: Global,
    platform: Platform,
    pages: &Pages,
    rows: &[Row<'_>],
) -> Result<bool, NoMemory>
    ensures { IfOk result (λ apart. apart ≡ true
        → AreApart (flat_map (names_on platform) (rows_view (texts_of pages.now) rows.now))) }
{
    if all_rise(platform, pages, rows) {
        return Ok(true);
    }
    let names = all_names(alloc, platform, pages, rows)?;
    are_apart(names)
}

// Whether the names in Swift are known to be those on Android.
fn is_named_alike(row: &Row<'_>) -> bool
    ensures { (pages : PageTexts) → result ≡ true
        → names_on Platform.Swift (row_view pages row.now)
        ≡ names_on Platform.Android (row_view pages row.now) }
{
    match row {
        Row::Unbroken(fragments) => {
            let android = fragments.android.names;
            let swift = fragments.swift.names;
            swift.start == android.start && swift.end == android.end
        }
        Row::Broken(_) => true,
    }
}

/// Whether all names in Swift are known to be those on Android, as they mostly are.
pub(crate) fn are_named_alike(rows: &[Row<'_>]) -> bool
    ensures { (pages : PageTexts) → result ≡ true
        → map (names_on Platform.Swift) (rows_view pages rows.now)
        ≡ map (names_on Platform.Android) (rows_view pages rows.now) }
{
    for row in rows {
        if !is_named_alike(row) {
            return false;
        }
    }
    true
}
