//! All names in byte order, and declarations by the places of their names.

ghost use Rattle.std.specs.Prelude.{◌≡◌, ◌<◌, [], IfOk, IfSome, IsTrue, get_or, length};
ghost use Rattle.std.specs.List.Sorted.{IsStrictlySortedBy};
ghost use Rattle.std.specs.Str.{bytes_eq};
ghost use Rattle.tk_io.specs.Order.{text_cmp};
ghost use Rattle.ring.specs.Lists.{AreApart};
ghost use Rattle.theme_css.specs.inner.Offers.{AreRanked, ranks_of};
ghost use Rattle.std.specs.declared.cmp.Ordering.TheVariants.{Less};
ghost use Rattle.theme_css.specs.inner.Pages.{lines_view};
ghost use Rattle.theme_css.specs.inner.Views.{declarations_at, names_view};

use crate::offers::Declared;
use crate::own::Line;
use crate::pages::Page;
use std::alloc::Global;
use tk_io::NoMemory;

/// All names in byte order.
pub(crate) type Names<'o> = Vec<&'o [u8]>;

// Whether one name is below another.
fn is_below(name: &[u8], other: &[u8]) -> bool
    ensures { IsTrue result → text_cmp name.now other.now ≡ Less }
{
    name.cmp(other).is_lt()
}

// Whether each name is below the next.
fn rise(names: &Names<'_>) -> bool
    ensures { IsTrue result → IsStrictlySortedBy text_cmp (names_view names.now.items) }
{
    for i in 1..names.len() {
        if !is_below(names[i - 1], names[i]) {
            return false;
        }
    }
    true
}

// The names of lines that are not among the names.
fn new_names<'o>(
    alloc: Global,
    names: &Names<'o>,
    lines: &[Line<'o>],
) -> Result<Names<'o>, NoMemory> {
    let mut others = Vec::new(alloc);
    let mut first = 0;
    for line in lines {
        match rank_of(names, line.name, first) {
            Some(rank) => first = rank.saturating_add(1),
            None => others.push(line.name)?,
        }
    }
    Ok(others)
}

// Puts the names of lines among the names. Where they are there already, each is found where it is looked for first.
fn add_names<'o>(alloc: Global, lines: &[Line<'o>], names: &mut Names<'o>) -> Result<(), NoMemory> {
    let others = new_names(alloc, names, lines)?;
    if others.is_empty() {
        return Ok(());
    }
    names.extend_from_slice(others.as_slice())?;
    names.sort_unstable();
    names.dedup();
    Ok(())
}

/// The names of all lines, each once, in byte order.
///
/// # Errors
/// `NoMemory`. It is answered too where they were not in order once they are sorted, which is never so.
pub(crate) fn all_names<'o>(
    alloc: Global,
    pages: &[Page<'_, '_, 'o>],
) -> Result<Names<'o>, NoMemory>
    ensures { IfOk result (λ names. IsStrictlySortedBy text_cmp (names_view names.items)) }
{
    let mut names = Vec::new(alloc);
    for page in pages {
        add_names(alloc, page.lines.as_slice(), &mut names)?;
    }
    if !rise(&names) {
        return Err(NoMemory);
    }
    Ok(names)
}

// Whether the name stands at a place that there is.
fn is_name_at(names: &Names<'_>, rank: usize, name: &[u8]) -> bool
    requires { rank < length names.now.items }
    ensures { result ≡ bytes_eq (get_or (names_view names.now.items) rank []) name.now }
{
    names[rank] == name
}

// Whether the name stands at the place.
fn is_at(names: &Names<'_>, rank: usize, name: &[u8]) -> bool
    ensures within { IsTrue result → rank < length names.now.items }
    ensures name { IsTrue result → get_or (names_view names.now.items) rank [] ≡ name.now }
{
    if rank < names.len() {
        return is_name_at(names, rank, name);
    }
    false
}

// The place of a name, which is looked for at one place first.
fn rank_of<'o>(names: &Names<'o>, name: &'o [u8], first: usize) -> Option<usize>
    ensures within { IfSome result (λ rank. rank < length names.now.items) }
    ensures name { IfSome result
        (λ rank. get_or (names_view names.now.items) rank [] ≡ name.entry.now) }
{
    if is_at(names, first, name) {
        return Some(first);
    }
    let Ok(rank) = names.binary_search(&name) else {
        return None;
    };
    if is_at(names, rank, name) {
        return Some(rank);
    }
    None
}

/// What lines declare, by the places of their names.
///
/// # Errors
/// `NoMemory`. It is answered too of a name that is not among the names.
pub(crate) fn ranked<'o>(
    alloc: Global,
    names: &Names<'o>,
    lines: &[Line<'o>],
) -> Result<Vec<Declared<'o>>, NoMemory>
    ensures view { IfOk result (λ ds. declarations_at (names_view names.now.items) ds.items
        ≡ lines_view lines.now) }
    ensures known { IfOk result (λ ds. AreRanked (length names.now.items) ds.items) }
{
    let mut declared = Vec::with_capacity(alloc, lines.len())?;
    let mut first = 0;
    for line in lines {
        let Some(rank) = rank_of(names, line.name, first) else {
            return Err(NoMemory);
        };
        declared.push(Declared {
            rank,
            value: line.value,
        })?;
        first = rank.saturating_add(1);
    }
    Ok(declared)
}

/// Whether no two declarations have one place.
pub(crate) fn are_apart(
    alloc: Global,
    count: usize,
    declared: &[Declared<'_>],
) -> Result<bool, NoMemory>
    requires { AreRanked count declared.now }
    ensures { IfOk result (λ apart. IsTrue apart → AreApart (ranks_of declared.now)) }
{
    let mut seen = Vec::new(alloc);
    seen.resize(count, false)?;
    for each in declared {
        if seen[each.rank] {
            return Ok(false);
        }
        seen[each.rank] = true;
    }
    Ok(true)
}
