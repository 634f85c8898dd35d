//! The blocks of themes: each declares what the blocks before it leave to be said.

ghost use Rattle.std.specs.Prelude.{◌≡◌, ◌<◌, ◌++◌, ◌&&◌, ℕ, List, [], Option, None, IfOk};
ghost use Rattle.std.specs.Prelude.{OnOk, filter, get_or, is_some, length, map, not, option_map};
ghost use Rattle.ring.specs.Lists.{AreApart};
ghost use Rattle.theme_css.specs.Blocks.{block_after, blocks_after, is_gone, is_same_value, none_for};
ghost use Rattle.theme_css.specs.Cascade.{Offer as OfferData};
ghost use Rattle.theme_css.specs.inner.Offers.{AreAllRanked, AreRanked, AreThemesApart, AreThemesRanked, ranks_of};
ghost use Rattle.theme_css.specs.inner.Offers.{differs_at, gone_at, is_gone_at, raw_value, value_of};
ghost use Rattle.theme_css.specs.inner.Pages.{page_view, pages_view, theme_view, themes_view};
ghost use Rattle.theme_css.specs.inner.Views.{block_view, blocks_view, declarations_at, names_view, offers_view};

use crate::choice::Choice;
use crate::offers::{Declared, Offers, ThemeBlock, offers_of, offers_on};
use crate::own::is_initial;
use crate::pages::Page;
use crate::table::{Names, are_apart, ranked};
use std::alloc::Global;
use tk_io::NoMemory;

/// A permutation, with what its own sheet declares by the places of the names.
#[derive(Drop)]
pub(crate) struct Theme<'t, 'p, 'o> {
    pub(crate) page: &'t [Choice<'p>],
    pub(crate) odd: Vec<Choice<'p>>,
    pub(crate) own: Vec<Declared<'o>>,
}

// The theme of a page. `NoMemory` is answered too where it declares a name twice, which no output does.
fn theme_of<'t, 'p, 'o>(
    alloc: Global,
    names: &Names<'o>,
    page: &Page<'t, 'p, 'o>,
) -> Result<Theme<'t, 'p, 'o>, NoMemory>
    ensures view { IfOk result (λ t. theme_view (names_view names.now.items) t
        ≡ page_view page.now) }
    ensures known { IfOk result (λ t. AreRanked (length names.now.items) t.own.items) }
    ensures once { IfOk result (λ t. AreApart (ranks_of t.own.items)) }
{
    let own = ranked(alloc, names, page.lines.as_slice())?;
    if !are_apart(alloc, names.len(), own.as_slice())? {
        return Err(NoMemory);
    }
    let mut odd = Vec::new(alloc);
    odd.extend_from_slice(page.odd.as_slice())?;
    Ok(Theme {
        page: page.page,
        odd,
        own,
    })
}

/// The themes of pages.
pub(crate) fn themes_of<'t, 'p, 'o>(
    alloc: Global,
    names: &Names<'o>,
    pages: &[Page<'t, 'p, 'o>],
) -> Result<Vec<Theme<'t, 'p, 'o>>, NoMemory>
    ensures view { IfOk result (λ ts. themes_view (names_view names.now.items) ts.items
        ≡ pages_view pages.now) }
    ensures known { IfOk result (λ ts. AreThemesRanked (length names.now.items) ts.items) }
    ensures once { IfOk result (λ ts. AreThemesApart ts.items) }
{
    let mut themes = Vec::with_capacity(alloc, pages.len())?;
    for page in pages {
        themes.push(theme_of(alloc, names, page)?)?;
    }
    Ok(themes)
}

// The value of a name on a page; `initial` is none.
fn value_at<'o>(offers: &Offers<'o>, rank: usize) -> Option<&'o [u8]>
    requires { rank < length offers.now.items }
    ensures { option_map (λ v. v.now) result
        ≡ value_of (get_or (offers_view offers.now.items) rank None) }
{
    match &offers[rank] {
        Some(offer) => {
            if is_initial(offer.value) {
                return None;
            }
            Some(offer.value)
        }
        None => None,
    }
}

// The value that is declared for a name.
fn raw_at<'o>(offers: &Offers<'o>, rank: usize) -> Option<&'o [u8]>
    requires { rank < length offers.now.items }
    ensures { option_map (λ v. v.now) result
        ≡ raw_value (get_or (offers_view offers.now.items) rank None) }
{
    match &offers[rank] {
        Some(offer) => Some(offer.value),
        None => None,
    }
}

// Whether there is one value, or none.
fn is_same_value(one: Option<&[u8]>, other: Option<&[u8]>) -> bool
    ensures { result ≡ is_same_value (option_map (λ v. v.now) one.entry)
        (option_map (λ v. v.now) other.entry) }
{
    match (one, other) {
        (Some(one), Some(other)) => one == other,
        (None, None) => true,
        _ => false,
    }
}

// Whether the name has another value in the own sheet than before.
fn differs(before: &Offers<'_>, own: &Offers<'_>, rank: usize) -> bool
    requires before { rank < length before.now.items }
    requires own { rank < length own.now.items }
    ensures { result ≡ differs_at (offers_view before.now.items) (offers_view own.now.items) rank }
{
    !is_same_value(value_at(before, rank), raw_at(own, rank))
}

// What the own sheet declares with another value than before.
fn changed<'o>(
    alloc: Global,
    before: &Offers<'_>,
    own: &Offers<'_>,
    declared: &[Declared<'o>],
) -> Result<Vec<Declared<'o>>, NoMemory>
    requires before { AreRanked (length before.now.items) declared.now }
    requires own { AreRanked (length own.now.items) declared.now }
    ensures { IfOk result (λ ds. ds.items ≡ filter (λ d. differs_at
        (offers_view before.now.items) (offers_view own.now.items) d.rank) declared.entry.now) }
{
    let mut others = Vec::new(alloc);
    for each in declared {
        if differs(before, own, each.rank) {
            others.push(*each)?;
        }
    }
    Ok(others)
}

// Whether the name has a value before, and none in the own sheet.
fn is_gone(before: &Offers<'_>, own: &Offers<'_>, rank: usize) -> bool
    requires before { rank < length before.now.items }
    requires own { rank < length own.now.items }
    ensures { result ≡ is_gone_at (offers_view before.now.items) (offers_view own.now.items) rank }
{
    if own[rank].is_some() {
        return false;
    }
    value_at(before, rank).is_some()
}

// Adds `initial` for a name that has a value before, and none in the own sheet.
fn add_if_gone<'o>(
    before: &Offers<'_>,
    own: &Offers<'_>,
    rank: usize,
    declared: &mut Vec<Declared<'o>>,
) -> Result<(), NoMemory>
    requires before { rank < length before.now.items }
    requires own { rank < length own.now.items }
    ensures known { OnOk result (AreRanked (length before.now.items) declared.old.items
        → AreRanked (length before.now.items) declared.new.items) }
    ensures added { OnOk result ((names : List (List ℕ))
        → declarations_at names declared.new.items ≡ declarations_at names declared.old.items
        ++ gone_at names (offers_view before.now.items) (offers_view own.now.items) rank) }
{
    if !is_gone(before, own, rank) {
        return Ok(());
    }
    declared.push(Declared {
        rank,
        value: b"initial",
    })?;
    Ok(())
}

// Adds `initial` for each name that has a value before, and none in the own sheet.
fn add_gone<'o>(
    before: &Offers<'_>,
    own: &Offers<'_>,
    declared: &mut Vec<Declared<'o>>,
) -> Result<(), NoMemory>
    requires { length own.now.items ≡ length before.now.items }
    ensures known { OnOk result (AreRanked (length before.now.items) declared.old.items
        → AreRanked (length before.now.items) declared.new.items) }
    ensures added { (names : List (List ℕ)) → length names ≡ length before.now.items
        → (f g : List ℕ → Option OfferData) → offers_view before.now.items ≡ map f names
        → offers_view own.now.items ≡ map g names
        → OnOk result (declarations_at names declared.new.items
        ≡ declarations_at names declared.old.items ++ map none_for
        (filter (λ n. is_some (value_of (f n)) && not (is_some (g n))) names)) }
{
    for rank in 0..before.len() {
        add_if_gone(before, own, rank, declared)?;
    }
    Ok(())
}

// The block of a theme after other blocks.
fn block_of<'x, 't, 'p, 'o>(
    alloc: Global,
    count: usize,
    blocks: &[ThemeBlock<'x, 'p, 'o>],
    theme: &'x Theme<'t, 'p, 'o>,
) -> Result<ThemeBlock<'x, 'p, 'o>, NoMemory>
    requires blocks { AreAllRanked count blocks.now }
    requires theme { AreRanked count theme.now.own.items }
    ensures known { IfOk result (λ b. AreRanked count b.declared.items) }
    ensures view { (names : List (List ℕ)) → AreApart names → length names ≡ count
        → IfOk result (λ b. block_view names b
        ≡ block_after names (blocks_view names blocks.now) (theme_view names theme.entry.now)) }
{
    let before = offers_on(alloc, count, blocks, theme.page)?;
    let own = offers_of(alloc, count, theme.own.as_slice())?;
    let mut declared = changed(alloc, &before, &own, theme.own.as_slice())?;
    add_gone(&before, &own, &mut declared)?;
    Ok(ThemeBlock {
        odd: theme.odd.as_slice(),
        declared,
    })
}

/// The blocks of themes in their order.
pub(crate) fn blocks_of<'x, 't, 'p, 'o>(
    alloc: Global,
    count: usize,
    themes: &'x [Theme<'t, 'p, 'o>],
) -> Result<Vec<ThemeBlock<'x, 'p, 'o>>, NoMemory>
    requires { AreThemesRanked count themes.now }
    ensures known { IfOk result (λ bs. AreAllRanked count bs.items) }
    ensures view { (names : List (List ℕ)) → AreApart names → length names ≡ count
        → IfOk result (λ bs. blocks_view names bs.items
        ≡ blocks_after names [] (themes_view names themes.entry.now)) }
{
    let mut blocks = Vec::with_capacity(alloc, themes.len())?;
    for theme in themes {
        let block = block_of(alloc, count, blocks.as_slice(), theme)?;
        blocks.push(block)?;
    }
    Ok(blocks)
}
