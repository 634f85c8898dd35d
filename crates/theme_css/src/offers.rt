//! The values that blocks give to names on a page, by the places of the names.

ghost use Rattle.std.specs.Prelude.{◌≡◌, ◌<◌, ℕ, List, Some, None, Option, IfOk, if◌then◌else◌};
ghost use Rattle.std.specs.Prelude.{length, map, slice_set, get_or};
ghost use Rattle.ring.specs.Lists.{AreApart};
ghost use Rattle.theme_css.specs.Cascade.{Offer as OfferData, offer, stronger, strongest};
ghost use Rattle.theme_css.specs.inner.Offers.{AreAllRanked, AreRanked, all_offered};
ghost use Rattle.theme_css.specs.inner.Views.{block_view, blocks_view, choices_view, offer_of, offers_view};

use crate::choice::{Choice, are_among};
use std::alloc::Global;
use tk_io::NoMemory;

/// The value that a name has by a block, and how many attributes the block asks for.
#[derive(Clone, Copy)]
pub(crate) struct Offer<'o> {
    pub(crate) weight: usize,
    pub(crate) value: &'o [u8],
}

/// A declaration: the place of its name among all names, and the text of its value.
#[derive(Clone, Copy)]
pub(crate) struct Declared<'o> {
    pub(crate) rank: usize,
    pub(crate) value: &'o [u8],
}

/// A block: the attributes that it asks for, and what it declares.
#[derive(Drop)]
pub(crate) struct ThemeBlock<'t, 'p, 'o> {
    pub(crate) odd: &'t [Choice<'p>],
    pub(crate) declared: Vec<Declared<'o>>,
}

/// The values of all names on a page, by the places of the names.
pub(crate) type Offers<'o> = Vec<Option<Offer<'o>>>;

// Whether what stands at the place is weaker than a later offer of this weight.
fn is_weaker(offers: &Offers<'_>, rank: usize, weight: usize) -> bool
    requires { rank < length offers.now.items }
    ensures { (o : OfferData) → o.weight ≡ weight
        → stronger (get_or (offers_view offers.now.items) rank None) (Some o)
        ≡ (if result then Some o else get_or (offers_view offers.now.items) rank None) }
{
    match &offers[rank] {
        Some(offer) => offer.weight <= weight,
        None => true,
    }
}

// Puts a declaration of a block of this weight where nothing stronger stands.
fn put_offer<'o>(offers: &mut Offers<'o>, weight: usize, declared: &Declared<'o>)
    requires { declared.now.rank < length offers.old.items }
    ensures { offers_view offers.new.items
        ≡ slice_set (offers_view offers.old.items) declared.now.rank
        (stronger (get_or (offers_view offers.old.items) declared.now.rank None)
        (Some (offer_of weight declared.now))) }
{
    if is_weaker(offers, declared.rank, weight) {
        offers[declared.rank] = Some(Offer {
            weight,
            value: declared.value,
        });
    }
}

// Puts the declarations of a block.
fn put_offers<'o>(offers: &mut Offers<'o>, weight: usize, declared: &[Declared<'o>])
    requires { AreRanked (length offers.old.items) declared.now }
    ensures len { length offers.new.items ≡ length offers.old.items }
    ensures put { (names : List (List ℕ)) (f : List ℕ → Option OfferData) → AreApart names
        → offers_view offers.old.items ≡ map f names
        → offers_view offers.new.items
        ≡ map (λ n. all_offered names weight n (f n) declared.now) names }
{
    for each in declared {
        put_offer(offers, weight, each);
    }
}

// Puts the declarations of a block that matches the page.
fn put_block<'o>(offers: &mut Offers<'o>, block: &ThemeBlock<'_, '_, 'o>, page: &[Choice<'_>])
    requires { AreRanked (length offers.old.items) block.now.declared.items }
    ensures len { length offers.new.items ≡ length offers.old.items }
    ensures put { (names : List (List ℕ)) (f : List ℕ → Option OfferData) → AreApart names
        → offers_view offers.old.items ≡ map f names
        → offers_view offers.new.items ≡ map (λ n. stronger (f n)
        (offer (choices_view page.now) n (block_view names block.now))) names }
{
    if !are_among(page, block.odd) {
        return;
    }
    put_offers(offers, block.odd.len(), block.declared.as_slice());
}

// No value of any name.
fn no_offers<'o>(alloc: Global, count: usize) -> Result<Offers<'o>, NoMemory>
    ensures len { IfOk result (λ offers. length offers.items ≡ count) }
    ensures none { IfOk result (λ offers. (names : List (List ℕ)) → length names ≡ count
        → offers_view offers.items ≡ map (λ n. None) names) }
{
    let mut offers = Vec::new(alloc);
    offers.resize(count, None)?;
    Ok(offers)
}

/// The values on a page of these attributes, by blocks in their order.
pub(crate) fn offers_on<'o>(
    alloc: Global,
    count: usize,
    blocks: &[ThemeBlock<'_, '_, 'o>],
    page: &[Choice<'_>],
) -> Result<Offers<'o>, NoMemory>
    requires { AreAllRanked count blocks.now }
    ensures len { IfOk result (λ offers. length offers.items ≡ count) }
    ensures offers { IfOk result (λ offers. (names : List (List ℕ))
        → AreApart names → length names ≡ count
        → offers_view offers.items ≡ map
        (λ n. strongest (choices_view page.now) n None (blocks_view names blocks.now)) names) }
{
    let mut offers = no_offers(alloc, count)?;
    for block in blocks {
        put_block(&mut offers, block, page);
    }
    Ok(offers)
}

/// The values that declarations give.
pub(crate) fn offers_of<'o>(
    alloc: Global,
    count: usize,
    declared: &[Declared<'o>],
) -> Result<Offers<'o>, NoMemory>
    requires { AreRanked count declared.now }
    ensures len { IfOk result (λ offers. length offers.items ≡ count) }
    ensures offers { IfOk result (λ offers. (names : List (List ℕ))
        → AreApart names → length names ≡ count
        → offers_view offers.items ≡ map
        (λ n. all_offered names 0 n None declared.now) names) }
{
    let mut offers = no_offers(alloc, count)?;
    put_offers(&mut offers, 0, declared);
    Ok(offers)
}
