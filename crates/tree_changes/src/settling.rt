//! Tokens from which no change is reached, as far as that is seen without reading a reference.

ghost use Rattle.std.specs.Prelude.{◌≡◌, ◌<◌, ℕ, true, List, Option, Some, None, IfOk, length, replicate};
ghost use Rattle.std.specs.FinMap as map;
ghost use Rattle.std.specs.List.{slice_get};
ghost use Rattle.group_inherit.specs.Flattening.{TokenAt};
ghost use Rattle.tree_changes.specs.Named.{AllNameAs, NamesAs};
ghost use Rattle.tree_changes.specs.Reached.{IsReached};
ghost use Rattle.tree_changes.specs.inner.Settling.{AreBeside, AreMoved, AreSettled};

use crate::Named;
use alias_ref::{differ_decides, source_decides};
use group_inherit::Flat;
use std::alloc::Global;
use tk_io::NoMemory;

/// How often all tokens are looked at, at most: tokens that name one another in a longer row are left to the graph.
const MOST_TURNS: usize = 4;

/// A flat tree beside an earlier one.
#[derive(Clone, Copy)]
pub(crate) struct Beside<'a, 's> {
    pub(crate) old: &'a Flat<'s>,
    /// What is known of the names of its tokens, in path order, as far as it is said.
    pub(crate) named: &'a [Named],
    pub(crate) new: &'a Flat<'s>,
    /// Where each token of the present tree stands unchanged in the earlier one.
    pub(crate) places: &'a [Option<usize>],
    /// Where each token of the earlier tree stands unchanged in the present one.
    pub(crate) moved: &'a [Option<usize>],
}

// No place for each of so many tokens.
fn no_places(alloc: Global, tokens: usize) -> Result<Vec<Option<usize>>, NoMemory>
    ensures { IfOk result (λ places. places.items ≡ replicate tokens None) }
{
    let mut places = Vec::with_capacity(alloc, tokens)?;
    for _token in 0..tokens {
        places.push(None)?;
    }
    Ok(places)
}

/// Where the tokens of an earlier tree stand in the present one, of which so many are there, by the places of those of the
/// present one.
pub(crate) fn moved_places(
    alloc: Global,
    tokens: usize,
    places: &[Option<usize>],
) -> Result<Vec<Option<usize>>, NoMemory>
    requires { (i at : ℕ) → slice_get places.now i ≡ Some (Some at) → at < tokens }
    ensures moved { IfOk result (λ moved. AreMoved places.now moved.items) }
    ensures long { IfOk result (λ moved. length moved.items ≡ tokens) }
{
    let mut moved = no_places(alloc, tokens)?;
    for (i, place) in places.iter().enumerate() {
        match place {
            Some(at) => moved[*at] = Some(i),
            None => {}
        }
    }
    Ok(moved)
}

/// What is known of the names of the token at this place.
pub(crate) fn named_at(named: &[Named], at: usize) -> Named
    ensures { (tokens : List TokenAt) (token : TokenAt) → AllNameAs tokens named.now
        → slice_get tokens at ≡ Some token → NamesAs tokens token result }
{
    match named.get(at) {
        Some(known) => *known,
        None => Named::Unknown,
    }
}

/// Where the token of this place of the earlier tree stands unchanged.
pub(crate) fn moved_to(moved: &[Option<usize>], at: usize) -> Option<usize>
    ensures { (o : Option ℕ) → slice_get moved.now at ≡ Some o → result ≡ o }
{
    match moved.get(at) {
        Some(place) => *place,
        None => None,
    }
}

/// Whether it is said of this place that no change is reached from its token.
pub(crate) fn is_said(settled: &[bool], i: usize) -> bool
    ensures { result ≡ true → slice_get settled.now i ≡ Some true }
{
    match settled.get(i) {
        Some(is) => *is,
        None => false,
    }
}

// Whether it is seen that no change is reached from the i-th token: it stands unchanged, and names none, or one of which
// that is known.
fn is_settled(side: &Beside<'_, '_>, settled: &[bool], i: usize) -> bool
    requires beside { AreBeside side.now }
    requires settled { AreSettled side.now.old.now side.now.new.now settled.now }
    requires place { i < length side.now.places.now }
    ensures { (token : TokenAt) → slice_get (map.entries side.now.new.now) i ≡ Some token
        → result ≡ true → IsReached side.now.old.now side.now.new.now token.0 → ⊥ }
{
    source_decides();
    differ_decides();
    let Some(at) = side.places[i] else {
        return false;
    };
    match named_at(side.named, at) {
        Named::Unknown => false,
        Named::Nothing => true,
        Named::One(there) => match moved_to(side.moved, there as usize) {
            Some(next) => is_said(settled, next),
            None => false,
        },
    }
}

// Looks at each token once, and says of which it is seen. Whether it was seen of one more.
fn settle_more(side: &Beside<'_, '_>, settled: &mut Vec<bool>) -> bool
    requires beside { AreBeside side.now }
    requires settled { AreSettled side.now.old.now side.now.new.now settled.old.items }
    requires long { length settled.old.items ≡ length side.now.places.now }
    ensures settled { AreSettled side.now.old.now side.now.new.now settled.new.items }
    ensures long { length settled.new.items ≡ length settled.old.items }
{
    let mut has_more = false;
    for i in 0..side.places.len() {
        if !settled[i] && is_settled(side, settled.as_slice(), i) {
            settled[i] = true;
            has_more = true;
        }
    }
    has_more
}

/// Of each token whether it is seen that no change is reached from it.
pub(crate) fn settled_tokens(alloc: Global, side: &Beside<'_, '_>) -> Result<Vec<bool>, NoMemory>
    requires { AreBeside side.now }
    ensures { IfOk result (λ settled.
        AreSettled side.now.old.now side.now.new.now settled.items) }
{
    let mut settled = vec![in alloc; false; side.places.len()]?;
    for _turn in 0..MOST_TURNS {
        if !settle_more(side, &mut settled) {
            return Ok(settled);
        }
    }
    Ok(settled)
}
