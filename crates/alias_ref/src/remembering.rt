//! Remembering what tokens come to, in an order in which each follows those that it names.

ghost use Rattle.std.specs.Prelude.{◌≡◌, ◌∷◌, [], length, Some, None, IfOk, IfSome, IsTrue};
ghost use Rattle.std.specs.FinMap as map;
ghost use Rattle.std.specs.List.{slice_get};
ghost use Rattle.alias_ref.specs.Answer.{IsResolved};
ghost use Rattle.alias_ref.specs.Refs.{refs_of};
ghost use Rattle.alias_ref.specs.Visits.{walked};
ghost use Rattle.alias_ref.specs.Written.{whole, written_in};
ghost use Rattle.alias_ref.specs.inner.Remembering.{AreAt, Remembers, all_known, known_at};
ghost use Rattle.alias_ref.specs.inner.Chains.{AreAliases};

use crate::aliases::Aliases;
use crate::fault::RefFault;
use crate::memory::{Known, Memory, place_of};
use crate::refs::{alias_of, refs_of};
use crate::resolved::resolve;
use crate::sharing::shared;
use group_inherit::{Entry, Flat};
use name_path::{Path, Paths};
use std::alloc::Global;
use tk_io::NoMemory;

/// How far from a token others are prepared that its references lead to. A walk reaches no further.
pub(crate) const FARTHEST: usize = 256;

/// The places of the tokens of these paths; none where one of them is not there.
fn places_of<'s>(
    alloc: Global,
    tokens: &[(Path<'s>, Entry<'s>)],
    paths: &Paths<'s>,
) -> Result<Option<Vec<usize>>, NoMemory>
    ensures { IfOk result (λ o. IfSome o (λ places. AreAt tokens.now paths.now places.items)) }
{
    let mut places = Vec::new(alloc);
    let named = paths.as_slice();
    for path in named {
        let Some(place) = place_of(tokens, path) else {
            return Ok(None);
        };
        places.push(place)?;
    }
    Ok(Some(places))
}

/// Whether something is remembered at each of the places, but for this one.
fn all_known(memory: &Memory<'_>, i: usize, places: &[usize]) -> bool
    ensures { result ≡ all_known memory.now.known.items i places.now }
{
    for place in places {
        if *place != i && memory.at(*place).is_none() {
            return false;
        }
    }
    true
}

/// The place of the token to which the whole value of the token of a place refers without steps, which is kept; none where it
/// does not, or where no such token is there.
fn lead<'s>(
    alloc: Global,
    flat: &Flat<'s>,
    aliases: &mut Aliases,
    i: usize,
    token: &(Path<'s>, Entry<'s>),
) -> Result<Option<usize>, NoMemory>
    requires token { slice_get (map.entries flat.now) i ≡ Some token.now }
    requires right { AreAliases flat.now aliases.old.targets.items }
    ensures right { AreAliases flat.now aliases.new.targets.items }
    ensures alone { IfOk result (λ o. IfSome o (λ j.
        AreAt (map.entries flat.now) (refs_of token.now.1.def) (j ∷ []))) }
{
    let Some(named) = alias_of(alloc, &token.1.def)? else {
        return Ok(None);
    };
    let tokens = flat.as_slice();
    let Some(target) = place_of(tokens, &named) else {
        return Ok(None);
    };
    aliases.lead(i, target);
    Ok(Some(target))
}

/// What the token of a place comes to, by what is remembered of others; none where it breaks a rule.
fn known_of<'s>(
    alloc: Global,
    flat: &Flat<'s>,
    memory: &Memory<'s>,
    aliases: &Aliases,
    i: usize,
    token: &(Path<'s>, Entry<'s>),
) -> Result<Option<Known<'s>>, NoMemory>
    requires token { slice_get (map.entries flat.now) i ≡ Some token.now }
    requires right { Remembers flat.now memory.now.known.items }
    requires new { known_at memory.now.known.items i ≡ None }
    requires aliases { AreAliases flat.now aliases.now.targets.items }
    ensures resolved { IfOk result (λ o. IfSome o (λ k.
        IsResolved flat.now token.now.0 k.resolved)) }
    ensures counted { IfOk result (λ o. IfSome o (λ k.
        length (walked (written_in flat.now) [] (whole token.now.0)) ≡ k.visits)) }
{
    if let Some(known) = shared(alloc, flat, memory, aliases, i, token)? {
        return Ok(Some(known));
    }
    let mut visits = 0;
    match resolve(alloc, flat, memory, &token.0, &token.1, &mut visits) {
        Ok(resolved) => Ok(Some(Known { visits, resolved })),
        Err(RefFault::Broken { .. }) => Ok(None),
        Err(RefFault::NoMemory) => Err(NoMemory),
    }
}

/// Remembers what the token of a place comes to, where it breaks no rule and something is remembered of each token that it
/// names. These stand at the places.
fn remember<'s>(
    alloc: Global,
    flat: &Flat<'s>,
    memory: &mut Memory<'s>,
    aliases: &Aliases,
    i: usize,
    token: &(Path<'s>, Entry<'s>),
    named: &[usize],
) -> Result<(), NoMemory>
    requires token { slice_get (map.entries flat.now) i ≡ Some token.now }
    requires named { AreAt (map.entries flat.now) (refs_of token.now.1.def) named.now }
    requires right { Remembers flat.now memory.old.known.items }
    requires aliases { AreAliases flat.now aliases.now.targets.items }
    ensures { Remembers flat.now memory.new.known.items }
{
    if memory.at(i).is_some() {
        return Ok(());
    }
    if !all_known(memory, i, named) {
        return Ok(());
    }
    if let Some(known) = known_of(alloc, flat, memory, aliases, i, token)? {
        memory.keep(i, known);
    }
    Ok(())
}

/// The places of the tokens that the token of a place names, which is looked at; none where one of them is not there.
fn look<'s>(
    alloc: Global,
    flat: &Flat<'s>,
    memory: &mut Memory<'s>,
    aliases: &mut Aliases,
    i: usize,
    token: &(Path<'s>, Entry<'s>),
) -> Result<Option<Vec<usize>>, NoMemory>
    requires token { slice_get (map.entries flat.now) i ≡ Some token.now }
    requires aliases { AreAliases flat.now aliases.old.targets.items }
    ensures known { memory.new.known ≡ memory.old.known }
    ensures aliases { AreAliases flat.now aliases.new.targets.items }
    ensures named { IfOk result (λ o. IfSome o (λ named.
        AreAt (map.entries flat.now) (refs_of token.now.1.def) named.items)) }
{
    memory.see(i);
    if let Some(target) = lead(alloc, flat, aliases, i, token)? {
        let mut named = Vec::with_capacity(alloc, 1)?;
        named.push(target)?;
        return Ok(Some(named));
    }
    let paths = refs_of(alloc, &token.1.def)?;
    let tokens = flat.as_slice();
    places_of(alloc, tokens, &paths)
}

/// Remembers what the token of a place comes to, after those that it names and those that these name, so far from it.
pub(crate) fn prepare<'s>(
    alloc: Global,
    flat: &Flat<'s>,
    memory: &mut Memory<'s>,
    aliases: &mut Aliases,
    i: usize,
    left: usize,
) -> Result<(), NoMemory>
    requires known { Remembers flat.now memory.old.known.items }
    requires aliases { AreAliases flat.now aliases.old.targets.items }
    ensures known { Remembers flat.now memory.new.known.items }
    ensures aliases { AreAliases flat.now aliases.new.targets.items }
{
    let tokens = flat.as_slice();
    let Some(token) = tokens.get(i) else {
        return Ok(());
    };
    if left == 0 || memory.is_seen(i) {
        return Ok(());
    }
    let Some(named) = look(alloc, flat, memory, aliases, i, token)? else {
        return Ok(());
    };
    let places = named.as_slice();
    for place in places {
        prepare(alloc, flat, memory, aliases, *place, left - 1)?;
    }
    remember(alloc, flat, memory, aliases, i, token, places)
}
