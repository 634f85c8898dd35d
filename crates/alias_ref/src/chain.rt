//! Chains of aliases: tokens whose whole values refer to others without steps. They are followed from place to place, with
//! no path and no text looked at.

ghost use Rattle.std.specs.Prelude.{◌≡◌, ◌++◌, ◌∷◌, [], T, List, length, false, Some, IfOk};
ghost use Rattle.std.specs.Prelude.{IfErr, IfSome, IsTrue};
ghost use Rattle.std.specs.FinMap as map;
ghost use Rattle.std.specs.FinMap.Entries.{is_sorted};
ghost use Rattle.tk_io.specs.Order.{names_cmp};
ghost use Rattle.alias_ref.specs.Written.{Step, written_in};
ghost use Rattle.alias_ref.specs.Visits.{walk_break};
ghost use Rattle.alias_ref.specs.inner.Seen.{IsFault};
ghost use Rattle.alias_ref.specs.inner.Remembering.{PathStandsAt};
ghost use Rattle.alias_ref.specs.inner.Chains.{AreAliases, IsChain, HasToken, target_at};
ghost use Rattle.alias_ref.specs.inner.Chains.{whole_at, branch_of, IsBreakAt, IsNewBehind};
ghost use Rattle.alias_ref.specs.inner.Chains.{IsMarkedAt, HasStepped};

use crate::aliases::Aliases;
use crate::fault::{RefFault, RefRule};
use crate::trace::{MOST_ON_BRANCH, broken, ring_from};
use group_inherit::{Entry, Flat};
use name_path::{Path, Place, Trail};
use std::alloc::Global;
use tk_io::NoMemory;

/// The whole value of the token at a place.
fn whole_at<'s>(
    alloc: Global,
    tokens: &[(Path<'s>, Entry<'s>)],
    i: usize,
) -> Result<Place<'s>, NoMemory>
    ensures { IfOk result (λ p. p ≡ whole_at tokens.now i) }
{
    let token = match tokens.get(i) {
        Some(token) => token.0.copy()?,
        None => Path::new(alloc),
    };
    Ok(Place {
        token,
        trail: Trail::new(alloc),
    })
}

/// The whole values of the tokens of a chain.
fn branch_of<'s>(
    alloc: Global,
    tokens: &[(Path<'s>, Entry<'s>)],
    chain: &[usize],
) -> Result<Vec<Place<'s>>, NoMemory>
    ensures { IfOk result (λ branch. branch.items ≡ branch_of tokens.now chain.now) }
{
    let mut branch = Vec::with_capacity(alloc, chain.len())?;
    let mut at = 0;
    while let Some(i) = chain.get(at) {
        let place = whole_at(alloc, tokens, *i)?;
        branch.push(place)?;
        at += 1;
    }
    Ok(branch)
}

/// The ring that closes at the end of a chain; false where none does.
fn tell_ring<'s>(
    alloc: Global,
    tokens: &[(Path<'s>, Entry<'s>)],
    chain: &[usize],
    i: usize,
) -> Result<bool, RefFault<'s>>
    ensures told { IfErr result (IsBreakAt tokens.now chain.now i) }
    ensures none { IfOk result (λ b. b ≡ false) }
{
    let place = whole_at(alloc, tokens, i)?;
    let branch = branch_of(alloc, tokens, chain)?;
    match ring_from(alloc, branch.as_slice(), &place)? {
        Some(ring) => Err(RefFault::Broken {
            rule: RefRule::Cycle,
            place,
            ring,
        }),
        None => Ok(false),
    }
}

/// Whether a place may stand behind a chain; what it breaks, if it closes a ring or stands too deep.
fn check<'s>(
    alloc: Global,
    tokens: &[(Path<'s>, Entry<'s>)],
    aliases: &Aliases,
    chain: &[usize],
    i: usize,
) -> Result<bool, RefFault<'s>>
    requires ascending { T (is_sorted names_cmp tokens.now) }
    requires chain { IsChain tokens.now aliases.now.marks.items chain.now }
    requires token { HasToken tokens.now i }
    ensures told { IfErr result (IsBreakAt tokens.now chain.now i) }
    ensures new { IfOk result (λ b. IsTrue b
        → IsNewBehind tokens.now aliases.now.marks.items chain.now i) }
{
    if aliases.is_marked(chain, i) {
        return tell_ring(alloc, tokens, chain, i);
    }
    if chain.len() < MOST_ON_BRANCH {
        return Ok(true);
    }
    let place = whole_at(alloc, tokens, i)?;
    Err(broken(alloc, RefRule::Deep, &place))
}

/// Puts a place behind a chain, if it is an alias: where it leads.
fn advance(
    aliases: &mut Aliases,
    chain: &mut Vec<usize>,
    i: usize,
) -> Result<Option<usize>, NoMemory>
    ensures targets { aliases.new.targets ≡ aliases.old.targets }
    ensures leads { IfOk result (λ o. IfSome o (λ j.
        Some j ≡ target_at aliases.old.targets.items i)) }
    ensures marked { IfOk result (λ o. IfSome o (λ j.
        IsMarkedAt aliases.old.marks.items aliases.new.marks.items i (length chain.old.items))) }
    ensures chain { IfOk result (λ o. IfSome o (λ j.
        chain.new.items ≡ chain.old.items ++ i ∷ [])) }
{
    let Some(next) = aliases.target(i) else {
        return Ok(None);
    };
    if !aliases.mark(i, chain.len()) {
        return Ok(None);
    }
    chain.push(i)?;
    Ok(Some(next))
}

/// Goes on from the place behind a chain; none where it is no alias.
fn step<'s>(
    alloc: Global,
    flat: &Flat<'s>,
    aliases: &mut Aliases,
    chain: &mut Vec<usize>,
    i: usize,
) -> Result<Option<usize>, RefFault<'s>>
    requires aliases { AreAliases flat.now aliases.old.targets.items }
    requires chain { IsChain (map.entries flat.now) aliases.old.marks.items chain.old.items }
    requires token { HasToken (map.entries flat.now) i }
    ensures targets { aliases.new.targets ≡ aliases.old.targets }
    ensures told { IfErr result (IsBreakAt (map.entries flat.now) chain.old.items i) }
    ensures next { IfOk result (λ o. IfSome o (λ j.
        HasStepped flat.now aliases.new.marks.items chain.old.items chain.new.items i j)) }
{
    let tokens = flat.as_slice();
    let front = chain.as_slice();
    match check(alloc, tokens, aliases, front, i) {
        Ok(new) => {
            if !new {
                return Ok(None);
            }
            let next = advance(aliases, chain, i)?;
            Ok(next)
        }
        Err(fault) => Err(fault),
    }
}

/// Follows the aliases from the token of a place. A chain of them that closes a ring or is too long is told.
pub(crate) fn follow_aliases<'s>(
    alloc: Global,
    flat: &Flat<'s>,
    aliases: &mut Aliases,
    i: usize,
) -> Result<(), RefFault<'s>>
    requires token { HasToken (map.entries flat.now) i }
    requires aliases { AreAliases flat.now aliases.old.targets.items }
    ensures targets { aliases.new.targets ≡ aliases.old.targets }
    ensures told { IfErr result (λ f. (token : List Step)
        → PathStandsAt (map.entries flat.now) token i
        → IsFault f (walk_break (written_in flat.now) token)) }
{
    let mut chain = Vec::new(alloc);
    let mut at = i;
    while let Some(next) = step(alloc, flat, aliases, &mut chain, at)? {
        at = next;
    }
    Ok(())
}
