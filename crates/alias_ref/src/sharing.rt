//! Aliases of tokens that are remembered: nothing is walked, and no text is read again.

ghost use Rattle.std.specs.Prelude.{◌≡◌, ◌∷◌, [], length, Some, None, IfOk, IfSome};
ghost use Rattle.std.specs.FinMap as map;
ghost use Rattle.std.specs.List.{slice_get};
ghost use Rattle.alias_ref.specs.Answer.{IsResolved};
ghost use Rattle.alias_ref.specs.Visits.{walked};
ghost use Rattle.alias_ref.specs.Written.{whole, written_in};
ghost use Rattle.alias_ref.specs.inner.Remembering.{known_at, Remembers};
ghost use Rattle.alias_ref.specs.inner.Chains.{AreAliases, IsShared};

use crate::aliases::Aliases;
use crate::memory::{Known, Memory};
use crate::resolved::Resolved;
use crate::trace::MOST_ON_BRANCH;
use group_inherit::{Entry, Flat};
use name_path::{Kind, Link, Links, Path, Trail};
use std::alloc::Global;
use tk_io::NoMemory;

/// The link of an alias to the token of a path, which has this kind.
fn link_to<'s>(alloc: Global, path: &Path<'s>, kind: Kind) -> Result<Links<'s>, NoMemory>
    ensures { IfOk result (λ ls.
        ls ≡ record { trail = []; target = path.now; kind = Some kind } ∷ []) }
{
    let mut links = Links::new(alloc);
    links.push(Link {
        trail: Trail::new(alloc),
        target: path.copy()?,
        kind: Some(kind),
    })?;
    Ok(links)
}

/// What an alias of the token of a path comes to, which came to this.
fn same_value<'s>(
    alloc: Global,
    entry: &Entry<'s>,
    path: &Path<'s>,
    other: &Resolved<'s>,
) -> Result<Resolved<'s>, NoMemory>
    ensures { IfOk result (IsShared path.now entry.now other.now) }
{
    let kind = entry.def.kind.unwrap_or(other.kind);
    let plain = other.plain.clone()?;
    let links = link_to(alloc, path, other.kind)?;
    Ok(Resolved { kind, plain, links })
}

/// What the token of a place comes to, where it is an alias of one that is remembered; none where it is not, or where its walk
/// may be too long.
pub(crate) fn shared<'s>(
    alloc: Global,
    flat: &Flat<'s>,
    memory: &Memory<'s>,
    aliases: &Aliases,
    i: usize,
    token: &(Path<'s>, Entry<'s>),
) -> Result<Option<Known<'s>>, NoMemory>
    requires token { slice_get (map.entries flat.now) i ≡ Some token.now }
    requires right { Remembers flat.now memory.now.known.items }
    requires new { known_at memory.now.known.items i ≡ None }
    requires aliases { AreAliases flat.now aliases.now.targets.items }
    ensures resolved { IfOk result (λ o. IfSome o (λ k.
        IsResolved flat.now token.now.0 k.resolved)) }
    ensures counted { IfOk result (λ o. IfSome o (λ k.
        length (walked (written_in flat.now) [] (whole token.now.0)) ≡ k.visits)) }
{
    let Some(j) = aliases.target(i) else {
        return Ok(None);
    };
    let tokens = flat.as_slice();
    let Some(other) = tokens.get(j) else {
        return Ok(None);
    };
    let Some(known) = memory.at(j) else {
        return Ok(None);
    };
    if known.visits as usize >= MOST_ON_BRANCH {
        return Ok(None);
    }
    let resolved = same_value(alloc, &token.1, &other.0, &known.resolved)?;
    Ok(Some(Known {
        visits: known.visits + 1,
        resolved,
    }))
}
