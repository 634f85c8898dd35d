//! What tokens come to.

ghost use Rattle.std.specs.Prelude.{◌≡◌, ◌+◌, [], length, true, Some, None, List, IfOk, OnOk, IfErr, IfSome};
ghost use Rattle.std.specs.FinMap as map;
ghost use Rattle.group_inherit.specs.Flattening.{Flattened};
ghost use Rattle.alias_ref.specs.Answer.{IsResolved, IsRefBreak, HasRealRing};
ghost use Rattle.alias_ref.specs.Laws.{Flat as FlatTree};
ghost use Rattle.alias_ref.specs.Written.{Step, whole, written_in};
ghost use Rattle.alias_ref.specs.Visits.{walk_break, walked};
ghost use Rattle.alias_ref.specs.inner.Remembering.{IsSame, Serves};
ghost use Rattle.alias_ref.specs.inner.Seen.{IsFault};
ghost use Rattle.alias_ref.specs.inner.Walks.{IsMeantAt, IsKindAt, HasLinks};

use crate::fault::{RefFault, RefRule};
use crate::literal::literal;
use crate::memory::Memory;
use crate::spot::token_spot;
use crate::trace::{Trace, broken};
use crate::walking::{Found, kind_here, walk};
use group_inherit::{Entry, Flat};
use json_span::Plain;
use name_path::{Kind, Link, Links, Path, Place, Trail};
use std::alloc::Global;
use std::fmt;
use std::rc::Rc;
use std::sync::ledger::Ledger;
use tk_io::{NoMemory, Steps};

/// A token whose references are resolved.
#[derive(Drop)]
pub struct Resolved<'s> {
    /// Its own `$type`; else the kind of the token that its whole value refers to; else the `$type` of the nearest group.
    pub kind: Kind,
    /// Its value without references, which a token shares with those that are aliases of it.
    pub plain: Rc<Plain<'s>>,
    /// The references without steps that are written in its value, in written order.
    pub links: Links<'s>,
}

impl<'s> fmt::Debug for Resolved<'s> {
    fn fmt<W: fmt::Write>(&self, f: &mut fmt::Formatter<W>) -> fmt::Result {
        f.write_str("Resolved")
    }
}

// The same link.
fn copy_link<'s>(link: &Link<'s>) -> Result<Link<'s>, NoMemory>
    ensures { IfOk result (λ copy. copy ≡ link.now) }
{
    Ok(Link {
        trail: link.trail.copy()?,
        target: link.target.copy()?,
        kind: link.kind,
    })
}

// The same links.
fn copy_links<'s>(alloc: Global, links: &Links<'s>) -> Result<Links<'s>, NoMemory>
    ensures { IfOk result (λ copy. copy ≡ links.now) }
{
    let mut copy = Links::new(alloc);
    let items = links.as_slice();
    for link in items {
        let same = copy_link(link)?;
        copy.push(same)?;
    }
    Ok(copy)
}

impl<'s> Resolved<'s> {
    /// The same, of which the value is not copied.
    pub(crate) fn share(&self, alloc: Global) -> Result<Resolved<'s>, NoMemory>
        ensures { IfOk result (IsSame self.now) }
    {
        Ok(Resolved {
            kind: self.kind,
            plain: self.plain.clone()?,
            links: copy_links(alloc, &self.links)?,
        })
    }
}

/// What the token of a path comes to (Format Module 2025.10, aliases, references and types). The flat tree holds the path.
/// One step of `evals`, whatever it answers.
///
/// # Errors
/// The first rule that the walk of the token's references breaks, in the order of the walk: [`RefRule::RefSyntax`],
/// [`RefRule::RefTarget`], [`RefRule::Cycle`], [`RefRule::Deep`], [`RefRule::Big`]; else [`RefRule::NoType`] at the whole value
/// where nothing gives the token a kind. [`RefFault::NoMemory`].
pub fn evaluate<'s, N: Ledger>(
    alloc: Global,
    flat: &Flat<'s>,
    path: &Path<'s>,
    evals: &mut Steps<N>,
) -> Result<Resolved<'s>, RefFault<'s>>
    requires token { (f : Flattened) × (map.get flat.now path.now ≡ Some f) }
    ensures step { evals.new ≡ evals.old + 1 }
    ensures resolved { IfOk result (λ r. IsResolved flat.now path.now r) }
    ensures broken { IfErr result (λ e. IsRefBreak flat.now path.now e) }
    ensures ring { IfErr result (λ e. HasRealRing (written_in flat.now) e) }
{
    let Some(entry) = flat.get(path) else {
        unreachable!()
    };
    evaluate_entry(alloc, flat, path, entry, evals)
}

/// What a token comes to that is at hand: the flat tree holds it under the path. Else as [`evaluate`].
///
/// # Errors
/// Those of [`evaluate`].
pub fn evaluate_entry<'s, N: Ledger>(
    alloc: Global,
    flat: &Flat<'s>,
    path: &Path<'s>,
    entry: &Entry<'s>,
    evals: &mut Steps<N>,
) -> Result<Resolved<'s>, RefFault<'s>>
    requires token { map.get flat.now path.now ≡ Some entry.now }
    ensures step { evals.new ≡ evals.old + 1 }
    ensures resolved { IfOk result (λ r. IsResolved flat.now path.now r) }
    ensures broken { IfErr result (λ e. IsRefBreak flat.now path.now e) }
    ensures ring { IfErr result (λ e. HasRealRing (written_in flat.now) e) }
{
    evals.tick();
    let memory = Memory::none(alloc);
    let mut visits = 0;
    resolve(alloc, flat, &memory, path, entry, &mut visits)
}

/// What a token comes to whose value is a literal, and how many visits its walk makes; none where the value is no literal, or
/// where nothing gives the token a kind.
pub(crate) fn resolve_literal<'s>(
    alloc: Global,
    entry: &Entry<'s>,
    visits: &mut u32,
) -> Result<Option<Resolved<'s>>, NoMemory>
    ensures resolved { (flat : FlatTree) (token : List Step) → map.get flat token ≡ Some entry.now
        → IfOk result (λ o. IfSome o (IsResolved flat token)) }
    ensures counted { (flat : FlatTree) (token : List Step) → map.get flat token ≡ Some entry.now
        → IfOk result (λ o. IfSome o (λ _.
        length (walked (written_in flat) [] (whole token)) ≡ visits.new)) }
{
    let mut values = 0;
    let Some(plain) = literal(alloc, &entry.def, &mut values)? else {
        return Ok(None);
    };
    let Some(kind) = kind_here(entry, None) else {
        return Ok(None);
    };
    *visits = values;
    let value = Rc::new(alloc, plain)?;
    let links = Links::new(alloc);
    Ok(Some(Resolved {
        kind,
        plain: value,
        links,
    }))
}

/// What a token comes to, by what is remembered of others, and how many visits its walk makes where it breaks no rule.
pub(crate) fn resolve<'s>(
    alloc: Global,
    flat: &Flat<'s>,
    memory: &Memory<'s>,
    path: &Path<'s>,
    entry: &Entry<'s>,
    visits: &mut u32,
) -> Result<Resolved<'s>, RefFault<'s>>
    requires token { map.get flat.now path.now ≡ Some entry.now }
    requires home { Serves flat.now memory.now.known.items [] path.now }
    ensures resolved { IfOk result (λ r. IsResolved flat.now path.now r) }
    ensures broken { IfErr result (λ e. IsRefBreak flat.now path.now e) }
    ensures ring { IfErr result (λ e. HasRealRing (written_in flat.now) e) }
    ensures counted { OnOk result
        (length (walked (written_in flat.now) [] (whole path.now)) ≡ visits.new) }
{
    if let Some(resolved) = resolve_literal(alloc, entry, visits)? {
        return Ok(resolved);
    }
    let mut links = Links::new(alloc);
    let found = find(alloc, flat, memory, path, entry, visits, &mut links)?;
    let Some(kind) = found.kind else {
        let token = path.copy()?;
        let place = Place {
            token,
            trail: Trail::new(alloc),
        };
        return Err(broken(alloc, RefRule::NoType, &place));
    };
    Ok(Resolved {
        kind,
        plain: Rc::new(alloc, found.plain)?,
        links,
    })
}

/// Walks the whole value of a token.
fn find<'s>(
    alloc: Global,
    flat: &Flat<'s>,
    memory: &Memory<'s>,
    path: &Path<'s>,
    entry: &Entry<'s>,
    visits: &mut u32,
    links: &mut Links<'s>,
) -> Result<Found<'s>, RefFault<'s>>
    requires token { map.get flat.now path.now ≡ Some entry.now }
    requires home { Serves flat.now memory.now.known.items [] path.now }
    ensures unbroken { OnOk result (walk_break (written_in flat.now) path.now ≡ None) }
    ensures broken { IfErr result (λ e. IsFault e (walk_break (written_in flat.now) path.now)) }
    ensures means { IfOk result (λ f. IsMeantAt flat.now (whole path.now) f.plain) }
    ensures kind { IfOk result (λ f. IsKindAt flat.now (whole path.now) f.kind) }
    ensures links { OnOk result (HasLinks true flat.now (whole path.now) links.old links.new) }
    ensures counted { OnOk result
        (length (walked (written_in flat.now) [] (whole path.now)) ≡ visits.new) }
{
    let spot = token_spot(alloc, path, entry)?;
    let mut trace = Trace::new(alloc);
    let found = walk(alloc, flat, memory, spot, true, &mut trace, links);
    *visits = trace.count();
    found
}
