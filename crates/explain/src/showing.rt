//! How a place gets its value.

ghost use Rattle.std.specs.Prelude.{◌≡◌, [], ℕ, List, true, IfOk, OnOk};
ghost use Rattle.ring.specs.Lists.{In};
ghost use Rattle.name_path.specs.declared.place.Place.{Place as PlaceData};
ghost use Rattle.alias_ref.specs.Written.{is_written, part, written_in};
ghost use Rattle.certificates.specs.Certificate.{IsCertificate, cert_text, is_permutation_name};
ghost use Rattle.explain.specs.Following.{Reaches, starts_of};
ghost use Rattle.explain.specs.Laws.{HasLines};
ghost use Rattle.explain.specs.Validity.{IsSpotIn, Valid};
ghost use Rattle.explain.specs.Needs.{AreHopsOf, AreUnbroken};
ghost use Rattle.explain.specs.inner.Ways.{Knows};
ghost use Rattle.explain.specs.inner.Showing.{ComesToEnd, MayExplain, IsExplained};
ghost use Rattle.explain.specs.inner.Showing.{MayExplainWay, IsWayExplained, IsAdded, IsWholeOf};

use crate::places::whole_of;
use crate::saying::{Said, say};
use crate::ways::Ways;
use alias_ref::{one_meaning, span_of, unbroken_tokens};
use certificates::{Cert, Hop, Hops, Spot};
use group_inherit::Flat;
use name_path::Place;
use std::alloc::Global;
use tk_io::{NoMemory, Text};

/// How many places may stand on a branch of the walk of a token that breaks no rule.
const MOST_ON_BRANCH: usize = 256;

/// The hops so far, and what is known of them.
#[derive(Drop)]
pub(crate) struct Shown<'s> {
    pub(crate) hops: Hops<'s>,
    pub(crate) ways: Ways<'s>,
}

impl<'s> Shown<'s> {
    /// No hops.
    fn new(alloc: Global) -> Shown<'s>
        ensures hops { result.hops ≡ [] }
        ensures knows { Knows result.hops result.ways }
    {
        Shown {
            hops: Hops::new(alloc),
            ways: Ways::new(alloc),
        }
    }

    /// The place to which the hops lead from this one.
    fn end_of(&mut self, place: &Place<'s>) -> Result<Place<'s>, NoMemory>
        requires { ComesToEnd self.old place.now }
        ensures hops { self.new.hops ≡ self.old.hops }
        ensures knows { OnOk result (Knows self.new.hops self.new.ways) }
        ensures end { IfOk result (λ q. Reaches self.old.hops place.now q) }
    {
        match self.ways.reach(place) {
            Ok(Some(end)) => Ok(end),
            Ok(None) => unreachable!(),
            Err(stop) => Err(stop),
        }
    }

    /// The place one step behind the one to which the hops lead from this one.
    fn step_behind(&mut self, place: &Place<'s>, step: &Text<'s>) -> Result<Place<'s>, NoMemory>
        requires { ComesToEnd self.old place.now }
        ensures hops { self.new.hops ≡ self.old.hops }
        ensures knows { OnOk result (Knows self.new.hops self.new.ways) }
        ensures place { IfOk result (λ p. (q : PlaceData)
            × Reaches self.old.hops place.now q × (p ≡ part q step.now)) }
    {
        match self.end_of(place) {
            Ok(mut next) => {
                next.trail.push(step.copy()?)?;
                Ok(next)
            }
            Err(stop) => Err(stop),
        }
    }
}

/// The place with its file and span.
fn spot<'s>(flat: &Flat<'s>, place: &Place<'s>) -> Result<Spot<'s>, NoMemory>
    requires written { is_written (written_in flat.now place.now) ≡ true }
    ensures place { IfOk result (λ s. s.place ≡ place.now) }
    ensures spot { IfOk result (λ s. IsSpotIn flat.now s) }
{
    let Some(entry) = flat.get(&place.token) else {
        unreachable!()
    };
    let (start, end) = span_of(flat, place);
    Ok(Spot {
        place: place.copy()?,
        file: Text::of(entry.def.file),
        start,
        end,
    })
}

/// Adds a hop.
fn add<'s>(
    flat: &Flat<'s>,
    place: &Place<'s>,
    target: &Place<'s>,
    shown: &mut Shown<'s>,
) -> Result<(), NoMemory>
    requires written { is_written (written_in flat.now place.now) ≡ true }
    ensures { Knows shown.old.hops shown.old.ways
        → (In place.now (starts_of shown.old.hops) → ⊥)
        → OnOk result (IsAdded flat.now place.now target.now shown.old shown.new) }
{
    let spot = spot(flat, place)?;
    let target = target.copy()?;
    let hop = Hop { spot, target };
    shown.ways.add(&hop)?;
    shown.hops.push(hop)?;
    Ok(())
}

/// Adds what explains a place: of a reference what explains each place before a step, its own hop, and what explains the place
/// to which it leads.
#[cycle(showing)]
fn explain<'s>(
    alloc: Global,
    flat: &Flat<'s>,
    place: &Place<'s>,
    left: usize,
    shown: &mut Shown<'s>,
) -> Result<(), NoMemory>
    requires { (b : List PlaceData) × MayExplain flat.now left b place.now shown.old }
    ensures { (b : List PlaceData) → MayExplain flat.now left b place.now shown.old
        → OnOk result (IsExplained flat.now b place.now shown.old shown.new) }
{
    unbroken_tokens();
    if shown.ways.has(place) {
        return Ok(());
    }
    let Said::Refers(named) = say(alloc, flat, place)? else {
        return Ok(());
    };
    match explain_way(alloc, flat, &named, left - 1, shown) {
        Ok(target) => {
            add(flat, place, &target, shown)?;
            explain(alloc, flat, &target, left - 1, shown)
        }
        Err(stop) => Err(stop),
    }
}

/// Adds what explains the places before the steps of a reference, and says where it leads.
#[cycle(showing)]
fn explain_way<'s>(
    alloc: Global,
    flat: &Flat<'s>,
    named: &Place<'s>,
    left: usize,
    shown: &mut Shown<'s>,
) -> Result<Place<'s>, NoMemory>
    requires { (b : List PlaceData) × (p : PlaceData)
        × MayExplainWay flat.now left b p named.now shown.old }
    ensures { (b : List PlaceData) (p : PlaceData)
        → MayExplainWay flat.now left b p named.now shown.old → IfOk result (λ q.
        IsWayExplained flat.now b p named.now q shown.old shown.new) }
{
    one_meaning();
    unbroken_tokens();
    let mut place = whole_of(alloc, named)?;
    let steps = named.trail.as_slice();
    for step in steps {
        explain(alloc, flat, &place, left, shown)?;
        place = shown.step_behind(&place, step)?;
    }
    Ok(place)
}

/// The place to which the hops lead from this one, with its file and span.
fn end_spot<'s>(
    flat: &Flat<'s>,
    place: &Place<'s>,
    shown: &mut Shown<'s>,
) -> Result<Spot<'s>, NoMemory>
    requires end { ComesToEnd shown.old place.now }
    requires written { (q : PlaceData) → Reaches shown.old.hops place.now q
        → is_written (written_in flat.now q) ≡ true }
    ensures hops { shown.new.hops ≡ shown.old.hops }
    ensures end { IfOk result (λ s. Reaches shown.old.hops place.now s.place) }
    ensures spot { IfOk result (λ s. IsSpotIn flat.now s) }
{
    match shown.end_of(place) {
        Ok(end) => spot(flat, &end),
        Err(stop) => Err(stop),
    }
}

/// The certificate of the place, which these hops explain.
fn cert_of<'s>(
    flat: &Flat<'s>,
    place: &Place<'s>,
    mut shown: Shown<'s>,
) -> Result<Cert<'s>, NoMemory>
    requires written { is_written (written_in flat.now place.now) ≡ true }
    requires explained { IsWholeOf flat.now place.now shown }
    ensures from { IfOk result (λ c. c.from ≡ place.now) }
    ensures valid { IfOk result (λ c. Valid flat.now c) }
    ensures hops { IfOk result (λ c. AreHopsOf (written_in flat.now) place.now c.hops) }
{
    let last = end_spot(flat, place, &mut shown)?;
    let from = place.copy()?;
    Ok(Cert {
        from,
        hops: shown.hops,
        last,
    })
}

/// The certificate of a place that is written in a tree of which no token breaks a rule of references. Its hops are what
/// explains the place: of a reference what explains each place before a step, in order, then its own hop, and then what
/// explains the place to which it leads; none twice.
pub fn show<'s>(alloc: Global, flat: &Flat<'s>, place: &Place<'s>) -> Result<Cert<'s>, NoMemory>
    requires written { is_written (written_in flat.now place.now) ≡ true }
    requires unbroken { AreUnbroken flat.now }
    ensures from { IfOk result (λ c. c.from ≡ place.now) }
    ensures valid { IfOk result (λ c. Valid flat.now c) }
    ensures hops { IfOk result (λ c. AreHopsOf (written_in flat.now) place.now c.hops) }
    // Where its tokens have a place in lines, it is spelled by its lines, which are read as itself and nothing else.
    ensures spelled { HasLines flat.now → IfOk result (λ c. (perm : List ℕ)
        → is_permutation_name perm ≡ true → IsCertificate (cert_text perm c) perm c) }
{
    unbroken_tokens();
    let mut shown = Shown::new(alloc);
    match explain(alloc, flat, place, MOST_ON_BRANCH, &mut shown) {
        Ok(()) => cert_of(flat, place, shown),
        Err(stop) => Err(stop),
    }
}
