//! Whether a certificate holds of a flat tree.

ghost use Rattle.std.specs.Prelude.{◌≡◌, ◌++◌, ◌∷◌, [], List, IfOk, OnOk, IsTrue};
ghost use Rattle.std.specs.FinMap as map;
ghost use Rattle.name_path.specs.declared.place.Place.{Place as PlaceData};
ghost use Rattle.alias_ref.specs.Written.{is_written, part, whole, written_in};
ghost use Rattle.certificates.specs.declared.certificate.Hop.{Hop as HopData};
ghost use Rattle.explain.specs.Validity.{SettlesBy, GoesBy, LeadsBy, IsSpotIn, Valid};
ghost use Rattle.explain.specs.inner.Ways.{Knows};
ghost use Rattle.explain.specs.inner.Holding.{IsFound, StepsTo, GoesFrom, HopHolds, EachHolds};

use crate::places::{whole_of, written};
use crate::saying::{Said, say};
use crate::ways::Ways;
use alias_ref::span_of;
use certificates::{Cert, Hop, Spot};
use group_inherit::Flat;
use name_path::Place;
use std::alloc::Global;
use tk_io::{NoMemory, Text};

/// Where the place settles by the hops.
fn settle<'s>(
    alloc: Global,
    flat: &Flat<'s>,
    place: &Place<'s>,
    ways: &mut Ways<'s>,
) -> Result<Option<Place<'s>>, NoMemory>
    ensures knows { (hops : List HopData) → Knows hops ways.old
        → OnOk result (Knows hops ways.new) }
    ensures end { (hops : List HopData) → Knows hops ways.old → IfOk result (λ o.
        IsFound (λ q. SettlesBy (written_in flat.now) hops place.now q) o) }
{
    let Some(end) = ways.reach(place)? else {
        return Ok(None);
    };
    if say(alloc, flat, &end)?.is_reference() {
        return Ok(None);
    }
    Ok(Some(end))
}

/// The place one step behind that where this one settles, if it is written.
fn step_on<'s>(
    alloc: Global,
    flat: &Flat<'s>,
    place: &Place<'s>,
    step: &Text<'s>,
    ways: &mut Ways<'s>,
) -> Result<Option<Place<'s>>, NoMemory>
    ensures knows { (hops : List HopData) → Knows hops ways.old
        → OnOk result (Knows hops ways.new) }
    ensures place { (hops : List HopData) → Knows hops ways.old → IfOk result (λ o.
        IsFound (λ q. StepsTo (written_in flat.now) hops place.now step.now q) o) }
{
    let Some(mut next) = settle(alloc, flat, place, ways)? else {
        return Ok(None);
    };
    next.trail.push(step.copy()?)?;
    if !written(flat, &next) {
        return Ok(None);
    }
    Ok(Some(next))
}

/// Where the steps of a reference that names this place lead.
fn lead<'s>(
    alloc: Global,
    flat: &Flat<'s>,
    named: &Place<'s>,
    ways: &mut Ways<'s>,
) -> Result<Option<Place<'s>>, NoMemory>
    ensures knows { (hops : List HopData) → Knows hops ways.old
        → OnOk result (Knows hops ways.new) }
    ensures target { (hops : List HopData) → Knows hops ways.old → IfOk result (λ o.
        IsFound (λ q. GoesFrom (written_in flat.now) hops named.now q) o) }
{
    let mut place = whole_of(alloc, named)?;
    if !written(flat, &place) {
        return Ok(None);
    }
    let steps = named.trail.as_slice();
    for step in steps {
        let Some(next) = step_on(alloc, flat, &place, step, ways)? else {
            return Ok(None);
        };
        place = next;
    }
    Ok(Some(place))
}

/// Whether the hop's place is a reference that leads to the hop's target.
fn leads<'s>(
    alloc: Global,
    flat: &Flat<'s>,
    hop: &Hop<'s>,
    ways: &mut Ways<'s>,
) -> Result<bool, NoMemory>
    ensures knows { (hops : List HopData) → Knows hops ways.old
        → OnOk result (Knows hops ways.new) }
    ensures leads { (hops : List HopData) → Knows hops ways.old → IfOk result (λ b. IsTrue b
        → LeadsBy (written_in flat.now) hops hop.now.spot.place hop.now.target) }
    ensures exact { (hops : List HopData) → Knows hops ways.old → IfOk result (λ b.
        LeadsBy (written_in flat.now) hops hop.now.spot.place hop.now.target → IsTrue b) }
{
    let Said::Refers(named) = say(alloc, flat, &hop.spot.place)? else {
        return Ok(false);
    };
    let Some(target) = lead(alloc, flat, &named, ways)? else {
        return Ok(false);
    };
    Ok(target == hop.target)
}

/// Whether the place is written, and its file and span are those of the tree.
fn is_spot<'s>(flat: &Flat<'s>, spot: &Spot<'s>) -> bool
    ensures spot { IsTrue result → IsSpotIn flat.now spot.now }
    ensures exact { IsSpotIn flat.now spot.now → IsTrue result }
{
    let Some(entry) = flat.get(&spot.place.token) else {
        return false;
    };
    if !written(flat, &spot.place) {
        return false;
    }
    if entry.def.file != spot.file.as_str() {
        return false;
    }
    let (start, end) = span_of(flat, &spot.place);
    start == spot.start && end == spot.end
}

/// Whether the hop holds behind those that are known, to which it is added.
fn holds<'s>(
    alloc: Global,
    flat: &Flat<'s>,
    hop: &Hop<'s>,
    ways: &mut Ways<'s>,
) -> Result<bool, NoMemory>
    ensures holds { (hops : List HopData) → Knows hops ways.old → IfOk result (λ b. IsTrue b
        → HopHolds flat.now hops hop.now) }
    ensures knows { (hops : List HopData) → Knows hops ways.old → IfOk result (λ b. IsTrue b
        → Knows (hops ++ hop.now ∷ []) ways.new) }
    ensures exact { (hops : List HopData) → Knows hops ways.old → IfOk result (λ b.
        HopHolds flat.now hops hop.now → IsTrue b) }
{
    if !is_spot(flat, &hop.spot) {
        return Ok(false);
    }
    if !leads(alloc, flat, hop, ways)? {
        return Ok(false);
    }
    ways.add(hop)
}

/// Whether each hop holds behind those before it.
fn all_hold<'s>(
    alloc: Global,
    flat: &Flat<'s>,
    hops: &[Hop<'s>],
    ways: &mut Ways<'s>,
) -> Result<bool, NoMemory>
    requires new { Knows [] ways.old }
    ensures hold { IfOk result (λ b. IsTrue b → EachHolds flat.now [] hops.now) }
    ensures knows { IfOk result (λ b. IsTrue b → Knows hops.now ways.new) }
    ensures exact { IfOk result (λ b. EachHolds flat.now [] hops.now → IsTrue b) }
{
    for hop in hops {
        if !holds(alloc, flat, hop, ways)? {
            return Ok(false);
        }
    }
    Ok(true)
}

/// Whether a certificate holds of the tree. Nothing is searched for: each hop is looked at once, in their order, and how
/// places settle is remembered, so the time is that of the certificate's length and of the trails that it names.
pub fn verify<'s>(alloc: Global, flat: &Flat<'s>, cert: &Cert<'s>) -> Result<bool, NoMemory>
    ensures valid { IfOk result (λ b. IsTrue b → Valid flat.now cert.now) }
    ensures exact { IfOk result (λ b. Valid flat.now cert.now → IsTrue b) }
{
    let mut ways = Ways::new(alloc);
    if !all_hold(alloc, flat, cert.hops.as_slice(), &mut ways)? {
        return Ok(false);
    }
    if !written(flat, &cert.from) {
        return Ok(false);
    }
    if !is_spot(flat, &cert.last) {
        return Ok(false);
    }
    let Some(end) = settle(alloc, flat, &cert.from, &mut ways)? else {
        return Ok(false);
    };
    Ok(end == cert.last.place)
}
