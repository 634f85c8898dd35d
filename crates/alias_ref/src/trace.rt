//! The trace of a walk: the places that are being visited, and how many visits there were.

ghost use Rattle.std.specs.Prelude.{◌≡◌, ◌≤◌, ◌+◌, ◌∷◌, ◌++◌, [], ℕ, List, length, drop};
ghost use Rattle.std.specs.Prelude.{◌<◌, map, Some, IfOk, OnOk, IfSome, IfNone, IsTrue, false};
ghost use Rattle.name_path.specs.declared.place.Place.{Place};
ghost use Rattle.alias_ref.specs.Written.{WrittenPlaces, leaf, part, is_misspelled};
ghost use Rattle.json_span.specs.PlainView.{Value, plain_view};
ghost use Rattle.alias_ref.specs.Visits.{visit, since, ref_break, most_visits};
ghost use Rattle.alias_ref.specs.inner.Contents.{content_view};
ghost use Rattle.alias_ref.specs.inner.Seen.{IsFault, HasBegun};
ghost use Rattle.alias_ref.specs.inner.Spots.{start_in, HasStarts, IsSameBranch, IsClear};
ghost use Rattle.alias_ref.specs.Laws.{Flat};
ghost use Rattle.alias_ref.specs.inner.Remembering.{CountsVisits};
ghost use Rattle.alias_ref.specs.inner.Literals.{has_token, IsApart, IsLiteralVisit};

use crate::fault::{RefFault, RefRule};
use crate::literal::literal;
use crate::spot::{Spot, part_place};
use json_span::Plain;
use name_path::{Path, Place, Ring};
use smallvec::SmallVec;
use std::alloc::Global;
use tk_io::{NoMemory, Text};
use token_tree::TokenDef;

/// How many places may stand on a branch before a visit.
pub(crate) const MOST_ON_BRANCH: usize = 256;

/// How many visits may come before a visit.
const MOST_VISITS: u32 = 1024;

/// The branch of a walk, and how many visits there were. Beside each place stands the offset where its value starts: where
/// these differ, the places do, and no path has to be compared. Most branches are short, so that no memory is asked for the
/// offsets.
#[derive(Drop)]
pub(crate) struct Trace<'s> {
    places: Vec<Place<'s>>,
    starts: SmallVec<usize, 4>,
    visits: u32,
}

/// A break of the rule at the place.
pub(crate) fn broken<'s>(alloc: Global, rule: RefRule, place: &Place<'s>) -> RefFault<'s>
    ensures { IsFault result (Some (ref_break rule place.now)) }
{
    match place.copy() {
        Ok(place) => RefFault::Broken {
            rule,
            place,
            ring: Ring::new(alloc),
        },
        Err(_) => RefFault::NoMemory,
    }
}

/// The places from an index on.
fn rest_of<'s>(alloc: Global, places: &[Place<'s>], from: usize) -> Result<Ring<'s>, NoMemory>
    requires { from ≤ length places.now }
    ensures { IfOk result (λ ring. ring ≡ drop from places.now) }
{
    let mut ring = Ring::new(alloc);
    for place in &places[from..] {
        ring.push(place.copy()?)?;
    }
    Ok(ring)
}

/// The part of a branch from the place on; none where the place does not stand on it.
pub(crate) fn ring_from<'s>(
    alloc: Global,
    places: &[Place<'s>],
    place: &Place<'s>,
) -> Result<Option<Ring<'s>>, NoMemory>
    ensures { IfOk result (λ ring. ring ≡ since place.now places.now) }
{
    for (i, other) in places.iter().enumerate() {
        if *other == *place {
            return Ok(Some(rest_of(alloc, places, i)?));
        }
    }
    Ok(None)
}

/// Whether one of the places is of the token.
fn has_token<'s>(places: &[Place<'s>], token: &Path<'s>) -> bool
    ensures { result ≡ has_token token.now places.now }
{
    for place in places {
        if place.token == *token {
            return true;
        }
    }
    false
}

impl<'s> Trace<'s> {
    /// No visit.
    pub(crate) fn new(alloc: Global) -> Trace<'s>
        ensures places { result.places.items ≡ [] }
        ensures starts { result.starts.items ≡ [] }
        ensures visits { result.visits ≡ 0 }
    {
        Trace {
            places: Vec::new(alloc),
            starts: SmallVec::new(alloc),
            visits: 0,
        }
    }

    /// The ring that a visit of the place would close, if it stands on the branch.
    fn ring(
        &self,
        alloc: Global,
        place: &Place<'s>,
        start: usize,
    ) -> Result<Option<Ring<'s>>, NoMemory>
        ensures { (f : Place → ℕ) → self.now.starts.items ≡ map f self.now.places.items
            → start ≡ f place.now
            → IfOk result (λ ring. ring ≡ since place.now self.now.places.items) }
    {
        if !self.starts.as_slice().contains(&start) {
            return Ok(None);
        }
        ring_from(alloc, self.places.as_slice(), place)
    }

    /// The first rule that a visit of the place breaks, if any.
    fn check(
        &self,
        alloc: Global,
        place: &Place<'s>,
        start: usize,
        misspelled: bool,
    ) -> Result<(), RefFault<'s>>
        ensures broken { (flat : Flat) (T : WrittenPlaces) → HasStarts flat self.now
            → start ≡ start_in flat place.now → misspelled ≡ is_misspelled (T place.now)
            → HasBegun T self.now.visits (visit self.now.places.items place.now) result }
        ensures few { OnOk result (self.now.visits < most_visits) }
    {
        if let Some(ring) = self.ring(alloc, place, start)? {
            let place = place.copy()?;
            return Err(RefFault::Broken {
                rule: RefRule::Cycle,
                place,
                ring,
            });
        }
        if self.places.len() >= MOST_ON_BRANCH {
            return Err(broken(alloc, RefRule::Deep, place));
        }
        if self.visits >= MOST_VISITS {
            return Err(broken(alloc, RefRule::Big, place));
        }
        if misspelled {
            return Err(broken(alloc, RefRule::RefSyntax, place));
        }
        Ok(())
    }

    /// Begins a visit, unless it breaks a rule.
    pub(crate) fn enter(&mut self, alloc: Global, spot: &Spot<'_, 's>) -> Result<(), RefFault<'s>>
        ensures broken { (flat : Flat) (T : WrittenPlaces) → HasStarts flat self.old
            → spot.now.start ≡ start_in flat spot.now.place
            → T spot.now.place ≡ Some (content_view spot.now.content)
            → HasBegun T self.old.visits (visit self.old.places.items spot.now.place) result }
        ensures places { OnOk result
            (self.new.places.items ≡ self.old.places.items ++ spot.now.place ∷ []) }
        ensures starts { OnOk result
            (self.new.starts.items ≡ self.old.starts.items ++ spot.now.start ∷ []) }
        ensures counted { OnOk result (self.new.visits ≡ self.old.visits + 1) }
    {
        let misspelled = spot.content.is_misspelled();
        self.check(alloc, &spot.place, spot.start, misspelled)?;
        self.places.push(spot.place.copy()?)?;
        self.starts.push(spot.start)?;
        self.visits += 1;
        Ok(())
    }

    /// Whether a visit of a value that starts here breaks no rule, if it is spelled well.
    fn is_clear(&self, start: usize) -> bool
        ensures { IsTrue result → IsClear self.now start }
    {
        self.places.len() < MOST_ON_BRANCH
            && self.visits < MOST_VISITS
            && !self.starts.as_slice().contains(&start)
    }

    /// The first rule that a visit of the part after a step breaks, if any, where a leaf is written there.
    fn check_leaf(
        &self,
        alloc: Global,
        place: &Place<'s>,
        step: &Text<'s>,
        start: usize,
    ) -> Result<(), RefFault<'s>>
        ensures broken { (flat : Flat) (T : WrittenPlaces) (v : Value) → HasStarts flat self.now
            → start ≡ start_in flat (part place.now step.now)
            → T (part place.now step.now) ≡ Some (leaf v)
            → HasBegun T self.now.visits
            (visit self.now.places.items (part place.now step.now)) result }
        ensures few { OnOk result (self.now.visits < most_visits) }
    {
        if self.is_clear(start) {
            return Ok(());
        }
        let place = part_place(place, step)?;
        self.check(alloc, &place, start, false)
    }

    /// Counts the visit of the part after a step, unless it breaks a rule, where a leaf is written there. It asks for no other
    /// visit, so it does not go onto the branch.
    pub(crate) fn visit_leaf(
        &mut self,
        alloc: Global,
        place: &Place<'s>,
        step: &Text<'s>,
        start: usize,
    ) -> Result<(), RefFault<'s>>
        ensures broken { (flat : Flat) (T : WrittenPlaces) (v : Value) → HasStarts flat self.old
            → start ≡ start_in flat (part place.now step.now)
            → T (part place.now step.now) ≡ Some (leaf v)
            → HasBegun T self.old.visits
            (visit self.old.places.items (part place.now step.now)) result }
        ensures branch { IsSameBranch self.old self.new }
        ensures counted { OnOk result (self.new.visits ≡ self.old.visits + 1) }
    {
        self.check_leaf(alloc, place, step, start)?;
        self.visits += 1;
        Ok(())
    }

    /// Visits the whole value of a token that is a literal; none where it is not one, or where a visit might break a rule.
    pub(crate) fn visit_literal(
        &mut self,
        alloc: Global,
        place: &Place<'s>,
        def: &TokenDef<'s>,
    ) -> Result<Option<Plain<'s>>, NoMemory>
        ensures some { IfOk result (λ o. IfSome o (λ v.
            IsLiteralVisit self.old self.new place.now def.now (plain_view v))) }
        ensures none { IfOk result (λ o. IfNone o (self.new.visits ≡ self.old.visits)) }
        ensures branch { IsSameBranch self.old self.new }
    {
        if !place.trail.is_empty() {
            return Ok(None);
        }
        let mut visits = self.visits;
        let Some(plain) = literal(alloc, def, &mut visits)? else {
            return Ok(None);
        };
        if !self.is_apart(place) {
            return Ok(None);
        }
        self.visits = visits;
        Ok(Some(plain))
    }

    /// Counts so many visits of a walk that is remembered; false where there may be no room for them.
    pub(crate) fn visit_known(&mut self, visits: u32) -> bool
        ensures counted { IsTrue result → CountsVisits self.old self.new visits }
        ensures none { result ≡ false → self.new ≡ self.old }
        ensures branch { IsSameBranch self.old self.new }
    {
        if self.visits > MOST_VISITS || visits > MOST_VISITS - self.visits {
            return false;
        }
        let places = self.places.len();
        if places > MOST_ON_BRANCH || visits as usize > MOST_ON_BRANCH - places {
            return false;
        }
        self.visits += visits;
        true
    }

    /// How many visits there were.
    pub(crate) fn count(&self) -> u32
        ensures { result ≡ self.now.visits }
    {
        self.visits
    }

    /// Whether the place is the whole value of a token of which no place stands on the branch, whose places were all visited.
    fn is_apart(&self, place: &Place<'s>) -> bool
        ensures { IsTrue result → IsApart self.now place.now }
    {
        place.trail.is_empty()
            && self.places.len() <= self.visits as usize
            && !has_token(self.places.as_slice(), &place.token)
    }

    /// Ends the last visit that began.
    pub(crate) fn leave(&mut self)
        ensures places { (ps : List Place) (p : Place)
            → self.old.places.items ≡ ps ++ p ∷ [] → self.new.places.items ≡ ps }
        ensures starts { (xs : List ℕ) (x : ℕ)
            → self.old.starts.items ≡ xs ++ x ∷ [] → self.new.starts.items ≡ xs }
        ensures visits { self.new.visits ≡ self.old.visits }
    {
        let _ = self.places.pop();
        let _ = self.starts.pop();
    }
}
