//! Where places settle by the hops of a certificate.

ghost use Rattle.std.specs.Prelude.{◌≡◌, ◌++◌, ◌∷◌, [], false, List, IfOk, OnOk, IfSome, IfNone};
ghost use Rattle.std.specs.Prelude.{IsTrue, IsFalse};
ghost use Rattle.ring.specs.Lists.{In};
ghost use Rattle.name_path.specs.declared.place.Place.{Place as PlaceData};
ghost use Rattle.certificates.specs.declared.certificate.Hop.{Hop as HopData};
ghost use Rattle.explain.specs.Following.{Reaches, starts_of};
ghost use Rattle.explain.specs.inner.Ways.{Knows};

use certificates::Hop;
use name_path::Place;
use std::alloc::Global;
use std::collections::BTreeMap;
use tk_io::NoMemory;

/// Some hops, of which no two start at one place: for each place where one starts, a place that is reached from it by
/// following one or more of them. Where a place settles is remembered of all places on the way, so that no hop is followed
/// again and again.
#[derive(Drop)]
pub(crate) struct Ways<'s> {
    pub(crate) reached: BTreeMap<Place<'s>, Place<'s>>,
}

impl<'s> Ways<'s> {
    /// No hops.
    pub(crate) fn new(alloc: Global) -> Ways<'s>
        ensures { Knows [] result }
    {
        Ways {
            reached: BTreeMap::new(alloc),
        }
    }

    /// Adds a hop. The answer is whether none started there before.
    pub(crate) fn add(&mut self, hop: &Hop<'s>) -> Result<bool, NoMemory>
        ensures fresh { (hops : List HopData) → Knows hops self.old → IfOk result (λ b. IsTrue b
            → Knows (hops ++ hop.now ∷ []) self.new) }
        ensures again { (hops : List HopData) → Knows hops self.old → IfOk result (λ b. b ≡ false
            → In hop.now.spot.place (starts_of hops)) }
    {
        let place = hop.spot.place.copy()?;
        let target = hop.target.copy()?;
        let before = self.reached.insert(place, target)?;
        Ok(before.is_none())
    }

    /// Whether a hop starts at the place.
    pub(crate) fn has(&self, place: &Place<'s>) -> bool
        ensures starts { (hops : List HopData) → Knows hops self.now → IsTrue result
            → In place.now (starts_of hops) }
        ensures exact { (hops : List HopData) → Knows hops self.now
            → In place.now (starts_of hops) → IsTrue result }
    {
        self.reached.contains_key(place)
    }

    /// The place that is reached from this one, where no hop starts; none where hops lead in a ring.
    fn end_of(&self, place: &Place<'s>) -> Result<Option<Place<'s>>, NoMemory>
        ensures end { (hops : List HopData) → Knows hops self.now → IfOk result (λ o.
            IfSome o (λ q. Reaches hops place.now q)) }
        ensures ring { (hops : List HopData) → Knows hops self.now → IfOk result (λ o.
            IfNone o ((q : PlaceData) → Reaches hops place.now q → ⊥)) }
    {
        let mut at = place.copy()?;
        let most = self.reached.len() + 1;
        for _ in 0..most {
            let Some(next) = self.reached.get(&at) else {
                return Ok(Some(at));
            };
            at = next.copy()?;
        }
        Ok(None)
    }

    /// Remembers of all places on the way to this end that it is reached from them.
    fn remember(&mut self, place: &Place<'s>, end: &Place<'s>) -> Result<(), NoMemory>
        ensures { (hops : List HopData) → Knows hops self.old → Reaches hops place.now end.now
            → OnOk result (Knows hops self.new) }
    {
        let mut from = place.copy()?;
        let most = self.reached.len();
        for _ in 0..most {
            if from == *end {
                return Ok(());
            }
            let known = end.copy()?;
            let Some(next) = self.reached.insert(from, known)? else {
                return Ok(());
            };
            from = next;
        }
        Ok(())
    }

    /// The place that is reached from this one, where no hop starts; none where hops lead in a ring.
    pub(crate) fn reach(&mut self, place: &Place<'s>) -> Result<Option<Place<'s>>, NoMemory>
        ensures knows { (hops : List HopData) → Knows hops self.old
            → OnOk result (Knows hops self.new) }
        ensures end { (hops : List HopData) → Knows hops self.old → IfOk result (λ o.
            IfSome o (λ q. Reaches hops place.now q)) }
        ensures ring { (hops : List HopData) → Knows hops self.old → IfOk result (λ o.
            IfNone o ((q : PlaceData) → Reaches hops place.now q → ⊥)) }
    {
        let Some(end) = self.end_of(place)? else {
            return Ok(None);
        };
        self.remember(place, &end)?;
        Ok(Some(end))
    }
}
