//! Aliases by the places of tokens: tokens whose whole values refer to others without steps.

ghost use Rattle.std.specs.Prelude.{◌≡◌, Some, IfOk, IsTrue};
ghost use Rattle.std.specs.FinMap as map;
ghost use Rattle.std.specs.List.{slice_get};
ghost use Rattle.group_inherit.specs.Flattening.{TokenAt};
ghost use Rattle.alias_ref.specs.Answer.{MeansAsAt};
ghost use Rattle.alias_ref.specs.Laws.{Flat as FlatTree};
ghost use Rattle.alias_ref.specs.inner.Chains.{target_at, AreAliases, HasNone, is_marked};
ghost use Rattle.alias_ref.specs.inner.Chains.{IsLed, IsMarkedAt};

use std::alloc::Global;
use tk_io::NoMemory;

/// To which token the whole value of each token refers without steps, as far as it is known, by their places in path order.
/// The mark of a token says where it stands in a chain of them, if it does.
#[derive(Drop)]
pub(crate) struct Aliases {
    targets: Vec<Option<usize>>,
    marks: Vec<usize>,
}

impl Aliases {
    /// So many tokens, of which nothing is known.
    pub(crate) fn with_places(alloc: Global, places: usize) -> Result<Aliases, NoMemory>
        ensures { IfOk result (λ a. HasNone a.targets.items) }
    {
        let mut targets = Vec::with_capacity(alloc, places)?;
        let mut left = places;
        while left > 0 {
            targets.push(None)?;
            left -= 1;
        }
        let marks = vec![in alloc; 0; places]?;
        Ok(Aliases { targets, marks })
    }

    /// The place of the token to which that of a place refers, where it is known.
    pub(crate) fn target(&self, i: usize) -> Option<usize>
        ensures { result ≡ target_at self.now.targets.items i }
    {
        match self.targets.get(i) {
            Some(target) => *target,
            None => None,
        }
    }

    /// The token of a place refers to that of the target.
    pub(crate) fn lead(&mut self, i: usize, target: usize)
        ensures { IsLed self.old.targets.items self.new.targets.items i target }
    {
        if i < self.targets.len() {
            self.targets[i] = Some(target);
        }
    }

    /// Where the aliases that are known end which lead on from a place, at most so many places on.
    pub(crate) fn end_of(&self, i: usize, most: usize) -> usize
        ensures { (flat : FlatTree) (token : TokenAt) → AreAliases flat self.now.targets.items
            → slice_get (map.entries flat) i ≡ Some token → MeansAsAt flat token.0 result }
    {
        let mut at = i;
        let mut left = most;
        while left > 0 {
            let Some(target) = self.target(at) else {
                return at;
            };
            at = target;
            left -= 1;
        }
        at
    }

    /// Whether the mark of a place says where it stands in the chain.
    pub(crate) fn is_marked(&self, chain: &[usize], i: usize) -> bool
        ensures { result ≡ is_marked self.now.marks.items chain.now i }
    {
        let Some(at) = self.marks.get(i) else {
            return false;
        };
        match chain.get(*at) {
            Some(other) => *other == i,
            None => false,
        }
    }

    /// Marks a place as the one that stands there in a chain; false where there is no such place.
    pub(crate) fn mark(&mut self, i: usize, at: usize) -> bool
        ensures targets { self.new.targets ≡ self.old.targets }
        ensures marked { IsTrue result → IsMarkedAt self.old.marks.items self.new.marks.items i at }
    {
        if i >= self.marks.len() {
            return false;
        }
        self.marks[i] = at;
        true
    }
}
