//! What tokens came to, as far as it is remembered.

ghost use Rattle.std.specs.Prelude.{◌≡◌, ◌↔◌, IfOk, IfSome, option_map, true};
ghost use Rattle.alias_ref.specs.inner.Remembering.{PathStandsAt, known_at, IsBlank, IsKept};

use crate::resolved::Resolved;
use group_inherit::Entry;
use name_path::Path;
use std::alloc::Global;
use std::cmp::Ordering;
use tk_io::NoMemory;

/// What a token came to whose walk breaks no rule, and how many visits that walk makes.
#[derive(Drop)]
pub(crate) struct Known<'s> {
    pub(crate) visits: u32,
    pub(crate) resolved: Resolved<'s>,
}

/// What is remembered of the tokens of a flat tree, at their places in path order, and which of them were looked at.
#[derive(Drop)]
pub(crate) struct Memory<'s> {
    known: Vec<Option<Known<'s>>>,
    seen: Vec<bool>,
}

/// The place of the token of this path among tokens in path order.
pub(crate) fn place_of<'s>(tokens: &[(Path<'s>, Entry<'s>)], path: &Path<'s>) -> Option<usize>
    ensures { IfSome result (PathStandsAt tokens.now path.now) }
{
    let mut low = 0;
    let mut high = tokens.len();
    while low < high {
        let middle = low + (high - low) / 2;
        match path.cmp(&tokens[middle].0) {
            Ordering::Less => high = middle,
            Ordering::Equal => return Some(middle),
            Ordering::Greater => low = middle + 1,
        }
    }
    None
}

impl<'s> Memory<'s> {
    /// No place: nothing is remembered.
    pub(crate) fn none(alloc: Global) -> Memory<'s>
        ensures { IsBlank result.known.items }
    {
        Memory {
            known: Vec::new(alloc),
            seen: Vec::new(alloc),
        }
    }

    /// So many places, at which nothing is remembered.
    pub(crate) fn with_places(alloc: Global, places: usize) -> Result<Memory<'s>, NoMemory>
        ensures { IfOk result (λ m. IsBlank m.known.items) }
    {
        let mut known = Vec::with_capacity(alloc, places)?;
        let mut seen = Vec::with_capacity(alloc, places)?;
        let mut left = places;
        while left > 0 {
            known.push(None)?;
            seen.push(false)?;
            left -= 1;
        }
        Ok(Memory { known, seen })
    }

    /// What is remembered at a place.
    pub(crate) fn at(&self, i: usize) -> Option<&Known<'s>>
        ensures { option_map (λ k. k.now) result ≡ known_at self.now.known.items i }
    {
        match self.known.get(i) {
            Some(Some(known)) => Some(known),
            _ => None,
        }
    }

    /// Remembers this at a place, if there is such a place.
    pub(crate) fn keep(&mut self, i: usize, known: Known<'s>)
        ensures { IsKept self.old.known.items self.new.known.items i known.entry }
    {
        if i < self.known.len() {
            self.known[i] = Some(known);
        }
    }

    /// Whether the token of the place was looked at, or can't be.
    pub(crate) fn is_seen(&self, i: usize) -> bool {
        match self.seen.get(i) {
            Some(seen) => *seen,
            None => true,
        }
    }

    /// The token of the place is looked at.
    pub(crate) fn see(&mut self, i: usize)
        ensures { self.new.known ≡ self.old.known }
    {
        if i < self.seen.len() {
            self.seen[i] = true;
        }
    }
}
