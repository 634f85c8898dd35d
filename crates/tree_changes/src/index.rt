//! An index of the tokens of a flat tree.

ghost use Rattle.std.specs.Prelude.{◌≡◌, ◌<◌, length, IfSome};
ghost use Rattle.std.specs.List.{HoldsAt};
ghost use Rattle.std.specs.declared.cmp.Ordering.TheVariants.{Equal};
ghost use Rattle.tk_io.specs.Order.{names_cmp};

use group_inherit::Entry;
use name_path::Path;
use std::alloc::Global;
use std::hash::{FoldHasher, Hasher};
use tk_io::NoMemory;

/// In how many slots, one after another, the place of a token may be kept.
const MOST_TRIED: usize = 8;

/// What a slot holds that holds no place.
const EMPTY: usize = usize::MAX;

/// Slots for the places of tokens in path order: the hash of a path says in which of them its place is looked for. What the slots
/// hold changes no answer, since the path that stands at a place is compared.
#[derive(Drop)]
pub(crate) struct Index {
    slots: Vec<usize>,
}

/// The number of a path that says which slots it has.
fn hash_of(path: &Path<'_>) -> usize {
    let mut hasher = FoldHasher::default();
    for name in path.as_slice() {
        hasher.write(name.as_str().as_bytes());
    }
    hasher.finish() as usize
}

impl Index {
    /// No slot: no token is found.
    pub(crate) fn new(alloc: Global) -> Index {
        Index {
            slots: Vec::new(alloc),
        }
    }

    /// Slots for these tokens.
    pub(crate) fn of<'s>(
        alloc: Global,
        tokens: &[(Path<'s>, Entry<'s>)],
    ) -> Result<Index, NoMemory> {
        let slots = vec![in alloc; EMPTY; tokens.len().saturating_mul(2)]?;
        let mut index = Index { slots };
        for (place, token) in tokens.iter().enumerate() {
            index.keep(&token.0, place);
        }
        Ok(index)
    }

    /// Keeps the place of a path in the first of its slots that is empty, if one is.
    fn keep(&mut self, path: &Path<'_>, place: usize) {
        let slots = self.slots.len();
        if slots == 0 {
            return;
        }
        let hash = hash_of(path);
        for tried in 0..MOST_TRIED {
            let slot = hash.wrapping_add(tried) % slots;
            if self.slots[slot] == EMPTY {
                self.slots[slot] = place;
                return;
            }
        }
    }

    /// The place of a token of this path, where one of its slots has it.
    pub(crate) fn found<'s>(
        &self,
        tokens: &[(Path<'s>, Entry<'s>)],
        path: &Path<'s>,
    ) -> Option<usize>
        ensures { IfSome result (λ i. (i < length tokens.now)
            × HoldsAt (λ e. names_cmp e.0 path.now ≡ Equal) tokens.now i) }
    {
        let slots = self.slots.len();
        if slots == 0 {
            return None;
        }
        let hash = hash_of(path);
        for tried in 0..MOST_TRIED {
            let place = self.slots[hash.wrapping_add(tried) % slots];
            if place >= tokens.len() {
                return None;
            }
            if tokens[place].0.cmp(path).is_eq() {
                return Some(place);
            }
        }
        None
    }
}
