//! Places of tokens in path order.

ghost use Rattle.std.specs.Prelude.{T};
ghost use Rattle.std.specs.FinMap.Entries.{is_sorted};
ghost use Rattle.tk_io.specs.Order.{names_cmp};
ghost use Rattle.tree_changes.specs.inner.Places.{IsPlaceOf};

use crate::Named;
use crate::index::Index;
use group_inherit::{Entry, Flat};
use name_path::Path;
use std::alloc::Global;
use std::cmp::Ordering;
use tk_io::NoMemory;

/// How many tokens of a flat tree there are for each one whose references are read, at most, where an index is worth its while.
const TOKENS_A_NAMING: usize = 8;

// Whether something is known of the names.
fn is_known(named: &Named) -> bool {
    match named {
        Named::Unknown => false,
        Named::Nothing => true,
        Named::One(_) => true,
    }
}

/// Of how many tokens the names are known.
fn count_known(named: &[Named]) -> usize {
    let mut count: usize = 0;
    for names in named {
        if is_known(names) {
            count = count.saturating_add(1);
        }
    }
    count
}

/// An index of the tokens of a flat tree, where the references of so many are to be read that it is worth its while, since
/// nothing is known of their names in an earlier one; else an empty one.
pub(crate) fn index_of(alloc: Global, named: &[Named], flat: &Flat<'_>) -> Result<Index, NoMemory> {
    let tokens = flat.as_slice();
    let naming = tokens.len().saturating_sub(count_known(named));
    if naming < tokens.len() / TOKENS_A_NAMING {
        return Ok(Index::new(alloc));
    }
    Index::of(alloc, tokens)
}

/// The place of the token of this path, by halves.
fn by_halves<'s>(tokens: &[(Path<'s>, Entry<'s>)], path: &Path<'s>) -> Option<usize>
    requires { T (is_sorted names_cmp tokens.now) }
    ensures { IsPlaceOf tokens.now path.now result }
{
    let mut low = 0;
    let mut high = tokens.len();
    while low < high {
        let middle = low + (high - low) / 2;
        match path.cmp(&tokens[middle].0) {
            Ordering::Less => high = middle,
            Ordering::Equal => return Some(middle),
            Ordering::Greater => low = middle + 1,
        }
    }
    None
}

/// The place of the token of this path: by the index, and where that does not find it by halves.
pub(crate) fn place_of<'s>(
    index: &Index,
    tokens: &[(Path<'s>, Entry<'s>)],
    path: &Path<'s>,
) -> Option<usize>
    requires { T (is_sorted names_cmp tokens.now) }
    ensures { IsPlaceOf tokens.now path.now result }
{
    match index.found(tokens, path) {
        Some(i) => Some(i),
        None => by_halves(tokens, path),
    }
}
