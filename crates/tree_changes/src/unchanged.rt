//! Tokens of a flat tree that stand unchanged in an earlier one.

ghost use Rattle.std.specs.Prelude.{◌≡◌, ◌≢◌, T, true, false, IfOk};
ghost use Rattle.std.specs.FinMap as map;
ghost use Rattle.std.specs.FinMap.Entries.{is_sorted};
ghost use Rattle.std.specs.List.{AllZip};
ghost use Rattle.tk_io.specs.Order.{names_cmp};
ghost use Rattle.alias_ref.specs.Unchanged.{raw_of};
ghost use Rattle.tree_changes.specs.Standing.{StandsAt};
ghost use Rattle.tree_changes.specs.inner.Places.{ArePassed, IsPassed, IsPlaceOf, IsSameAt};

use alias_ref::differ_decides;
use group_inherit::{Entry, Flat};
use lane_scan::are_same;
use name_path::Path;
use std::alloc::Global;
use std::cmp::Ordering;
use tk_io::NoMemory;
use token_tree::Mark;

// Whether two marks are the same.
fn is_same_mark(mark: &Mark<'_>, other: &Mark<'_>) -> bool
    ensures same { result ≡ true → mark.now ≡ other.now }
    ensures other { result ≡ false → mark.now ≢ other.now }
{
    match mark {
        Mark::No => match other {
            Mark::No => true,
            Mark::Yes => false,
            Mark::Because(_) => false,
        },
        Mark::Yes => match other {
            Mark::No => false,
            Mark::Yes => true,
            Mark::Because(_) => false,
        },
        Mark::Because(reason) => match other {
            Mark::No => false,
            Mark::Yes => false,
            Mark::Because(same) => reason.as_str() == same.as_str(),
        },
    }
}

// .. or there is neither.
fn is_same_group_mark(mark: &Option<Mark<'_>>, other: &Option<Mark<'_>>) -> bool
    ensures same { result ≡ true → mark.now ≡ other.now }
    ensures other { result ≡ false → mark.now ≢ other.now }
{
    match mark {
        None => other.is_none(),
        Some(mark) => match other {
            None => false,
            Some(other) => is_same_mark(mark, other),
        },
    }
}

// Whether all that decides what a token comes to is the same, but for the tokens that it names.
fn is_same(entry: &Entry<'_>, other: &Entry<'_>) -> bool
    ensures same { result ≡ true → raw_of entry.now ≡ raw_of other.now }
    ensures other { result ≡ false → raw_of entry.now ≢ raw_of other.now }
{
    are_same(entry.def.source.as_bytes(), other.def.source.as_bytes())
        && entry.group_kind == other.group_kind
        && is_same_group_mark(&entry.group_mark, &other.group_mark)
}

// The place of the path, looked for from `at` on, which is left where the next one is to be looked for: behind the path. Paths
// ascend.
fn place_from<'s>(
    tokens: &[(Path<'s>, Entry<'s>)],
    at: &mut usize,
    path: &Path<'s>,
) -> Option<usize>
    requires sorted { T (is_sorted names_cmp tokens.now) }
    requires passed { IsPassed tokens.now path.now at.old }
    ensures passed { ArePassed tokens.now path.now at.new }
    ensures found { IsPlaceOf tokens.now path.now result }
{
    while let Some(token) = tokens.get(*at) {
        match path.cmp(&token.0) {
            Ordering::Less => return None,
            Ordering::Equal => {
                let found = *at;
                *at += 1;
                return Some(found);
            }
            Ordering::Greater => *at += 1,
        }
    }
    None
}

// The place at which the token stands unchanged, looked for from `at` on.
fn same_place<'s>(old: &Flat<'s>, at: &mut usize, token: &(Path<'s>, Entry<'s>)) -> Option<usize>
    requires passed { IsPassed (map.entries old.now) token.now.0 at.old }
    ensures passed { ArePassed (map.entries old.now) token.now.0 at.new }
    ensures found { IsSameAt old.now token.now result }
{
    let tokens = old.as_slice();
    let Some(i) = place_from(tokens, at, &token.0) else {
        return None;
    };
    if is_same(&tokens[i].1, &token.1) {
        Some(i)
    } else {
        None
    }
}

/// Where each token of a flat tree stands unchanged in an earlier one, in path order: its place there, or none where its
/// path is changed. Both trees are gone over once.
///
/// # Errors
/// `NoMemory`.
pub fn unchanged_places<'s>(
    alloc: Global,
    old: &Flat<'s>,
    new: &Flat<'s>,
) -> Result<Vec<Option<usize>>, NoMemory>
    ensures { IfOk result (λ places.
        AllZip (StandsAt old.now new.now) (map.entries new.now) places.items) }
{
    differ_decides();
    let tokens = new.as_slice();
    let mut places = Vec::with_capacity(alloc, tokens.len())?;
    let mut at = 0;
    for token in tokens {
        places.push(same_place(old, &mut at, token))?;
    }
    Ok(places)
}
