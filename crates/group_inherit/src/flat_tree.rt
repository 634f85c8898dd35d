//! Flat trees.

ghost use Rattle.std.specs.Prelude.{◌≡◌, [], IfOk, IfErr, OnOk, OnErr, T, ◌==◌};
ghost use Rattle.std.specs.FinMap as map;
ghost use Rattle.std.specs.FinMap.Entries.{is_sorted};
ghost use Rattle.std.specs.List.{slice_get};
ghost use Rattle.std.specs.Option.{option_copied, option_map};
ghost use Rattle.tk_io.specs.Order.{names_cmp};
ghost use Rattle.group_inherit.specs.View.{token_view, StandsAt};
ghost use Rattle.group_inherit.specs.inner.Halves.{IsPlace, IsGap};
ghost use Rattle.group_inherit.specs.inner.Outcomes.{IsPutInto};

use crate::entry::Entry;
use name_path::Path;
use std::alloc::Global;
use std::cmp::Ordering;
use std::fmt;
use std::marker::Model;
use tk_io::NoMemory;

/// The tokens of a tree under their paths, in path order. It is seen as a finite map from path to token.
#[derive(Drop)]
pub struct Flat<'s> {
    tokens: Vec<(Path<'s>, Entry<'s>)>,
}

impl<'s> Model for Flat<'s> {
    ghost use Rattle.std.specs.Prelude.{T};
    ghost use Rattle.std.specs.FinMap as map;
    ghost use Rattle.std.specs.FinMap.Entries.{is_sorted};
    ghost use Rattle.std.specs.Coded.{coded_list, coded_ℕ};
    ghost use Rattle.tk_io.specs.Order.{names_cmp};
    ghost use Rattle.group_inherit.specs.Codes.{coded_flattened};
    ghost use Rattle.group_inherit.specs.Flattening.{Flattened};

    ghost Value = { map.FinMap names_cmp Flattened };

    ghost coded = { map.code (coded_list (coded_list coded_ℕ)) coded_flattened };

    ghost view = { λ f. map.from_sorted f.tokens.items };

    ghost invariant = { λ f. T (is_sorted names_cmp f.tokens.items) };
}

impl<'s> fmt::Debug for Flat<'s> {
    fn fmt<W: fmt::Write>(&self, f: &mut fmt::Formatter<W>) -> fmt::Result {
        f.write_str("Flat")
    }
}

// No token, with room for so many where there is memory for it.
fn room_for<'s>(alloc: Global, tokens: usize) -> Vec<(Path<'s>, Entry<'s>)>
    ensures { result.items ≡ [] }
{
    match Vec::with_capacity(alloc, tokens) {
        Ok(list) => list,
        Err(_) => Vec::new(alloc),
    }
}

// Where the path stands, or where it would stand.
fn place_of<'s>(tokens: &[(Path<'s>, Entry<'s>)], path: &Path<'s>) -> Result<usize, usize>
    requires { T (is_sorted names_cmp tokens.now) }
    ensures place { IfOk result (IsPlace names_cmp path.now tokens.now) }
    ensures gap { IfErr result (IsGap names_cmp path.now tokens.now) }
{
    let mut low = 0;
    let mut high = tokens.len();
    while low < high {
        let middle = low + (high - low) / 2;
        match path.cmp(&tokens[middle].0) {
            Ordering::Less => high = middle,
            Ordering::Equal => return Ok(middle),
            Ordering::Greater => low = middle + 1,
        }
    }
    Err(low)
}

// The same, looked for at the end first, since tokens mostly come in path order.
fn place_from_end<'s>(tokens: &[(Path<'s>, Entry<'s>)], path: &Path<'s>) -> Result<usize, usize>
    requires { T (is_sorted names_cmp tokens.now) }
    ensures place { IfOk result (IsPlace names_cmp path.now tokens.now) }
    ensures gap { IfErr result (IsGap names_cmp path.now tokens.now) }
{
    if let Some((last, _)) = tokens.last() {
        if let Ordering::Greater = path.cmp(last) {
            return Err(tokens.len());
        }
    }
    place_of(tokens, path)
}

// Puts the token in its place, or replaces the one of its path. Where memory runs out the list stays.
fn put_token<'s>(
    tokens: &mut Vec<(Path<'s>, Entry<'s>)>,
    path: Path<'s>,
    entry: Entry<'s>,
) -> Result<(), NoMemory>
    requires { T (is_sorted names_cmp tokens.old.items) }
    ensures ok { OnOk result (IsPutInto path.entry entry.entry tokens.old.items tokens.new.items) }
    ensures err { OnErr result (tokens.new.items ≡ tokens.old.items) }
{
    match place_from_end(tokens.as_slice(), &path) {
        Ok(i) => tokens[i] = (path, entry),
        Err(i) => tokens.insert(i, (path, entry))?,
    }
    Ok(())
}

impl<'s> Flat<'s> {
    /// No token.
    pub fn new(alloc: Global) -> Flat<'s>
        ensures { result ≡ map.empty }
    {
        Flat {
            tokens: Vec::new(alloc),
        }
    }

    /// No token, with room for so many where there is memory for it.
    pub(crate) fn with_room(alloc: Global, tokens: usize) -> Flat<'s>
        ensures { result ≡ map.empty }
    {
        Flat {
            tokens: room_for(alloc, tokens),
        }
    }

    /// All tokens with their paths, in path order.
    pub fn as_slice(&self) -> &[(Path<'s>, Entry<'s>)]
        ensures entries { result.now ≡ map.entries self.now }
        ensures ascending { T (is_sorted names_cmp result.now) }
    {
        self.tokens.as_slice()
    }

    /// How many tokens there are.
    pub fn len(&self) -> usize
        ensures { result ≡ map.len self.now }
    {
        self.as_slice().len()
    }

    /// Whether there is no token.
    pub fn is_empty(&self) -> bool
        ensures { result ≡ (map.len self.now == 0) }
    {
        self.len() == 0
    }

    /// The token under the path, or none where the path is not there.
    pub fn get(&self, path: &Path<'s>) -> Option<&Entry<'s>>
        ensures { option_copied result ≡ map.get self.now path.now }
    {
        let tokens = self.as_slice();
        match place_of(tokens, path) {
            Ok(i) => Some(&tokens[i].1),
            Err(_) => None,
        }
    }

    /// The i-th token in path order with its path, counted from 0; none where i is not below the length.
    pub fn at(&self, i: usize) -> Option<(&Path<'s>, &Entry<'s>)>
        ensures { option_map token_view result ≡ slice_get (map.entries self.now) i }
    {
        match self.as_slice().get(i) {
            Some(token) => Some((&token.0, &token.1)),
            None => None,
        }
    }

    /// Adds the token under a copy of the path, or replaces the token of the path. Where memory runs out the token is
    /// dropped and the tree stays.
    pub fn put(&mut self, path: &Path<'s>, entry: Entry<'s>) -> Result<(), NoMemory>
        ensures ok { OnOk result (self.new ≡ map.insert self.old path.now entry.entry) }
        // What stands at each path afterwards.
        ensures at { OnOk result (StandsAt self.old self.new path.now entry.entry) }
        ensures err { OnErr result (self.new ≡ self.old) }
    {
        let path = path.copy()?;
        self.insert(path, entry)
    }

    /// Adds the token under the path, or replaces the token of the path. Where memory runs out both are dropped and the
    /// tree stays.
    pub(crate) fn insert(&mut self, path: Path<'s>, entry: Entry<'s>) -> Result<(), NoMemory>
        ensures ok { OnOk result (self.new ≡ map.insert self.old path.entry entry.entry) }
        ensures err { OnErr result (self.new ≡ self.old) }
    {
        put_token(&mut self.tokens, path, entry)
    }
}
