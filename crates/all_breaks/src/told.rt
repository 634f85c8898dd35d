//! Breaks as they are printed, each once, with the names of the permutations that have it.

ghost use Rattle.std.specs.Prelude.{◌≡◌, ◌==◌, ◌∷◌, [], IfOk, OnOk, length, option_map};
ghost use Rattle.std.specs.Str.{bytes_eq};
ghost use Rattle.std.specs.List.{list_any, slice_get};
ghost use Rattle.all_breaks.specs.Told.{names_of, told_break, with_break, with_breaks, with_name};
ghost use Rattle.all_breaks.specs.inner.Putting.{with_names};

use indexmap::IndexMap;
use std::alloc::Global;
use std::marker::Model;
use tk_io::{Bytes, NoMemory, Sequence, Text};

/// The names of permutations.
pub type Names<'s> = Sequence<Text<'s>>;

/// Breaks as they are printed, in the order in which they were added, each with the names of the permutations that have it.
/// No two read the same.
#[derive(Drop)]
pub struct Told<'s> {
    breaks: IndexMap<Vec<u8>, Names<'s>>,
}

impl<'s> Model for Told<'s> {
    ghost use Rattle.std.specs.Prelude.{List, map};
    ghost use Rattle.all_breaks.specs.Told.{ToldBreak, told_break};

    ghost Value = { List ToldBreak };

    ghost view = { λ t. map (λ e. told_break e.0.items e.1) t.breaks.entries };
}

// Whether the name is among these.
fn is_among(name: &Text<'_>, names: &[Text<'_>]) -> bool
    ensures { result ≡ list_any (bytes_eq name.now) names.now }
{
    for other in names {
        if name.as_str() == other.as_str() {
            return true;
        }
    }
    false
}

// These names.
fn copied<'s>(alloc: Global, names: &[Text<'s>]) -> Result<Names<'s>, NoMemory>
    ensures { IfOk result (λ copy. copy ≡ names.now) }
{
    let mut copy = Names::new(alloc);
    for name in names {
        copy.push(name.copy()?)?;
    }
    Ok(copy)
}

// These names with one more, where it is another.
fn with_name<'s>(alloc: Global, names: &[Text<'s>], name: &Text<'s>) -> Result<Names<'s>, NoMemory>
    ensures { IfOk result (λ more. more ≡ with_name names.now name.now) }
{
    let mut more = copied(alloc, names)?;
    if !is_among(name, names) {
        more.push(name.copy()?)?;
    }
    Ok(more)
}

// This name alone.
fn one_name<'s>(alloc: Global, name: &Text<'s>) -> Result<Names<'s>, NoMemory>
    ensures { IfOk result (λ names. names ≡ name.now ∷ []) }
{
    let mut names = Names::new(alloc);
    names.push(name.copy()?)?;
    Ok(names)
}

impl<'s> Told<'s> {
    /// No breaks.
    pub fn new(alloc: Global) -> Told<'s>
        ensures { result ≡ [] }
    {
        Told {
            breaks: IndexMap::new(alloc),
        }
    }

    /// How many there are.
    pub fn len(&self) -> usize
        ensures { result ≡ length self.now }
    {
        self.breaks.len()
    }

    /// Whether there are none.
    pub fn is_empty(&self) -> bool
        ensures { result ≡ (length self.now == 0) }
    {
        self.len() == 0
    }

    /// What is printed of the i-th break, counted from 0, and the names of the permutations that have it, which are none
    /// where it is of the configuration or of the plan; none where i is not below the length.
    pub fn at(&self, i: usize) -> Option<(&[u8], &Names<'s>)>
        ensures { option_map (λ e. told_break e.0.now e.1.now) result ≡ slice_get self.now i }
    {
        match self.breaks.get_index(i) {
            Some((text, names)) => Some((text.as_slice(), names)),
            None => None,
        }
    }

    // The names of the permutations that have the break, with one more.
    fn names_with(&self, alloc: Global, text: &[u8], name: &Text<'s>) -> Result<Names<'s>, NoMemory>
        ensures { IfOk result (λ names. names ≡ with_name (names_of self.now text.now) name.now) }
    {
        match self.breaks.get(text) {
            Some(names) => with_name(alloc, names.as_slice(), name),
            None => one_name(alloc, name),
        }
    }

    // Puts the names behind the break.
    fn put(&mut self, alloc: Global, text: &[u8], names: Names<'s>) -> Result<(), NoMemory>
        ensures { OnOk result (self.new ≡ with_names self.old text.now names.entry) }
    {
        let mut key = Vec::new(alloc);
        key.extend_from_slice(text)?;
        self.breaks.insert(key, names)?;
        Ok(())
    }

    /// One break, which no permutation has.
    pub(crate) fn bare(alloc: Global, text: &[u8]) -> Result<Told<'s>, NoMemory>
        ensures { IfOk result (λ told. told ≡ told_break text.now [] ∷ []) }
    {
        let mut told = Told::new(alloc);
        told.put(alloc, text, Names::new(alloc))?;
        Ok(told)
    }

    // Adds a break of a permutation.
    fn add(&mut self, alloc: Global, name: &Text<'s>, text: &[u8]) -> Result<(), NoMemory>
        ensures { OnOk result (self.new ≡ with_break self.old name.now text.now) }
    {
        let names = self.names_with(alloc, text, name)?;
        self.put(alloc, text, names)
    }

    /// Adds the breaks of a permutation.
    pub(crate) fn add_all(
        &mut self,
        alloc: Global,
        name: &Text<'s>,
        texts: &[Bytes],
    ) -> Result<(), NoMemory>
        ensures { OnOk result (self.new ≡ with_breaks self.old name.now texts.now) }
    {
        for text in texts {
            self.add(alloc, name, text.as_slice())?;
        }
        Ok(())
    }
}
