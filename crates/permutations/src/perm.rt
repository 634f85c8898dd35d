//! Permutations: what a list of them holds.

use json_span::NodeRef;
use std::fmt;
use tk_io::{Sequence, Text};

/// What tokens come from.
#[derive(Drop)]
pub enum Source<'a, 's> {
    /// A file: its name, and the byte offsets of the beginning and the end of the string that names it.
    File(Text<'s>, usize, usize),
    /// Tokens that are written in the resolver document.
    Inline(NodeRef<'a, 's>),
}

impl<'a, 's> fmt::Debug for Source<'a, 's> {
    fn fmt<W: fmt::Write>(&self, f: &mut fmt::Formatter<W>) -> fmt::Result {
        f.write_str("Source")
    }
}

/// The sources of a permutation, in order: a later one stands over an earlier one.
pub type Sources<'a, 's> = Sequence<Source<'a, 's>>;

/// A permutation: its name and its sources.
#[derive(Drop)]
pub struct Perm<'a, 's> {
    /// `default` where there is no modifier, else `MODIFIER=CONTEXT` for each modifier in order, joined by `+`.
    pub name: Text<'s>,
    pub sources: Sources<'a, 's>,
}

/// Permutations, in the order of their contexts' places: the last modifier is the fastest.
pub type Perms<'a, 's> = Sequence<Perm<'a, 's>>;
