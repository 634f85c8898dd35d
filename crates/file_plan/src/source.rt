//! Plans: what they hold.

use json_span::Node;
use std::fmt;
use tk_io::{Sequence, Text};

/// What tokens come from. It borrows from the texts of files alone.
#[derive(Drop)]
pub enum PlanSource<'s> {
    /// A file: its name, and the byte offsets of the beginning and the end of the string that names it.
    File(Text<'s>, usize, usize),
    /// Tokens that are written in the resolver document.
    Inline(Node<'s>),
}

impl<'s> fmt::Debug for PlanSource<'s> {
    fn fmt<W: fmt::Write>(&self, f: &mut fmt::Formatter<W>) -> fmt::Result {
        f.write_str("PlanSource")
    }
}

/// The sources of a permutation, in order: a later one stands over an earlier one.
pub type PlanSources<'s> = Sequence<PlanSource<'s>>;

/// A permutation: its name and its sources.
#[derive(Debug, Drop)]
pub struct PlanPerm<'s> {
    pub name: Text<'s>,
    pub sources: PlanSources<'s>,
}

/// The permutations of files, in order.
pub type Plan<'s> = Sequence<PlanPerm<'s>>;
