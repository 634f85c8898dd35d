//! Flat trees whose tokens are evaluated.

ghost use Rattle.std.specs.Prelude.{◌≡◌};
ghost use Rattle.std.specs.FinMap as map;
ghost use Rattle.tree_changes.specs.Named.{AllNameAs};

use crate::cells::Cells;
use group_inherit::Flat;
use std::marker::Model;
use tree_changes::Named;

/// A flat tree, and what its tokens come to.
#[derive(Debug, Drop)]
pub struct Evaluated<'s> {
    tokens: Flat<'s>,
    cells: Cells<'s>,
    /// What is known of the names of each token, in path order, as far as it is said.
    named: Vec<Named>,
}

impl<'s> Model for Evaluated<'s> {
    ghost use Rattle.std.specs.FinMap as map;
    ghost use Rattle.std.specs.Coded.{codes};
    ghost use Rattle.token_cells.specs.Evaluated.{EvaluatedTree, coded_flat};

    ghost Value = { EvaluatedTree };

    ghost coded = { Prim.hlevel (codes, coded_flat) };

    ghost view = { λ e. record { tokens = e.tokens; cells = e.cells } };

    ghost use Rattle.tree_changes.specs.Named.{AllNameAs};

    ghost invariant = { λ e. AllNameAs (map.entries e.tokens) e.named.items };
}

impl<'s> Evaluated<'s> {
    /// Tokens with what each comes to, and what is known of their names.
    pub(crate) fn new(tokens: Flat<'s>, cells: Cells<'s>, named: Vec<Named>) -> Evaluated<'s>
        requires { AllNameAs (map.entries tokens) named.items }
        ensures tokens { result.tokens ≡ tokens.entry }
        ensures cells { result.cells ≡ cells.entry }
    {
        Evaluated {
            tokens,
            cells,
            named,
        }
    }

    /// The tokens.
    pub fn tokens(&self) -> &Flat<'s>
        ensures { result.now ≡ self.now.tokens }
    {
        &self.tokens
    }

    /// What they come to, in path order.
    pub fn cells(&self) -> &Cells<'s>
        ensures { result.now ≡ self.now.cells }
    {
        &self.cells
    }

    /// The tokens, and what they come to.
    pub fn into_parts(self) -> (Flat<'s>, Cells<'s>)
        ensures tokens { result.0 ≡ self.entry.tokens }
        ensures cells { result.1 ≡ self.entry.cells }
    {
        (self.tokens, self.cells)
    }

    /// What is known of the names of each token, in path order, as far as it is said.
    pub fn named(&self) -> &[Named]
        ensures { AllNameAs (map.entries self.now.tokens) result.now }
    {
        self.named.as_slice()
    }
}
