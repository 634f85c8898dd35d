//! Trails of steps.

ghost use Rattle.std.specs.Prelude.{◌≡◌, ◌==◌, ◌++◌, ◌∷◌, [], length, Some, IfOk, OnOk, OnErr};
ghost use Rattle.std.specs.Prelude.{slice_get, option_map, refl};
ghost use Rattle.std.specs.Cmp as Cmp;
ghost use Rattle.std.specs.Cmp.Lexicographic.{pointwise, nat_list_eq_equiv, nat_list_cmp_total};
ghost use Rattle.std.specs.Cmp.Lexicographic.{texts_ties, lists_equiv, lists_total, lists_ties};
ghost use Rattle.std.specs.Cmp.Lexicographic.{lists_per};
ghost use Rattle.std.specs.Str.{bytes_eq};
ghost use Rattle.tk_io.specs.Order.{text_cmp, names_cmp};

use std::alloc::Global;
use std::cmp::Ordering;
use std::marker::Model;
use tk_io::{NoMemory, Text};

/// Steps into a value, seen as their list: names of members, and indices of items in decimal digits. Any text is a step.
#[derive(Debug, Drop)]
pub struct Trail<'s> {
    steps: Vec<Text<'s>>,
}

impl<'s> Model for Trail<'s> {
    ghost use Rattle.std.specs.Prelude.{List, ℕ};

    ghost Value = { List (List ℕ) };

    ghost view = { λ t. t.steps.items };
}

impl<'s> Trail<'s> {
    /// No step: the whole value.
    pub fn new(alloc: Global) -> Trail<'s>
        ensures { result ≡ [] }
    {
        Trail {
            steps: Vec::new(alloc),
        }
    }

    /// How many steps there are.
    pub fn len(&self) -> usize
        ensures { result ≡ length self.now }
    {
        self.steps.len()
    }

    /// Whether there are none.
    pub fn is_empty(&self) -> bool
        ensures { result ≡ (length self.now == 0) }
    {
        self.len() == 0
    }

    /// The i-th step, counted from 0; none where i is not below the length.
    pub fn at(&self, i: usize) -> Option<&Text<'s>>
        ensures { option_map (λ t. t.now) result ≡ slice_get self.now i }
    {
        self.steps.get(i)
    }

    /// The steps, in order.
    pub fn as_slice(&self) -> &[Text<'s>]
        ensures { result.now ≡ self.now }
    {
        self.steps.as_slice()
    }

    /// Adds a step at the end. Where memory runs out the step is dropped and the trail stays.
    pub fn push(&mut self, step: Text<'s>) -> Result<(), NoMemory>
        ensures ok { OnOk result (self.new ≡ self.old ++ step.entry ∷ []) }
        ensures err { OnErr result (self.new ≡ self.old) }
    {
        self.steps.push(step)?;
        Ok(())
    }

    /// A trail of the same steps, which shares them.
    pub fn copy(&self) -> Result<Trail<'s>, NoMemory>
        ensures { IfOk result (λ t. t ≡ self.now) }
    {
        copied(*self.steps.allocator(), self.steps.as_slice())
    }
}

/// A trail of the same steps, for which memory is asked at most once.
pub(crate) fn copied<'s>(alloc: Global, steps: &[Text<'s>]) -> Result<Trail<'s>, NoMemory>
    ensures { IfOk result (λ trail. trail ≡ steps.now) }
{
    let mut trail = Trail {
        steps: Vec::with_capacity(alloc, steps.len())?,
    };
    for step in steps {
        trail.push(step.copy()?)?;
    }
    Ok(trail)
}

impl<'s> PartialEq for Trail<'s> {
    ghost eq = { λ x y. pointwise bytes_eq x y };

    ghost laws = { lists_per (Cmp.partial_equiv_from_equiv nat_list_eq_equiv) };

    fn eq(&self, other: &Self) -> bool {
        self.steps == other.steps
    }
}

impl<'s> Eq for Trail<'s> {
    ghost laws = { lists_equiv nat_list_eq_equiv };
}

impl<'s> PartialOrd for Trail<'s> {
    ghost partial_cmp = { λ x y. Some (names_cmp x y) };

    ghost laws = { Cmp.partial_order_from_agreeing_total names_cmp
        (lists_total nat_list_cmp_total) (λ x y. refl)
        (λ x y. lists_ties text_cmp texts_ties x y) };

    fn partial_cmp(&self, other: &Self) -> Option<Ordering> {
        Some(self.cmp(other))
    }
}

impl<'s> Ord for Trail<'s> {
    ghost cmp = { λ x y. names_cmp x y };

    ghost total = { lists_total nat_list_cmp_total };

    ghost matches_partial_cmp = { λ x y. refl };

    ghost matches_eq = { λ x y. lists_ties text_cmp texts_ties x y };

    fn cmp(&self, other: &Self) -> Ordering {
        self.steps.cmp(&other.steps)
    }
}
