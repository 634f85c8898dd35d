//! Paths of names.

ghost use Rattle.std.specs.Prelude.{◌≡◌, ◌==◌, ◌++◌, ◌∷◌, ◌↔◌, [], length, Some, IfOk, OnOk};
ghost use Rattle.std.specs.Prelude.{OnErr, IsTrue, slice_get, option_map, refl};
ghost use Rattle.std.specs.Cmp as Cmp;
ghost use Rattle.std.specs.Cmp.Lexicographic.{pointwise, nat_list_eq_equiv, nat_list_cmp_total};
ghost use Rattle.std.specs.Cmp.Lexicographic.{texts_ties, lists_equiv, lists_total, lists_ties};
ghost use Rattle.std.specs.Cmp.Lexicographic.{lists_per};
ghost use Rattle.std.specs.Str.{bytes_eq};
ghost use Rattle.tk_io.specs.Order.{text_cmp, names_cmp};
ghost use Rattle.name_path.specs.Names.{AreNames, IsTokenPath};

use crate::is_name;
use smallvec::SmallVec;
use std::alloc::Global;
use std::cmp::Ordering;
use std::marker::Model;
use tk_io::{NoMemory, Sequence, Text};

/// A path of names, seen as their list. It is empty for the root group. Paths are ordered name by name, so `a.b` stands
/// before `a-b.c`.
#[derive(Debug, Drop)]
pub struct Path<'s> {
    names: SmallVec<Text<'s>, 3>,
}

/// Some paths, in an order of their own.
pub type Paths<'s> = Sequence<Path<'s>>;

impl<'s> Model for Path<'s> {
    ghost use Rattle.std.specs.Prelude.{List, ℕ};

    ghost Value = { List (List ℕ) };

    ghost view = { λ p. p.names.items };
}

impl<'s> Path<'s> {
    /// The path of the root.
    pub fn new(alloc: Global) -> Path<'s>
        ensures { result ≡ [] }
    {
        Path {
            names: SmallVec::new(alloc),
        }
    }

    /// How many names there are.
    pub fn len(&self) -> usize
        ensures { result ≡ length self.now }
    {
        self.names.len()
    }

    /// Whether there are none, as in the root's.
    pub fn is_empty(&self) -> bool
        ensures { result ≡ (length self.now == 0) }
    {
        self.len() == 0
    }

    /// The i-th name, counted from 0; none where i is not below the length.
    pub fn at(&self, i: usize) -> Option<&Text<'s>>
        ensures { option_map (λ t. t.now) result ≡ slice_get self.now i }
    {
        self.names.as_slice().get(i)
    }

    /// The names, in order.
    pub fn as_slice(&self) -> &[Text<'s>]
        ensures { result.now ≡ self.now }
    {
        self.names.as_slice()
    }

    /// Adds a name at the end. Where memory runs out the name is dropped and the path stays.
    pub fn push(&mut self, name: Text<'s>) -> Result<(), NoMemory>
        ensures ok { OnOk result (self.new ≡ self.old ++ name.entry ∷ []) }
        ensures err { OnErr result (self.new ≡ self.old) }
    {
        self.names.push(name)?;
        Ok(())
    }

    /// A path of the same names, which shares them.
    pub fn copy(&self) -> Result<Path<'s>, NoMemory>
        ensures { IfOk result (λ p. p ≡ self.now) }
    {
        copied(*self.names.allocator(), self.names.as_slice())
    }

    /// Whether it is names alone, as the path of a group is.
    pub fn are_names(&self) -> bool
        ensures { IsTrue result ↔ AreNames self.now }
    {
        are_names(self.names.as_slice())
    }

    /// Whether a token can have it: one or more names, of which the last may be `$root`.
    pub fn is_token_path(&self) -> bool
        ensures { IsTrue result ↔ IsTokenPath self.now }
    {
        let Some((last, front)) = self.names.as_slice().split_last() else {
            return false;
        };
        if !are_names(front) {
            return false;
        }
        if last.as_str() == "$root" {
            return true;
        }
        is_name(last.as_str())
    }
}

/// A path of the same names, for which memory is asked at most once.
pub(crate) fn copied<'s>(alloc: Global, names: &[Text<'s>]) -> Result<Path<'s>, NoMemory>
    ensures { IfOk result (λ path. path ≡ names.now) }
{
    let mut path = Path {
        names: SmallVec::with_capacity(alloc, names.len())?,
    };
    for name in names {
        path.push(name.copy()?)?;
    }
    Ok(path)
}

fn are_names(names: &[Text<'_>]) -> bool
    ensures { IsTrue result ↔ AreNames names.now }
{
    for name in names {
        if !is_name(name.as_str()) {
            return false;
        }
    }
    true
}

impl<'s> PartialEq for Path<'s> {
    ghost eq = { λ x y. pointwise bytes_eq x y };

    ghost laws = { lists_per (Cmp.partial_equiv_from_equiv nat_list_eq_equiv) };

    fn eq(&self, other: &Self) -> bool {
        self.names == other.names
    }
}

impl<'s> Eq for Path<'s> {
    ghost laws = { lists_equiv nat_list_eq_equiv };
}

impl<'s> PartialOrd for Path<'s> {
    ghost partial_cmp = { λ x y. Some (names_cmp x y) };

    ghost laws = { Cmp.partial_order_from_agreeing_total names_cmp
        (lists_total nat_list_cmp_total) (λ x y. refl)
        (λ x y. lists_ties text_cmp texts_ties x y) };

    fn partial_cmp(&self, other: &Self) -> Option<Ordering> {
        Some(self.cmp(other))
    }
}

impl<'s> Ord for Path<'s> {
    ghost cmp = { λ x y. names_cmp x y };

    ghost total = { lists_total nat_list_cmp_total };

    ghost matches_partial_cmp = { λ x y. refl };

    ghost matches_eq = { λ x y. lists_ties text_cmp texts_ties x y };

    fn cmp(&self, other: &Self) -> Ordering {
        self.names.cmp(&other.names)
    }
}
