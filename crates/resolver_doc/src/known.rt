//! The sets and modifiers that a document has, with their numbers by the pointers that name them.

ghost use Rattle.std.specs.Prelude.{◌≡◌, ℕ, List, map as map_list};
ghost use Rattle.std.specs.FinMap as map;
ghost use Rattle.std.proofs.Props.{props};
ghost use Rattle.json_span.specs.View.{field_view};
ghost use Rattle.resolver_doc.specs.Document.{set_number, modifier_number};

use crate::members::{members, name_of, numbers};
use crate::pointers::Pointers;
use json_span::{Field, NodeRef};
use std::alloc::Global;
use tk_io::{NoMemory, Text};

/// The sets and modifiers of a document, with their numbers by the pointers that name them.
#[derive(Drop)]
pub(crate) struct Known<'a, 's> {
    pub sets: Vec<Field<'a, 's>>,
    set_numbers: Pointers,
    pub modifiers: Vec<Field<'a, 's>>,
    modifier_numbers: Pointers,
    pub ghost sets_numbered: { (text : List ℕ) → map.get set_numbers text
        ≡ set_number (map_list field_view sets.items) text } by { Prim.hlevel props },
    pub ghost modifiers_numbered: { (text : List ℕ) → map.get modifier_numbers text
        ≡ modifier_number (map_list field_view modifiers.items) text } by { Prim.hlevel props },
}

impl<'a, 's> Known<'a, 's> {
    ghost use Rattle.std.specs.Prelude.{IfOk};
    ghost use Rattle.json_span.specs.View.{ref_view};
    ghost use Rattle.resolver_doc.specs.Document.{name_in, set_entries, modifier_entries};
    ghost use Rattle.resolver_doc.specs.inner.Known.{known_sets, known_modifiers};

    /// Those of the document.
    pub(crate) fn new(alloc: Global, root: NodeRef<'a, 's>) -> Result<Known<'a, 's>, NoMemory>
        ensures sets { IfOk result (λ k. known_sets k ≡ set_entries (ref_view root.entry)) }
        ensures modifiers { IfOk result
            (λ k. known_modifiers k ≡ modifier_entries (ref_view root.entry)) }
    {
        let sets = members(alloc, root, "sets")?;
        let set_numbers = numbers(alloc, "sets", sets.as_slice())?;
        let modifiers = members(alloc, root, "modifiers")?;
        let modifier_numbers = numbers(alloc, "modifiers", modifiers.as_slice())?;
        Ok(Known {
            sets,
            set_numbers,
            modifiers,
            modifier_numbers,
        })
    }

    /// The number of the set that the text points to.
    pub(crate) fn set_number(&self, text: &Text<'s>) -> Option<usize>
        ensures { result ≡ set_number (known_sets self.now) text.now }
    {
        self.set_numbers.get(text.as_str().as_bytes())
    }

    /// The number of the modifier that the text points to.
    pub(crate) fn modifier_number(&self, text: &Text<'s>) -> Option<usize>
        ensures { result ≡ modifier_number (known_modifiers self.now) text.now }
    {
        self.modifier_numbers.get(text.as_str().as_bytes())
    }

    /// The name of the set of the number.
    pub(crate) fn set_name(&self, alloc: Global, number: usize) -> Result<Text<'s>, NoMemory>
        ensures { IfOk result (λ name. name ≡ name_in (known_sets self.now) number) }
    {
        name_of(alloc, self.sets.as_slice(), number)
    }

    /// The name of the modifier of the number.
    pub(crate) fn modifier_name(&self, alloc: Global, number: usize) -> Result<Text<'s>, NoMemory>
        ensures { IfOk result (λ name. name ≡ name_in (known_modifiers self.now) number) }
    {
        name_of(alloc, self.modifiers.as_slice(), number)
    }
}
