//! Changes of outputs, and lists of them.

ghost use Rattle.std.specs.Prelude.{◌≡◌, [], ◌∷◌, ◌++◌, OnOk, OnErr, length, ◌==◌, map};
ghost use Rattle.std.specs.List.{slice_get};
ghost use Rattle.std.specs.Option.{option_map};
ghost use Rattle.edit_script.specs.View.{change_view};

use std::alloc::Global;
use std::fmt;
use std::marker::Model;
use tk_io::{Bytes, NoMemory};

/// The change of one output, with its record's first line, the line end included. Paths and bytes are borrowed from
/// the outputs.
#[derive(Drop)]
pub enum Change<'a> {
    /// The output at this path is held no more. The line is `gone PATH`.
    Gone(&'a str, Bytes),
    /// The output at this path is new or has other bytes, and these are they. The line is `file PATH LEN`.
    Written(&'a str, &'a [u8], Bytes),
}

impl<'a> fmt::Debug for Change<'a> {
    fn fmt<W: fmt::Write>(&self, f: &mut fmt::Formatter<W>) -> fmt::Result {
        f.write_str("Change")
    }
}

/// A list of changes, each seen with the line that it carries.
#[derive(Debug, Drop)]
pub struct Changes<'a> {
    items: Vec<Change<'a>>,
}

impl<'a> Model for Changes<'a> {
    ghost use Rattle.std.specs.Prelude.{List, map};
    ghost use Rattle.std.specs.Coded.{coded×, coded_list, coded_option, coded_ℕ};
    ghost use Rattle.edit_script.specs.View.{Lined, change_view};

    ghost Value = { List Lined };

    ghost coded = { coded_list
        (coded× (coded× (coded_list coded_ℕ) (coded_option (coded_list coded_ℕ)))
        (coded_list coded_ℕ)) };

    ghost view = { λ c. map change_view c.items.items };
}

impl<'a> Changes<'a> {
    /// No change.
    pub fn new(alloc: Global) -> Changes<'a>
        ensures { result ≡ [] }
    {
        Changes {
            items: Vec::new(alloc),
        }
    }

    /// How many changes there are.
    pub fn len(&self) -> usize
        ensures { result ≡ length self.now }
    {
        self.items.as_slice().len()
    }

    /// Whether there are none.
    pub fn is_empty(&self) -> bool
        ensures { result ≡ (length self.now == 0) }
    {
        self.len() == 0
    }

    /// The changes, in order.
    pub fn as_slice(&self) -> &[Change<'a>]
        ensures { map change_view result.now ≡ self.now }
    {
        self.items.as_slice()
    }

    /// The i-th change, counted from 0; none where i is not below the length.
    pub fn at(&self, i: usize) -> Option<&Change<'a>>
        ensures { option_map (λ c. change_view c.now) result ≡ slice_get self.now i }
    {
        self.items.as_slice().get(i)
    }

    /// Adds the change at the end. Where memory runs out the change is dropped and the list stays.
    pub fn push(&mut self, item: Change<'a>) -> Result<(), NoMemory>
        ensures ok { OnOk result (self.new ≡ self.old ++ change_view item.entry ∷ []) }
        ensures err { OnErr result (self.new ≡ self.old) }
    {
        self.items.push(item)?;
        Ok(())
    }
}
