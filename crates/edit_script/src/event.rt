//! Events, and lists of them.

ghost use Rattle.std.specs.Prelude.{◌≡◌, [], ◌∷◌, ◌++◌, OnOk, OnErr, length, ◌==◌, map};
ghost use Rattle.std.specs.List.{slice_get};
ghost use Rattle.std.specs.Option.{option_map};
ghost use Rattle.edit_script.specs.Files.{path_of};
ghost use Rattle.edit_script.specs.View.{event_view};

use std::alloc::Global;
use std::fmt;
use std::marker::Model;
use tk_io::NoMemory;

/// One event of a script. Paths and texts are slices of the script; offsets are in bytes.
#[derive(Clone, Copy, PartialEq, Eq)]
pub enum Event<'s> {
    /// The file at this path gets this text.
    Put(&'s str, &'s str),
    /// The file at this path is given up.
    Del(&'s str),
    /// The text of the file at the first path goes to the second path, and the first file is given up.
    Move(&'s str, &'s str),
    /// The bytes from the first offset to the second, of the text of the file at this path, are replaced by these.
    Patch(&'s str, usize, usize, &'s str),
    /// What stands is committed.
    Commit,
}

impl<'s> fmt::Debug for Event<'s> {
    fn fmt<W: fmt::Write>(&self, f: &mut fmt::Formatter<W>) -> fmt::Result {
        f.write_str("Event")
    }
}

impl<'s> Event<'s> {
    /// The path whose text the event looks at: its own, and of a move the first; none of a commit.
    pub fn path(&self) -> Option<&'s str>
        ensures { option_map (λ path. path.now) result ≡ path_of (event_view self.now) }
    {
        match self {
            Event::Put(path, _)
            | Event::Del(path)
            | Event::Move(path, _)
            | Event::Patch(path, _, _, _) => Some(path),
            Event::Commit => None,
        }
    }
}

/// The events of a script, in order.
#[derive(Debug, Drop)]
pub struct Events<'s> {
    items: Vec<Event<'s>>,
}

impl<'s> Model for Events<'s> {
    ghost use Rattle.std.specs.Prelude.{List, map};
    ghost use Rattle.std.specs.Coded.{coded_list};
    ghost use Rattle.edit_script.specs.Codes.{coded_event};
    ghost use Rattle.edit_script.specs.Script.{EventData};
    ghost use Rattle.edit_script.specs.View.{event_view};

    ghost Value = { List EventData };

    ghost coded = { coded_list coded_event };

    ghost view = { λ e. map event_view e.items.items };
}

impl<'s> Events<'s> {
    /// No event.
    pub fn new(alloc: Global) -> Events<'s>
        ensures { result ≡ [] }
    {
        Events {
            items: Vec::new(alloc),
        }
    }

    /// How many events there are.
    pub fn len(&self) -> usize
        ensures { result ≡ length self.now }
    {
        self.items.as_slice().len()
    }

    /// Whether there are none.
    pub fn is_empty(&self) -> bool
        ensures { result ≡ (length self.now == 0) }
    {
        self.len() == 0
    }

    /// The events, in order.
    pub fn as_slice(&self) -> &[Event<'s>]
        ensures { map event_view result.now ≡ self.now }
    {
        self.items.as_slice()
    }

    /// The i-th event, counted from 0; none where i is not below the length.
    pub fn at(&self, i: usize) -> Option<&Event<'s>>
        ensures { option_map (λ e. event_view e.now) result ≡ slice_get self.now i }
    {
        self.items.as_slice().get(i)
    }

    /// Adds the event at the end. Where memory runs out the list stays.
    pub fn push(&mut self, item: Event<'s>) -> Result<(), NoMemory>
        ensures ok { OnOk result (self.new ≡ self.old ++ event_view item.entry ∷ []) }
        ensures err { OnErr result (self.new ≡ self.old) }
    {
        self.items.push(item)?;
        Ok(())
    }
}
