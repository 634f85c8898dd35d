//! What becomes of files by an event.

use std::fmt;

/// What becomes of the files by an event. Paths are slices of the script; texts are slices of it or of the arena.
#[derive(Clone, Copy, PartialEq, Eq)]
pub enum Outcome<'s> {
    /// The file at this path has this text.
    Put(&'s str, &'s str),
    /// There is no file at this path.
    Del(&'s str),
    /// There is no file at the first path, and then the file at the second path has this text; the paths may be one.
    Move(&'s str, &'s str, &'s str),
    /// What stands is committed.
    Commit,
    /// The event does not fit what stands.
    Unfit,
}

impl<'s> fmt::Debug for Outcome<'s> {
    fn fmt<W: fmt::Write>(&self, f: &mut fmt::Formatter<W>) -> fmt::Result {
        f.write_str("Outcome")
    }
}
