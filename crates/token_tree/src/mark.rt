//! Marks of deprecation.

ghost use Rattle.std.specs.Prelude.{◌≡◌, IfOk};

use std::fmt;
use tk_io::{NoMemory, Text};

/// What `$deprecated` says: `false`, `true`, or a text that gives the reason.
#[derive(Drop)]
pub enum Mark<'s> {
    No,
    Yes,
    Because(Text<'s>),
}

impl<'s> fmt::Debug for Mark<'s> {
    fn fmt<W: fmt::Write>(&self, f: &mut fmt::Formatter<W>) -> fmt::Result {
        f.write_str("Mark")
    }
}

impl<'s> Mark<'s> {
    /// The same mark, which shares the text.
    pub fn copy(&self) -> Result<Mark<'s>, NoMemory>
        ensures { IfOk result (λ m. m ≡ self.now) }
    {
        match self {
            Mark::No => Ok(Mark::No),
            Mark::Yes => Ok(Mark::Yes),
            Mark::Because(text) => Ok(Mark::Because(text.copy()?)),
        }
    }
}
