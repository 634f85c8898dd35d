//! The table of a text's values.

use std::fmt;

/// The offsets of a member's name (0 where there is none) and of a value, and the place after the
/// value's last part.
#[derive(Clone, Copy)]
pub(crate) struct Span {
    pub(crate) name: u32,
    pub(crate) name_end: u32,
    pub(crate) start: u32,
    pub(crate) end: u32,
    pub(crate) next: u32,
}

/// A text, and the spans of its values, each before its parts.
#[derive(Drop)]
pub(crate) struct Document<'s> {
    pub(crate) text: &'s str,
    pub(crate) nodes: Vec<Span>,
}

impl<'s> fmt::Debug for Document<'s> {
    fn fmt<W: fmt::Write>(&self, f: &mut fmt::Formatter<W>) -> fmt::Result {
        f.write_str("Document")
    }
}
