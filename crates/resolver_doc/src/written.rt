//! What a resolver document says of sources, sets and items.

use json_span::NodeRef;
use std::fmt;
use tk_io::{Sequence, Text};

/// A source as it is written.
#[derive(Drop)]
pub enum WrittenSource<'a, 's> {
    /// A file: its name, and the byte offsets of the beginning and the end of the string that names it.
    File(Text<'s>, usize, usize),
    /// A set: its name, and its number among the document's sets, counted from 0.
    SetRef(Text<'s>, usize),
    /// Tokens that are written in the document.
    Inline(NodeRef<'a, 's>),
}

impl<'a, 's> fmt::Debug for WrittenSource<'a, 's> {
    fn fmt<W: fmt::Write>(&self, f: &mut fmt::Formatter<W>) -> fmt::Result {
        f.write_str("WrittenSource")
    }
}

/// Sources, in written order.
pub type Written<'a, 's> = Sequence<WrittenSource<'a, 's>>;

/// A set, or a context of a modifier: its name and its sources.
#[derive(Drop)]
pub struct SetDef<'a, 's> {
    pub name: Text<'s>,
    pub sources: Written<'a, 's>,
}

/// The sets of a document, in document order.
pub type Sets<'a, 's> = Sequence<SetDef<'a, 's>>;

/// The contexts of a modifier, in document order.
pub type Contexts<'a, 's> = Sequence<SetDef<'a, 's>>;

/// An item of the order. An item that is a reference is what it names.
#[derive(Drop)]
pub enum Item<'a, 's> {
    /// The sources of a set.
    Set(Written<'a, 's>),
    /// A modifier: its name, its contexts, and the name of its default context, where given.
    Modifier(Text<'s>, Contexts<'a, 's>, Option<Text<'s>>),
}

/// The items, in the order of resolution.
pub type Order<'a, 's> = Sequence<Item<'a, 's>>;
