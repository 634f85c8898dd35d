//! Values of JSON texts.

ghost use Rattle.std.specs.Prelude.{◌≡◌, ℕ, IfOk, option_map};
ghost use Rattle.json_span.specs.Tree.{Placed, tree_of, start_of, end_of, is_null, boolean_in};
ghost use Rattle.json_span.specs.Tree.{number_in, string_in, array_in, object_in};
ghost use Rattle.json_span.specs.Table.{ValueIn, LiesIn};
ghost use Rattle.json_span.specs.inner.Once.{value_once};

use crate::fields::Fields;
use crate::items::Items;
use crate::node_ref::NodeRef;
use crate::plain::Plain;
use crate::table::Document;
use crate::value_type::ValueType;
use std::alloc::Global;
use std::rc::Rc;
use tk_io::{NoMemory, Text};

/// A value of a JSON text, with a share of the table of the text's values. It is two words, and a
/// copy of it is a count. Offsets are bytes of the text.
#[derive(Debug, Drop)]
pub struct Node<'s> {
    document: Rc<Document<'s>>,
    at: usize,
    pub ghost stands: { ValueIn document.value at } by { value_once _ _ at },
}

impl<'s> Node<'s> {
    ghost use Rattle.json_span.specs.Types.{type_of};
    ghost use Rattle.json_span.specs.View.{node_view, ref_view, items_view, fields_view};
    ghost use Rattle.json_span.specs.Says.{plain_of};
    ghost use Rattle.json_span.specs.PlainView.{plain_view, as_spelled};

    // The value that stands at this place.
    pub(crate) fn new(document: Rc<Document<'s>>, at: usize) -> Node<'s>
        requires { ValueIn document.value at }
        ensures { (a z : ℕ) (t : Placed) → LiesIn document.entry.value a z at t
            → node_view result ≡ t }
    {
        Node { document, at }
    }

    /// The same value, with one more share of its table.
    pub fn copy(&self) -> Result<Node<'s>, NoMemory>
        ensures { IfOk result (λ n. node_view n ≡ node_view self.now) }
    {
        let document = self.document.clone()?;
        Ok(Node::new(document, self.at))
    }

    /// The same value, borrowed: what passes over a value takes.
    pub fn as_ref<'d>(&'d self) -> NodeRef<'d, 's>
        ensures { ref_view result ≡ node_view self.now }
    {
        NodeRef::new(&self.document, self.at)
    }

    /// The offset of its first byte.
    pub fn start(&self) -> usize
        ensures { result ≡ start_of (node_view self.now) }
    {
        self.as_ref().start()
    }

    /// The offset after its last byte.
    pub fn end(&self) -> usize
        ensures { result ≡ end_of (node_view self.now) }
    {
        self.as_ref().end()
    }

    /// Its type.
    pub fn value_type(&self) -> ValueType
        ensures { result ≡ type_of (tree_of (node_view self.now)) }
    {
        self.as_ref().value_type()
    }

    /// Whether it is `null`.
    pub fn is_null(&self) -> bool
        ensures { result ≡ is_null (tree_of (node_view self.now)) }
    {
        self.as_ref().is_null()
    }

    /// The truth value, where it is one.
    pub fn as_bool(&self) -> Option<bool>
        ensures { result ≡ boolean_in (tree_of (node_view self.now)) }
    {
        self.as_ref().as_bool()
    }

    /// The spelling of the number, where it is one.
    pub fn as_number(&self) -> Option<&'s str>
        ensures { option_map (λ d. d.now) result ≡ number_in (tree_of (node_view self.now)) }
    {
        self.as_ref().as_number()
    }

    /// The characters, where it is a string.
    pub fn as_text(&self, alloc: Global) -> Result<Option<Text<'s>>, NoMemory>
        ensures { IfOk result (λ t. t ≡ string_in (tree_of (node_view self.now))) }
    {
        self.as_ref().as_text(alloc)
    }

    /// The elements, where it is an array.
    pub fn as_array<'d>(&'d self) -> Option<Items<'d, 's>>
        ensures { option_map items_view result ≡ array_in (tree_of (node_view self.now)) }
    {
        self.as_ref().as_array()
    }

    /// The members, where it is an object.
    pub fn as_object<'d>(&'d self) -> Option<Fields<'d, 's>>
        ensures { option_map fields_view result ≡ object_in (tree_of (node_view self.now)) }
    {
        self.as_ref().as_object()
    }

    /// The same value without the places where its parts stand.
    pub fn to_plain(&self, alloc: Global) -> Result<Plain<'s>, NoMemory>
        ensures { IfOk result (λ p. plain_view p ≡ plain_of as_spelled (node_view self.now)) }
    {
        self.as_ref().to_plain(alloc)
    }
}
