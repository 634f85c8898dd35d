//! Values of JSON texts, borrowed.

ghost use Rattle.std.specs.Prelude.{◌≡◌, ℕ, ◌+◌, Some, IfOk, option_map, slice_get};
ghost use Rattle.json_span.specs.Tree.{Placed, start_of, end_of, is_null, boolean_in};
ghost use Rattle.json_span.specs.Tree.{number_in, string_in, array_in, object_in};
ghost use Rattle.json_span.specs.Table.{ValueIn, LiesIn, size, span};
ghost use Rattle.json_span.specs.inner.Once.{value_once};

use crate::copying::plain_value;
use crate::fields::Fields;
use crate::items::Items;
use crate::node::Node;
use crate::plain::Plain;
use crate::table::{Document, Span};
use crate::text::string_text;
use crate::value_type::{ValueType, type_of_byte};
use std::alloc::Global;
use std::rc::Rc;
use tk_io::{NoMemory, Text};

/// A value of a JSON text, borrowed from a [`Node`] of the text. Offsets are bytes of the text.
/// Nothing of a value is decoded or copied before it is asked for.
#[derive(Clone, Copy, Debug)]
pub struct NodeRef<'d, 's> {
    document: &'d Rc<Document<'s>>,
    at: usize,
    pub ghost stands: { ValueIn document.now.value at } by { value_once _ _ at },
}

/// The span of the value that stands at this place.
pub(crate) fn span_at(document: &Rc<Document<'_>>, at: usize) -> Span
    requires { ValueIn document.now.value at }
    ensures { (a z : ℕ) (t : Placed) → LiesIn document.now.value a z at t
        → result ≡ span a z (start_of t) (end_of t) (at + size t) }
{
    document.nodes[at]
}

impl<'d, 's> NodeRef<'d, 's> {
    ghost use Rattle.json_span.specs.Types.{type_of};
    ghost use Rattle.json_span.specs.View.{node_view, ref_view, json_view, items_view, fields_view};
    ghost use Rattle.json_span.specs.Says.{plain_of};
    ghost use Rattle.json_span.specs.PlainView.{plain_view, as_spelled};

    // The value that stands at this place.
    pub(crate) fn new(document: &'d Rc<Document<'s>>, at: usize) -> NodeRef<'d, 's>
        requires { ValueIn document.now.value at }
        ensures { (a z : ℕ) (t : Placed) → LiesIn document.entry.now.value a z at t
            → ref_view result ≡ t }
    {
        NodeRef { document, at }
    }

    // The row of the table for this value.
    fn span(self) -> Span
        ensures { result ≡ span self.entry.stands.0.0 self.entry.stands.0.1.0
            (start_of (ref_view self.entry)) (end_of (ref_view self.entry))
            (self.entry.at + size (ref_view self.entry)) }
    {
        span_at(self.document, self.at)
    }

    // Its first byte.
    fn first_byte(self) -> u8
        ensures { slice_get self.entry.document.now.value.text.now
            (start_of (ref_view self.entry)) ≡ Some result }
    {
        let start = self.span().start as usize;
        self.document.text.as_bytes()[start]
    }

    /// The same value, with a share of the table of the text's values.
    pub fn node(self) -> Result<Node<'s>, NoMemory>
        ensures { IfOk result (λ n. node_view n ≡ ref_view self.entry) }
    {
        let document = self.document.clone()?;
        Ok(Node::new(document, self.at))
    }

    /// The offset of its first byte.
    pub fn start(self) -> usize
        ensures { result ≡ start_of (ref_view self.entry) }
    {
        self.span().start as usize
    }

    /// The offset after its last byte.
    pub fn end(self) -> usize
        ensures { result ≡ end_of (ref_view self.entry) }
    {
        self.span().end as usize
    }

    /// Its type.
    pub fn value_type(self) -> ValueType
        ensures { result ≡ type_of (json_view self.entry) }
    {
        type_of_byte(self.first_byte())
    }

    /// Whether it is `null`.
    pub fn is_null(self) -> bool
        ensures { result ≡ is_null (json_view self.entry) }
    {
        self.value_type() == ValueType::Null
    }

    /// The truth value, where it is one.
    pub fn as_bool(self) -> Option<bool>
        ensures { result ≡ boolean_in (json_view self.entry) }
    {
        if self.value_type() != ValueType::Boolean {
            return None;
        }
        Some(self.first_byte() == b't')
    }

    /// The spelling of the number, where it is one.
    pub fn as_number(self) -> Option<&'s str>
        ensures { option_map (λ d. d.now) result ≡ number_in (json_view self.entry) }
    {
        if self.value_type() != ValueType::Number {
            return None;
        }
        let span = self.span();
        let text = self.document.text;
        Some(&text[span.start as usize..span.end as usize])
    }

    /// The characters, where it is a string: a slice of the text where no escape stands in it.
    pub fn as_text(self, alloc: Global) -> Result<Option<Text<'s>>, NoMemory>
        ensures { IfOk result (λ t. t ≡ string_in (json_view self.entry)) }
    {
        if self.value_type() != ValueType::String {
            return Ok(None);
        }
        let text = string_text(alloc, self.document.text, self.start())?;
        Ok(Some(text))
    }

    /// The elements, where it is an array.
    pub fn as_array(self) -> Option<Items<'d, 's>>
        ensures { option_map items_view result ≡ array_in (json_view self.entry) }
    {
        if self.value_type() != ValueType::Array {
            return None;
        }
        let stop = self.span().next as usize;
        Some(Items::new(self.document, self.at + 1, stop))
    }

    /// The members, where it is an object.
    pub fn as_object(self) -> Option<Fields<'d, 's>>
        ensures { option_map fields_view result ≡ object_in (json_view self.entry) }
    {
        if self.value_type() != ValueType::Object {
            return None;
        }
        let stop = self.span().next as usize;
        Some(Fields::new(self.document, self.at + 1, stop))
    }

    /// The same value without the places where its parts stand.
    pub fn to_plain(self, alloc: Global) -> Result<Plain<'s>, NoMemory>
        ensures { IfOk result (λ p. plain_view p ≡ plain_of as_spelled (ref_view self.entry)) }
    {
        plain_value(alloc, self)
    }
}
