//! JSON values without the places where they stand.

ghost use Rattle.std.specs.Prelude.{◌≡◌, ◌==◌, length, map, slice_get, option_map, [], OnOk, OnErr};
ghost use Rattle.json_span.specs.Plain.{plain_boolean_in, plain_number_in, plain_string_in};
ghost use Rattle.json_span.specs.Plain.{plain_array_in, plain_object_in};
ghost use Rattle.json_span.specs.PlainView.{plain_view, plain_field_view};
ghost use Rattle.json_span.specs.PlainView.{plain_items_view, plain_fields_view};
ghost use Rattle.json_span.specs.PlainView.{lent_plain, lent_field, IsItemAdded, IsFieldAdded};

use std::alloc::Global;
use std::fmt;
use tk_io::{NoMemory, Text};

/// A value of RFC 8259. Numbers are kept as they are spelled.
#[derive(Drop)]
#[cycle(plain)]
pub enum Plain<'s> {
    Null,
    Bool(bool),
    Num(&'s str),
    Str(Text<'s>),
    Arr(PlainItems<'s>),
    Obj(PlainFields<'s>),
}

/// The elements of an array, in written order.
#[derive(Drop)]
#[cycle(plain)]
pub struct PlainItems<'s> {
    list: Vec<Plain<'s>>,
}

/// The members of an object, in written order.
#[derive(Drop)]
#[cycle(plain)]
pub struct PlainFields<'s> {
    list: Vec<PlainField<'s>>,
}

/// A member: its name and its value.
#[derive(Drop)]
#[cycle(plain)]
pub struct PlainField<'s> {
    pub name: Text<'s>,
    pub value: Plain<'s>,
}

impl<'s> fmt::Debug for Plain<'s> {
    fn fmt<W: fmt::Write>(&self, f: &mut fmt::Formatter<W>) -> fmt::Result {
        f.write_str("Plain")
    }
}

impl<'s> fmt::Debug for PlainItems<'s> {
    fn fmt<W: fmt::Write>(&self, f: &mut fmt::Formatter<W>) -> fmt::Result {
        f.write_str("PlainItems")
    }
}

impl<'s> fmt::Debug for PlainFields<'s> {
    fn fmt<W: fmt::Write>(&self, f: &mut fmt::Formatter<W>) -> fmt::Result {
        f.write_str("PlainFields")
    }
}

impl<'s> fmt::Debug for PlainField<'s> {
    fn fmt<W: fmt::Write>(&self, f: &mut fmt::Formatter<W>) -> fmt::Result {
        f.write_str("PlainField")
    }
}

// The i-th of some items.
fn item_at<T>(items: &[T], i: usize) -> Option<&T>
    ensures { option_map (λ x. x.now) result ≡ slice_get items.now i }
{
    items.get(i)
}

impl<'s> Plain<'s> {
    /// The truth value, where it is one.
    pub fn as_bool(&self) -> Option<bool>
        ensures { result ≡ plain_boolean_in (plain_view self.now) }
    {
        match self {
            Plain::Bool(truth) => Some(*truth),
            _ => None,
        }
    }

    /// The spelling of the number, where it is one.
    pub fn as_number(&self) -> Option<&'s str>
        ensures { option_map (λ d. d.now) result ≡ plain_number_in (plain_view self.now) }
    {
        match self {
            Plain::Num(spelling) => Some(spelling),
            _ => None,
        }
    }

    /// The characters, where it is a string.
    pub fn as_text(&self) -> Option<&Text<'s>>
        ensures { option_map (λ t. t.now) result ≡ plain_string_in (plain_view self.now) }
    {
        match self {
            Plain::Str(text) => Some(text),
            _ => None,
        }
    }

    /// The elements, where it is an array.
    pub fn as_array(&self) -> Option<&PlainItems<'s>>
        ensures { option_map (λ i. plain_items_view i.now) result
            ≡ plain_array_in (plain_view self.now) }
    {
        match self {
            Plain::Arr(items) => Some(items),
            _ => None,
        }
    }

    /// The members, where it is an object.
    pub fn as_object(&self) -> Option<&PlainFields<'s>>
        ensures { option_map (λ f. plain_fields_view f.now) result
            ≡ plain_object_in (plain_view self.now) }
    {
        match self {
            Plain::Obj(members) => Some(members),
            _ => None,
        }
    }
}

impl<'s> PlainItems<'s> {
    /// No elements.
    pub fn new(alloc: Global) -> PlainItems<'s>
        ensures { plain_items_view result ≡ [] }
    {
        PlainItems {
            list: Vec::new(alloc),
        }
    }

    /// How many elements there are.
    pub fn len(&self) -> usize
        ensures { result ≡ length (plain_items_view self.now) }
    {
        self.list.as_slice().len()
    }

    pub fn is_empty(&self) -> bool
        ensures { result ≡ (length (plain_items_view self.now) == 0) }
    {
        self.list.as_slice().is_empty()
    }

    /// The elements.
    pub fn as_slice(&self) -> &[Plain<'s>]
        ensures { map plain_view result.now ≡ plain_items_view self.now }
    {
        self.list.as_slice()
    }

    /// The i-th element, counted from 0; none where i is not below the length.
    pub fn at(&self, i: usize) -> Option<&Plain<'s>>
        ensures { lent_plain result ≡ slice_get (plain_items_view self.now) i }
    {
        item_at(self.list.as_slice(), i)
    }

    /// Adds an element at the end. Where memory runs out it is dropped, and the list stays.
    pub fn push(&mut self, item: Plain<'s>) -> Result<(), NoMemory>
        ensures ok { OnOk result (IsItemAdded self.old item.entry self.new) }
        ensures err { OnErr result (plain_items_view self.new ≡ plain_items_view self.old) }
    {
        self.list.push(item)?;
        Ok(())
    }
}

impl<'s> PlainFields<'s> {
    /// No members.
    pub fn new(alloc: Global) -> PlainFields<'s>
        ensures { plain_fields_view result ≡ [] }
    {
        PlainFields {
            list: Vec::new(alloc),
        }
    }

    /// How many members there are.
    pub fn len(&self) -> usize
        ensures { result ≡ length (plain_fields_view self.now) }
    {
        self.list.as_slice().len()
    }

    pub fn is_empty(&self) -> bool
        ensures { result ≡ (length (plain_fields_view self.now) == 0) }
    {
        self.list.as_slice().is_empty()
    }

    /// The members.
    pub fn as_slice(&self) -> &[PlainField<'s>]
        ensures { map plain_field_view result.now ≡ plain_fields_view self.now }
    {
        self.list.as_slice()
    }

    /// The i-th member, counted from 0; none where i is not below the length.
    pub fn at(&self, i: usize) -> Option<&PlainField<'s>>
        ensures { lent_field result ≡ slice_get (plain_fields_view self.now) i }
    {
        item_at(self.list.as_slice(), i)
    }

    /// Adds a member at the end. Where memory runs out it is dropped, and the list stays.
    pub fn push(&mut self, item: PlainField<'s>) -> Result<(), NoMemory>
        ensures ok { OnOk result (IsFieldAdded self.old item.entry self.new) }
        ensures err { OnErr result (plain_fields_view self.new ≡ plain_fields_view self.old) }
    {
        self.list.push(item)?;
        Ok(())
    }
}
