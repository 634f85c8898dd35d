//! The members of objects.

ghost use Rattle.std.specs.Prelude.{◌≡◌, length, IfOk, option_map};
ghost use Rattle.json_span.specs.Table.{MembersIn, MembersLieIn, MemberIn, MemberLiesIn};
ghost use Rattle.json_span.specs.inner.Once.{members_once, member_once};

use crate::node_ref::{NodeRef, span_at};
use crate::table::Document;
use crate::text::{is_string_of, string_text};
use std::alloc::Global;
use std::rc::Rc;
use tk_io::{NoMemory, Text};

/// The members of an object that are still to come, in written order.
#[derive(Clone, Copy, Debug)]
pub struct Fields<'d, 's> {
    document: &'d Rc<Document<'s>>,
    at: usize,
    stop: usize,
    pub ghost stand: { MembersIn document.now.value at stop } by { members_once _ _ at stop },
}

/// A member: its name, the byte offsets of the name's string, and its value.
#[derive(Clone, Copy, Debug)]
pub struct Field<'d, 's> {
    document: &'d Rc<Document<'s>>,
    at: usize,
    pub ghost stands: { MemberIn document.now.value at } by { member_once _ _ at },
}

impl<'d, 's> Fields<'d, 's> {
    ghost use Rattle.json_span.specs.Tree.{Members, entries_in, value_of_name};
    ghost use Rattle.json_span.specs.View.{ref_view, fields_view};

    // The members from this place to the other.
    pub(crate) fn new(document: &'d Rc<Document<'s>>, at: usize, stop: usize) -> Fields<'d, 's>
        requires { MembersIn document.now.value at stop }
        ensures { (ms : Members) → MembersLieIn document.entry.now.value at stop ms
            → fields_view result ≡ entries_in ms }
    {
        Fields { document, at, stop }
    }

    /// How many there are: a walk over them.
    pub fn len(&self) -> usize
        ensures { result ≡ length (fields_view self.now) }
    {
        let mut count = 0;
        for _ in *self {
            count += 1;
        }
        count
    }

    /// The value of the first member of this name; none where there is no such member.
    pub fn get(&self, name: &str) -> Option<NodeRef<'d, 's>>
        ensures { option_map ref_view result ≡ value_of_name name.now (fields_view self.now) }
    {
        for field in *self {
            if field.is_named(name) {
                return Some(field.value());
            }
        }
        None
    }
}

impl<'d, 's> Iterator for Fields<'d, 's> {
    ghost use Rattle.std.specs.Iterator.{YieldsFirstBy, item_count};
    ghost use Rattle.json_span.specs.View.{field_view, fields_view};

    type Item = Field<'d, 's>;

    ghost next_gives = { YieldsFirstBy field_view fields_view };

    ghost remaining = { item_count fields_view };

    /// The next member, and none after the last one.
    fn next(&mut self) -> Option<Field<'d, 's>> {
        if self.at >= self.stop {
            return None;
        }
        let field = Field::new(self.document, self.at);
        let next = span_at(self.document, self.at).next as usize;
        *self = Fields::new(self.document, next, self.stop);
        Some(field)
    }
}

impl<'d, 's> Field<'d, 's> {
    ghost use Rattle.std.specs.Str.{bytes_eq};
    ghost use Rattle.json_span.specs.Tree.{Entry};
    ghost use Rattle.json_span.specs.View.{ref_view, field_view};

    // The member whose value stands at this place.
    fn new(document: &'d Rc<Document<'s>>, at: usize) -> Field<'d, 's>
        requires { MemberIn document.now.value at }
        ensures { (e : Entry) → MemberLiesIn document.entry.now.value at e → field_view result ≡ e }
    {
        Field { document, at }
    }

    /// The offset of the first byte of its name's string, which is the quote.
    pub fn start(self) -> usize
        ensures { result ≡ (field_view self.entry).start }
    {
        span_at(self.document, self.at).name as usize
    }

    /// The offset after the last byte of its name's string.
    pub fn end(self) -> usize
        ensures { result ≡ (field_view self.entry).end }
    {
        span_at(self.document, self.at).name_end as usize
    }

    /// Its name: a slice of the text where no escape stands in it.
    pub fn name(self, alloc: Global) -> Result<Text<'s>, NoMemory>
        ensures { IfOk result (λ t. t ≡ (field_view self.entry).name) }
    {
        string_text(alloc, self.document.text, self.start())
    }

    /// Whether this is its name.
    pub fn is_named(self, name: &str) -> bool
        ensures { result ≡ bytes_eq (field_view self.entry).name name.now }
    {
        is_string_of(self.document.text, self.start(), name)
    }

    /// Its value.
    pub fn value(self) -> NodeRef<'d, 's>
        ensures { ref_view result ≡ (field_view self.entry).value }
    {
        NodeRef::new(self.document, self.at)
    }
}
