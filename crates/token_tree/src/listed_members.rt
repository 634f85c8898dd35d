//! The listed members of an object, found in one pass over its members.

ghost use Rattle.std.specs.Prelude.{◌≡◌, false, IfOk, List, OnOk, option_map};
ghost use Rattle.std.specs.Option.{option_or};
ghost use Rattle.json_span.specs.Tree.{Entry};
ghost use Rattle.json_span.specs.View.{field_view, fields_view, ref_view};
ghost use Rattle.token_tree.specs.Shape.{are_token};
ghost use Rattle.token_tree.specs.Texts.{is_reserved};
ghost use Rattle.token_tree.specs.inner.Listed.{AreListed, IsNoted, if_named};
ghost use Rattle.token_tree.specs.inner.Names.{NameStands, NamesStand};

use crate::properties::is_word;
use json_span::{Field, Fields, NodeRef};
use std::alloc::Global;
use tk_io::NoMemory;

/// What stands under each listed name: the value of the first member of that name.
#[derive(Clone, Copy)]
pub(crate) struct ListedMembers<'d, 's> {
    pub value: Option<NodeRef<'d, 's>>,
    pub reference: Option<NodeRef<'d, 's>>,
    pub kind: Option<NodeRef<'d, 's>>,
    pub description: Option<NodeRef<'d, 's>>,
    pub extensions: Option<NodeRef<'d, 's>>,
    pub deprecated: Option<NodeRef<'d, 's>>,
    pub extends: Option<NodeRef<'d, 's>>,
}

impl<'d, 's> ListedMembers<'d, 's> {
    /// Those among an object's members.
    pub(crate) fn among(
        alloc: Global,
        text: &str,
        fields: &Fields<'d, 's>,
    ) -> Result<ListedMembers<'d, 's>, NoMemory>
        requires { NamesStand text.now (fields_view fields.now) }
        ensures { IfOk result (λ l. AreListed l (fields_view fields.now)) }
    {
        let mut listed = ListedMembers {
            value: None,
            reference: None,
            kind: None,
            description: None,
            extensions: None,
            deprecated: None,
            extends: None,
        };
        for field in *fields {
            listed.note(alloc, text, field)?;
        }
        Ok(listed)
    }

    // Takes a member in, where it is the first of a listed name.
    fn note(&mut self, alloc: Global, text: &str, field: Field<'d, 's>) -> Result<(), NoMemory>
        requires { NameStands text.now (field_view field) }
        ensures { OnOk result (IsNoted (field_view field.entry).name (field_view field.entry).value
            self.old self.new) }
    {
        if !may_be_listed(text, field) {
            return Ok(());
        }
        let name = field.name(alloc)?;
        self.note_named(name.as_str(), field.value());
        Ok(())
    }

    // Notes the value of a member whose name is that of a property, unless an earlier member has the name.
    fn note_named(&mut self, name: &str, value: NodeRef<'d, 's>)
        ensures { IsNoted name.now (ref_view value.entry) self.old self.new }
    {
        if is_word(name, "$value") {
            self.value = self.value.or(Some(value));
            return;
        }
        self.reference = first(self.reference, "$ref", name, value);
        self.kind = first(self.kind, "$type", name, value);
        self.description = first(self.description, "$description", name, value);
        self.extensions = first(self.extensions, "$extensions", name, value);
        self.deprecated = first(self.deprecated, "$deprecated", name, value);
        self.extends = first(self.extends, "$extends", name, value);
    }

    /// Whether an object of these members is a token.
    pub(crate) fn are_token(&self) -> bool
        ensures { (es : List Entry) → AreListed self.now es → result ≡ are_token es }
    {
        self.value.is_some() || self.reference.is_some()
    }
}

// Whether the name may begin with `$`: its string begins with that byte, or with an escape.
fn may_be_listed(text: &str, field: Field<'_, '_>) -> bool
    requires { NameStands text.now (field_view field) }
    ensures { result ≡ false → is_reserved (field_view field.entry).name ≡ false }
{
    let byte = text.as_bytes()[field.start() + 1];
    byte == b'$' || byte == b'\\'
}

// What was found before, or else the value, where it stands under the name that is wanted.
fn first<'d, 's>(
    found: Option<NodeRef<'d, 's>>,
    wanted: &str,
    name: &str,
    value: NodeRef<'d, 's>,
) -> Option<NodeRef<'d, 's>>
    ensures { option_map ref_view result ≡ option_or (option_map ref_view found.entry)
        (if_named wanted.now name.now (ref_view value.entry)) }
{
    if is_word(name, wanted) {
        return found.or(Some(value));
    }
    found
}
