//! What is written at a place, as far as a walk looks at it.

ghost use Rattle.std.specs.Prelude.{◌≡◌, ◌==◌, ◌&&◌, [], false, Some, IfOk};
ghost use Rattle.std.specs.Prelude.{option_map, length};
ghost use Rattle.alias_ref.specs.References.{is_curly, alias_named, place_named};
ghost use Rattle.alias_ref.specs.Written.{reference_written, whole};
ghost use Rattle.alias_ref.specs.Written.{parts_by_name, text_written};
ghost use Rattle.alias_ref.specs.Written.{object_written, is_misspelled, is_reference};
ghost use Rattle.alias_ref.specs.inner.Contents.{content_view, content_parts, IsContent, role_of};
ghost use Rattle.json_span.specs.View.{json_view, fields_view};

use json_span::{Fields, Items, NodeRef, Plain};
use name_path::{Place, RefStop, Trail, read_curly, read_pointer};
use std::alloc::Global;
use tk_io::{NoMemory, Text};

/// What is written at a place.
#[derive(Drop)]
pub(crate) enum Content<'a, 's> {
    /// Null, a truth value, a number or a text.
    Leaf(Plain<'s>),
    /// An array, with its items.
    Array(Items<'a, 's>),
    /// An object, with its members.
    Object(Fields<'a, 's>),
    /// A reference that is spelled well, with the place that it names.
    Refers(Place<'s>),
    /// A reference that is spelled wrongly.
    Misspelled,
}

/// Whether a text has the braces of a curly alias.
pub(crate) fn is_curly(text: &str) -> bool
    ensures { result ≡ is_curly text.now }
{
    let bytes = text.as_bytes();
    bytes.len() >= 2 && bytes[0] == b'{' && bytes[bytes.len() - 1] == b'}'
}

/// The reference that a pointer spells.
fn pointed<'a, 's>(alloc: Global, text: &Text<'s>) -> Result<Content<'a, 's>, NoMemory>
    ensures written { IfOk result (λ c. content_view c ≡ reference_written (place_named text.now)) }
    ensures parts { IfOk result (λ c. content_parts c ≡ []) }
{
    match read_pointer(alloc, text) {
        Ok(place) => Ok(Content::Refers(place)),
        Err(RefStop::BadRef) => Ok(Content::Misspelled),
        Err(RefStop::NoMemory) => Err(NoMemory),
    }
}

/// The reference that a curly alias spells.
fn aliased<'a, 's>(alloc: Global, text: &Text<'s>) -> Result<Content<'a, 's>, NoMemory>
    ensures written { IfOk result (λ c. content_view c
        ≡ reference_written (option_map whole (alias_named text.now))) }
    ensures parts { IfOk result (λ c. content_parts c ≡ []) }
{
    match read_curly(alloc, text) {
        Ok(token) => Ok(Content::Refers(Place {
            token,
            trail: Trail::new(alloc),
        })),
        Err(RefStop::BadRef) => Ok(Content::Misspelled),
        Err(RefStop::NoMemory) => Err(NoMemory),
    }
}

/// What a text is where it stands. `by_ref` says that it is that of a token's own `$ref`.
fn text_content<'a, 's>(
    alloc: Global,
    text: Text<'s>,
    by_ref: bool,
) -> Result<Content<'a, 's>, NoMemory>
    ensures written { IfOk result (λ c. content_view c ≡ text_written (role_of by_ref) text.entry) }
    ensures parts { IfOk result (λ c. content_parts c ≡ []) }
{
    if by_ref {
        return pointed(alloc, &text);
    }
    if is_curly(text.as_str()) {
        return aliased(alloc, &text);
    }
    Ok(Content::Leaf(Plain::Str(text)))
}

/// Whether no member but the first is left.
fn is_alone(fields: Fields<'_, '_>) -> bool
    ensures { result ≡ (length (fields_view fields.entry) == 1) }
{
    let mut rest = fields;
    rest.next().is_some() && rest.next().is_none()
}

/// What an object is: a reference where it has a member `$ref`, which has to be its only one.
fn object_content<'a, 's>(
    alloc: Global,
    fields: Fields<'a, 's>,
) -> Result<Content<'a, 's>, NoMemory>
    ensures written { IfOk result (λ c. content_view c
        ≡ object_written (fields_view fields.entry)) }
    ensures parts { IfOk result (λ c. is_reference (Some (content_view c)) ≡ false
        → content_parts c ≡ parts_by_name (fields_view fields.entry)) }
{
    let Some(node) = fields.get("$ref") else {
        return Ok(Content::Object(fields));
    };
    if !is_alone(fields) {
        return Ok(Content::Misspelled);
    }
    let Some(text) = node.as_text(alloc)? else {
        return Ok(Content::Misspelled);
    };
    pointed(alloc, &text)
}

/// What is written as a value. `by_ref` says that it is the text of a token's own `$ref`.
pub(crate) fn read_content<'a, 's>(
    alloc: Global,
    node: NodeRef<'a, 's>,
    by_ref: bool,
) -> Result<Content<'a, 's>, NoMemory>
    ensures { IfOk result (λ c. IsContent c (role_of by_ref) (json_view node.entry)) }
{
    if let Some(items) = node.as_array() {
        return Ok(Content::Array(items));
    }
    if let Some(fields) = node.as_object() {
        return object_content(alloc, fields);
    }
    if let Some(text) = node.as_text(alloc)? {
        return text_content(alloc, text, by_ref);
    }
    if let Some(spelling) = node.as_number() {
        return Ok(Content::Leaf(Plain::Num(spelling)));
    }
    if let Some(truth) = node.as_bool() {
        return Ok(Content::Leaf(Plain::Bool(truth)));
    }
    Ok(Content::Leaf(Plain::Null))
}

impl<'a, 's> Content<'a, 's> {
    /// Whether it is a reference, spelled well or not.
    pub(crate) fn is_reference(&self) -> bool
        ensures { result ≡ is_reference (Some (content_view self.now)) }
    {
        match self {
            Content::Leaf(_) | Content::Array(_) | Content::Object(_) => false,
            Content::Refers(_) | Content::Misspelled => true,
        }
    }

    /// Whether it is a reference that is spelled wrongly.
    pub(crate) fn is_misspelled(&self) -> bool
        ensures { result ≡ is_misspelled (Some (content_view self.now)) }
    {
        match self {
            Content::Leaf(_) | Content::Array(_) | Content::Object(_) | Content::Refers(_) => false,
            Content::Misspelled => true,
        }
    }
}
