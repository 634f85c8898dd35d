//! What is written at a place, as far as hops ask: a reference and what it names, or none.

ghost use Rattle.std.specs.Prelude.{◌≡◌, ◌==◌, Option, Some, IfOk, option_map, length};
ghost use Rattle.alias_ref.specs.References.{is_curly, alias_named, place_named};
ghost use Rattle.alias_ref.specs.Written.{reference_written, whole, text_written, object_written};
ghost use Rattle.alias_ref.specs.Written.{Written, written_as, role_at, written_in, is_reference};
ghost use Rattle.json_span.specs.View.{json_view, fields_view};
ghost use Rattle.explain.specs.inner.Saying.{role_view, Says};

use crate::places::value_in;
use alias_ref::references_named;
use group_inherit::Flat;
use json_span::{Fields, NodeRef};
use name_path::{Place, RefStop, Trail, read_curly, read_pointer};
use std::alloc::Global;
use tk_io::{NoMemory, Text};

/// How a string is read where it stands.
#[derive(Clone, Copy)]
pub(crate) enum Role {
    /// In a value: it may be a curly alias.
    Value,
    /// As the text of a `$ref` inside a value: it is no reference by itself.
    Ref,
    /// As the text of a token's own `$ref`: it is a pointer.
    Token,
}

/// What is written at a place.
#[derive(Drop)]
pub(crate) enum Said<'s> {
    /// A reference that is spelled well, with the place that it names.
    Refers(Place<'s>),
    /// A reference that is spelled wrongly.
    Misspelled,
    /// No reference, or nothing.
    Other,
}

impl<'s> Said<'s> {
    /// Whether it is a reference, spelled well or not.
    pub(crate) fn is_reference(&self) -> bool
        ensures { (w : Option Written) → Says self.now w → result ≡ is_reference w }
    {
        match self {
            Said::Refers(_) | Said::Misspelled => true,
            Said::Other => false,
        }
    }
}

/// How a string at the end of these steps into a token's value is read, where the token has a `$ref` of its own or not.
fn role_of(by_ref: bool, steps: &[Text<'_>]) -> Role
    ensures { role_view result ≡ role_at by_ref steps.now }
{
    let Some(last) = steps.last() else {
        return if by_ref { Role::Token } else { Role::Value };
    };
    if last.as_str() == "$ref" {
        Role::Ref
    } else {
        Role::Value
    }
}

/// Whether the text stands in braces.
fn is_curly(text: &str) -> bool
    ensures { result ≡ is_curly text.now }
{
    let bytes = text.as_bytes();
    bytes.len() >= 2 && bytes[0] == b'{' && bytes[bytes.len() - 1] == b'}'
}

/// The reference that a pointer spells.
fn pointed<'s>(alloc: Global, text: &Text<'s>) -> Result<Said<'s>, NoMemory>
    ensures { IfOk result (λ s. Says s (Some (reference_written (place_named text.now)))) }
{
    references_named();
    match read_pointer(alloc, text) {
        Ok(place) => Ok(Said::Refers(place)),
        Err(RefStop::BadRef) => Ok(Said::Misspelled),
        Err(RefStop::NoMemory) => Err(NoMemory),
    }
}

/// The reference that a curly alias spells.
fn aliased<'s>(alloc: Global, text: &Text<'s>) -> Result<Said<'s>, NoMemory>
    ensures { IfOk result (λ s. Says s
        (Some (reference_written (option_map whole (alias_named text.now))))) }
{
    references_named();
    match read_curly(alloc, text) {
        Ok(token) => Ok(Said::Refers(Place {
            token,
            trail: Trail::new(alloc),
        })),
        Err(RefStop::BadRef) => Ok(Said::Misspelled),
        Err(RefStop::NoMemory) => Err(NoMemory),
    }
}

fn text_said<'s>(alloc: Global, text: &Text<'s>, role: Role) -> Result<Said<'s>, NoMemory>
    ensures { IfOk result (λ s. Says s (Some (text_written (role_view role) text.now))) }
{
    match role {
        Role::Ref => Ok(Said::Other),
        Role::Token => pointed(alloc, text),
        Role::Value => {
            if is_curly(text.as_str()) {
                return aliased(alloc, text);
            }
            Ok(Said::Other)
        }
    }
}

/// Whether no member but the first is left.
fn is_alone(fields: Fields<'_, '_>) -> bool
    ensures { result ≡ (length (fields_view fields.entry) == 1) }
{
    let mut rest = fields;
    rest.next().is_some() && rest.next().is_none()
}

fn object_said<'s>(alloc: Global, fields: Fields<'_, 's>) -> Result<Said<'s>, NoMemory>
    ensures { IfOk result (λ s. Says s (Some (object_written (fields_view fields.entry)))) }
{
    let Some(node) = fields.get("$ref") else {
        return Ok(Said::Other);
    };
    if !is_alone(fields) {
        return Ok(Said::Misspelled);
    }
    let Some(text) = node.as_text(alloc)? else {
        return Ok(Said::Misspelled);
    };
    pointed(alloc, &text)
}

fn node_said<'s>(alloc: Global, node: NodeRef<'_, 's>, role: Role) -> Result<Said<'s>, NoMemory>
    ensures { IfOk result (λ s. Says s (Some (written_as (role_view role) (json_view node.entry)))) }
{
    if let Some(fields) = node.as_object() {
        return object_said(alloc, fields);
    }
    if let Some(text) = node.as_text(alloc)? {
        return text_said(alloc, &text, role);
    }
    Ok(Said::Other)
}

/// What is written at the place.
pub(crate) fn say<'s>(
    alloc: Global,
    flat: &Flat<'s>,
    place: &Place<'s>,
) -> Result<Said<'s>, NoMemory>
    ensures { IfOk result (λ s. Says s (written_in flat.now place.now)) }
{
    let Some(entry) = flat.get(&place.token) else {
        return Ok(Said::Other);
    };
    let steps = place.trail.as_slice();
    let Some(node) = value_in(entry, steps) else {
        return Ok(Said::Other);
    };
    let role = role_of(entry.def.by_ref, steps);
    node_said(alloc, node, role)
}
