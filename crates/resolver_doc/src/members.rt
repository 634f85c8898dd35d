//! Members of values, by their names and their numbers.

ghost use Rattle.std.specs.Prelude.{◌≡◌, [], ℕ, List, IfOk, OnOk, option_map, unwrap_or};
ghost use Rattle.std.specs.Prelude.{map as map_list};
ghost use Rattle.std.specs.FinMap as map;
ghost use Rattle.json_span.specs.Tree.{value_of_name};
ghost use Rattle.json_span.specs.View.{ref_view, field_view};
ghost use Rattle.resolver_doc.specs.Form.{entries_at};
ghost use Rattle.resolver_doc.specs.Document.{section, pointer, pointed_number, name_in, text_at};
ghost use Rattle.resolver_doc.specs.Document.{member_text};
ghost use Rattle.resolver_doc.specs.inner.Pointers.{AddsFirst};

use crate::form::is_counted;
use crate::pointers::{Pointers, pointer};
use json_span::{Field, NodeRef};
use std::alloc::Global;
use tk_io::{NoMemory, Text};

/// The value of the member of this name.
pub(crate) fn member<'a, 's>(node: NodeRef<'a, 's>, name: &str) -> Option<NodeRef<'a, 's>>
    ensures { option_map ref_view result
        ≡ value_of_name name.now (entries_at (ref_view node.entry)) }
{
    let Some(fields) = node.as_object() else {
        return None;
    };
    fields.get(name)
}

/// The characters of a string; none of another value.
pub(crate) fn text_at<'s>(alloc: Global, node: NodeRef<'_, 's>) -> Result<Text<'s>, NoMemory>
    ensures { IfOk result (λ text. text ≡ text_at (ref_view node.entry)) }
{
    match node.as_text(alloc)? {
        Some(text) => Ok(text),
        None => Ok(Text::of("")),
    }
}

/// The members of a section of the document that count.
pub(crate) fn members<'a, 's>(
    alloc: Global,
    root: NodeRef<'a, 's>,
    name: &str,
) -> Result<Vec<Field<'a, 's>>, NoMemory>
    ensures { IfOk result (λ members. map_list field_view members.items
        ≡ section name.now (entries_at (ref_view root.entry))) }
{
    let mut members = Vec::new(alloc);
    let Some(node) = member(root, name) else {
        return Ok(members);
    };
    let Some(fields) = node.as_object() else {
        return Ok(members);
    };
    for field in fields {
        if is_counted(alloc, field)? {
            members.push(field)?;
        }
    }
    Ok(members)
}

// Notes the number of a member under the pointer that names it, unless an earlier member has that pointer.
fn add_number(
    alloc: Global,
    name: &str,
    field: Field<'_, '_>,
    number: usize,
    numbers: &mut Pointers,
) -> Result<(), NoMemory>
    ensures { OnOk result
        (AddsFirst numbers.old numbers.new (pointer name.now (field_view field.entry)) number) }
{
    let text = pointer(alloc, name, field.name(alloc)?.as_str())?;
    numbers.put_first(text.as_slice(), number)
}

/// The numbers of members by the pointers that name them.
pub(crate) fn numbers(
    alloc: Global,
    name: &str,
    members: &[Field<'_, '_>],
) -> Result<Pointers, NoMemory>
    ensures { IfOk result (λ numbers. (text : List ℕ)
        → map.get numbers text ≡ pointed_number name.now (map_list field_view members.now) text) }
{
    let mut numbers = Pointers::new(alloc);
    for (number, field) in members.iter().enumerate() {
        add_number(alloc, name, *field, number, &mut numbers)?;
    }
    Ok(numbers)
}

/// The name of the member of the number.
pub(crate) fn name_of<'s>(
    alloc: Global,
    members: &[Field<'_, 's>],
    number: usize,
) -> Result<Text<'s>, NoMemory>
    ensures { IfOk result (λ name. name ≡ name_in (map_list field_view members.now) number) }
{
    match members.get(number) {
        Some(field) => Ok(field.name(alloc)?),
        None => Ok(Text::of("")),
    }
}

/// The text of the member of this name, where it is one.
pub(crate) fn member_text<'s>(
    alloc: Global,
    node: NodeRef<'_, 's>,
    name: &str,
) -> Result<Option<Text<'s>>, NoMemory>
    ensures { IfOk result (λ text. text ≡ member_text name.now (entries_at (ref_view node.entry))) }
{
    match member(node, name) {
        Some(value) => value.as_text(alloc),
        None => Ok(None),
    }
}

/// The text of the member of this name; the empty text where there is none.
pub(crate) fn text_or_empty<'s>(
    alloc: Global,
    node: NodeRef<'_, 's>,
    name: &str,
) -> Result<Text<'s>, NoMemory>
    ensures { IfOk result
        (λ text. text ≡ unwrap_or (member_text name.now (entries_at (ref_view node.entry))) []) }
{
    match member_text(alloc, node, name)? {
        Some(text) => Ok(text),
        None => Ok(Text::of("")),
    }
}
