//! The plain values of the values of a text.

ghost use Rattle.std.specs.Prelude.{◌≡◌, None, IfOk};
ghost use Rattle.json_span.specs.Tree.{array_in, object_in};
ghost use Rattle.json_span.specs.Says.{plain_of, plain_tree};
ghost use Rattle.json_span.specs.View.{ref_view, json_view, items_view, fields_view};
ghost use Rattle.json_span.specs.PlainView.{plain_view, plain_items_view, plain_fields_view};
ghost use Rattle.json_span.specs.PlainView.{as_spelled};
ghost use Rattle.json_span.specs.inner.PlainCopies.{plain_each, plain_entries};

use crate::fields::Fields;
use crate::items::Items;
use crate::node_ref::NodeRef;
use crate::plain::{Plain, PlainField, PlainFields, PlainItems};
use std::alloc::Global;
use tk_io::NoMemory;

// A value that holds no others.
fn plain_leaf<'s>(alloc: Global, node: NodeRef<'_, 's>) -> Result<Plain<'s>, NoMemory>
    ensures { IfOk result (λ p. array_in (json_view node.entry) ≡ None
        → object_in (json_view node.entry) ≡ None
        → plain_view p ≡ plain_tree as_spelled (json_view node.entry)) }
{
    if let Some(text) = node.as_text(alloc)? {
        return Ok(Plain::Str(text));
    }
    if let Some(spelling) = node.as_number() {
        return Ok(Plain::Num(spelling));
    }
    if let Some(truth) = node.as_bool() {
        return Ok(Plain::Bool(truth));
    }
    Ok(Plain::Null)
}

/// The value without its places.
#[cycle(copying)]
pub(crate) fn plain_value<'s>(alloc: Global, node: NodeRef<'_, 's>) -> Result<Plain<'s>, NoMemory>
    ensures { IfOk result (λ p. plain_view p ≡ plain_of as_spelled (ref_view node.entry)) }
{
    if let Some(items) = node.as_array() {
        let list = plain_items(alloc, items)?;
        return Ok(Plain::Arr(list));
    }
    if let Some(fields) = node.as_object() {
        let list = plain_fields(alloc, fields)?;
        return Ok(Plain::Obj(list));
    }
    plain_leaf(alloc, node)
}

// The elements of an array without their places.
#[cycle(copying)]
fn plain_items<'s>(alloc: Global, items: Items<'_, 's>) -> Result<PlainItems<'s>, NoMemory>
    ensures { IfOk result (λ l. plain_items_view l ≡ plain_each (items_view items.entry)) }
{
    let mut list = PlainItems::new(alloc);
    for item in items {
        let value = plain_value(alloc, item)?;
        list.push(value)?;
    }
    Ok(list)
}

// The members of an object without their places.
#[cycle(copying)]
fn plain_fields<'s>(alloc: Global, fields: Fields<'_, 's>) -> Result<PlainFields<'s>, NoMemory>
    ensures { IfOk result (λ l. plain_fields_view l ≡ plain_entries (fields_view fields.entry)) }
{
    let mut list = PlainFields::new(alloc);
    for field in fields {
        let name = field.name(alloc)?;
        let value = plain_value(alloc, field.value())?;
        list.push(PlainField { name, value })?;
    }
    Ok(list)
}
