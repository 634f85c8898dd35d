//! Copies of values without references.

ghost use Rattle.std.specs.Prelude.{◌≡◌, None, IfOk};
ghost use Rattle.json_span.specs.Plain.{plain_array_in, plain_object_in};
ghost use Rattle.json_span.specs.PlainView.{plain_view, plain_items_view, plain_fields_view};

use json_span::{Plain, PlainField, PlainFields, PlainItems};
use std::alloc::Global;
use tk_io::NoMemory;

/// A value that holds no others.
fn copy_leaf<'s>(plain: &Plain<'s>) -> Result<Plain<'s>, NoMemory>
    ensures { IfOk result (λ p. plain_array_in (plain_view plain.now) ≡ None
        → plain_object_in (plain_view plain.now) ≡ None → plain_view p ≡ plain_view plain.now) }
{
    if let Some(text) = plain.as_text() {
        let text = text.copy()?;
        return Ok(Plain::Str(text));
    }
    if let Some(spelling) = plain.as_number() {
        return Ok(Plain::Num(spelling));
    }
    if let Some(truth) = plain.as_bool() {
        return Ok(Plain::Bool(truth));
    }
    Ok(Plain::Null)
}

/// The same value.
#[cycle(copying)]
pub(crate) fn copy_plain<'s>(alloc: Global, plain: &Plain<'s>) -> Result<Plain<'s>, NoMemory>
    ensures { IfOk result (λ p. plain_view p ≡ plain_view plain.now) }
{
    if let Some(items) = plain.as_array() {
        let list = copy_items(alloc, items)?;
        return Ok(Plain::Arr(list));
    }
    if let Some(fields) = plain.as_object() {
        let list = copy_fields(alloc, fields)?;
        return Ok(Plain::Obj(list));
    }
    copy_leaf(plain)
}

/// A copy of the items of an array.
#[cycle(copying)]
fn copy_items<'s>(alloc: Global, items: &PlainItems<'s>) -> Result<PlainItems<'s>, NoMemory>
    ensures { IfOk result (λ l. plain_items_view l ≡ plain_items_view items.now) }
{
    let mut list = PlainItems::new(alloc);
    let values = items.as_slice();
    for item in values {
        let value = copy_plain(alloc, item)?;
        list.push(value)?;
    }
    Ok(list)
}

/// A copy of the members of an object.
#[cycle(copying)]
fn copy_fields<'s>(alloc: Global, fields: &PlainFields<'s>) -> Result<PlainFields<'s>, NoMemory>
    ensures { IfOk result (λ l. plain_fields_view l ≡ plain_fields_view fields.now) }
{
    let mut list = PlainFields::new(alloc);
    let members = fields.as_slice();
    for field in members {
        let name = field.name.copy()?;
        let value = copy_plain(alloc, &field.value)?;
        list.push(PlainField { name, value })?;
    }
    Ok(list)
}
