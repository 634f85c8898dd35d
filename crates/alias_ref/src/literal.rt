//! Literals: values in which no reference is written. Most tokens have one, and it means itself.

ghost use Rattle.std.specs.Prelude.{◌≡◌, None, false, codes, IfOk, OnOk, IfSome};
ghost use Rattle.json_span.specs.Tree.{array_in, object_in};
ghost use Rattle.json_span.specs.PlainView.{plain_view};
ghost use Rattle.json_span.specs.View.{ref_view, json_view, fields_view};
ghost use Rattle.token_tree.specs.Shape.{has};
ghost use Rattle.alias_ref.specs.Written.{leaf, of_value, written_as};
ghost use Rattle.alias_ref.specs.inner.Literals.{IsLiteral, ItemsAreLiterals, FieldsAreLiterals};
ghost use Rattle.alias_ref.specs.inner.Literals.{IsWholeLiteral};

use crate::content::is_curly;
use json_span::{Fields, Items, NodeRef, Plain, PlainField, PlainFields, PlainItems};
use std::alloc::Global;
use tk_io::NoMemory;
use token_tree::TokenDef;

/// How many values may be counted: so few that their walk can't become too deep or too long.
const MOST_VALUES: u32 = 256;

/// Why a value is not read as a literal.
#[derive(Drop)]
enum Stop {
    /// A reference is written in it, or there are too many values.
    NoLiteral,
    /// Memory ran out.
    NoMemory,
}

impl From<NoMemory> for Stop {
    fn from(_: NoMemory) -> Stop {
        Stop::NoMemory
    }
}

/// What the whole value of a token is, where it is a literal of few values. They are counted behind those before.
pub(crate) fn literal<'s>(
    alloc: Global,
    def: &TokenDef<'s>,
    values: &mut u32,
) -> Result<Option<Plain<'s>>, NoMemory>
    ensures { IfOk result (λ o. IfSome o (λ v.
        IsWholeLiteral def.now (plain_view v) values.old values.new)) }
{
    def.keeps();
    let _ = def.source.len();
    if def.by_ref {
        return Ok(None);
    }
    match literal_value(alloc, def.value.as_ref(), values) {
        Ok(plain) => Ok(Some(plain)),
        Err(Stop::NoLiteral) => Ok(None),
        Err(Stop::NoMemory) => Err(NoMemory),
    }
}

/// Reads a value, and counts it and its parts.
#[cycle(reading)]
fn literal_value<'s>(
    alloc: Global,
    node: NodeRef<'_, 's>,
    values: &mut u32,
) -> Result<Plain<'s>, Stop>
    ensures { IfOk result (λ v.
        IsLiteral values.old (ref_view node.entry) (plain_view v) values.new) }
{
    if *values >= MOST_VALUES {
        return Err(Stop::NoLiteral);
    }
    *values += 1;
    if let Some(items) = node.as_array() {
        let list = literal_items(alloc, items, values)?;
        return Ok(Plain::Arr(list));
    }
    if let Some(fields) = node.as_object() {
        let list = literal_fields(alloc, fields, values)?;
        return Ok(Plain::Obj(list));
    }
    literal_leaf(alloc, node)
}

/// Reads the items of an array, in order.
#[cycle(reading)]
fn literal_items<'s>(
    alloc: Global,
    items: Items<'_, 's>,
    values: &mut u32,
) -> Result<PlainItems<'s>, Stop>
    ensures { IfOk result (λ l. ItemsAreLiterals values.old items.entry l values.new) }
{
    let mut list = PlainItems::new(alloc);
    for node in items {
        let plain = literal_value(alloc, node, values)?;
        list.push(plain)?;
    }
    Ok(list)
}

/// Reads the members of an object, in order. A member `$ref` makes it a reference.
#[cycle(reading)]
fn literal_fields<'s>(
    alloc: Global,
    fields: Fields<'_, 's>,
    values: &mut u32,
) -> Result<PlainFields<'s>, Stop>
    ensures read { IfOk result (λ l. FieldsAreLiterals values.old fields.entry l values.new) }
    ensures plain { OnOk result (has (codes "$ref") (fields_view fields.entry) ≡ false) }
{
    let mut list = PlainFields::new(alloc);
    for field in fields {
        let name = field.name(alloc)?;
        if name.as_str() == "$ref" {
            return Err(Stop::NoLiteral);
        }
        let value = literal_value(alloc, field.value(), values)?;
        list.push(PlainField { name, value })?;
    }
    Ok(list)
}

/// Reads null, a truth value, a number or a text. A text in braces is a reference.
fn literal_leaf<'s>(alloc: Global, node: NodeRef<'_, 's>) -> Result<Plain<'s>, Stop>
    ensures { IfOk result (λ v. array_in (json_view node.entry) ≡ None
        → object_in (json_view node.entry) ≡ None
        → written_as of_value (json_view node.entry) ≡ leaf (plain_view v)) }
{
    if let Some(text) = node.as_text(alloc)? {
        if is_curly(text.as_str()) {
            return Err(Stop::NoLiteral);
        }
        return Ok(Plain::Str(text));
    }
    if let Some(spelling) = node.as_number() {
        return Ok(Plain::Num(spelling));
    }
    if let Some(truth) = node.as_bool() {
        return Ok(Plain::Bool(truth));
    }
    Ok(Plain::Null)
}
