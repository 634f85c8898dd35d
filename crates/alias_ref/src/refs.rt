//! The tokens that values name.

ghost use Rattle.std.specs.Prelude.{◌≡◌, ◌++◌, [], IfOk, OnOk, IfSome};
ghost use Rattle.json_span.specs.Tree.{tree_of};
ghost use Rattle.alias_ref.specs.Written.{refers, role_behind, written_as};
ghost use Rattle.alias_ref.specs.Refs.{named_by, refs_in, refs_of};
ghost use Rattle.alias_ref.specs.inner.Contents.{content_view, role_of};
ghost use Rattle.json_span.specs.View.{ref_view, field_view, items_view, fields_view};
ghost use Rattle.alias_ref.specs.inner.Steps.{items_refs, entries_refs};

use crate::content::{Content, read_content};
use json_span::{Field, Fields, Items, NodeRef};
use name_path::{Path, Paths};
use std::alloc::Global;
use tk_io::NoMemory;
use token_tree::TokenDef;

/// The tokens that the well-spelled references in a token's value name, in written order.
pub fn refs_of<'s>(alloc: Global, def: &TokenDef<'s>) -> Result<Paths<'s>, NoMemory>
    ensures { IfOk result (λ paths. paths ≡ refs_of def.now) }
{
    let mut paths = Paths::new(alloc);
    add_refs(alloc, def.value.as_ref(), def.by_ref, &mut paths)?;
    Ok(paths)
}

/// The token to which the whole value of a token refers without steps, if it does.
pub(crate) fn alias_of<'s>(alloc: Global, def: &TokenDef<'s>) -> Result<Option<Path<'s>>, NoMemory>
    ensures { IfOk result (λ o. IfSome o (λ named.
        written_as (role_of def.now.by_ref) (tree_of def.now.value) ≡ refers named [])) }
{
    let node = def.value.as_ref();
    let content = read_content(alloc, node, def.by_ref)?;
    match content {
        Content::Refers(named) => {
            if named.trail.is_empty() {
                Ok(Some(named.token))
            } else {
                Ok(None)
            }
        }
        Content::Leaf(_) | Content::Array(_) | Content::Object(_) | Content::Misspelled => Ok(None),
    }
}

/// Adds what a value names. `by_ref` says that it is the text of a token's own `$ref`.
#[cycle(adding)]
fn add_refs<'s>(
    alloc: Global,
    node: NodeRef<'_, 's>,
    by_ref: bool,
    paths: &mut Paths<'s>,
) -> Result<(), NoMemory>
    ensures { OnOk result (paths.new ≡ paths.old
        ++ refs_in (role_of by_ref) (ref_view node.entry)) }
{
    let content = read_content(alloc, node, by_ref)?;
    add_named(content, paths)?;
    if let Some(items) = node.as_array() {
        return add_items(alloc, items, paths);
    }
    if let Some(fields) = node.as_object() {
        return add_members(alloc, fields, paths);
    }
    Ok(())
}

/// Adds what a reference names.
fn add_named<'s>(content: Content<'_, 's>, paths: &mut Paths<'s>) -> Result<(), NoMemory>
    ensures { OnOk result (paths.new ≡ paths.old ++ named_by (content_view content.entry)) }
{
    match content {
        Content::Refers(named) => paths.push(named.token),
        Content::Leaf(_) | Content::Array(_) | Content::Object(_) | Content::Misspelled => Ok(()),
    }
}

/// Adds what the items of an array name.
#[cycle(adding)]
fn add_items<'s>(alloc: Global, items: Items<'_, 's>, paths: &mut Paths<'s>) -> Result<(), NoMemory>
    ensures { OnOk result (paths.new ≡ paths.old ++ items_refs (items_view items.entry)) }
{
    for item in items {
        add_refs(alloc, item, false, paths)?;
    }
    Ok(())
}

/// Adds what the members of an object name.
#[cycle(adding)]
fn add_members<'s>(
    alloc: Global,
    fields: Fields<'_, 's>,
    paths: &mut Paths<'s>,
) -> Result<(), NoMemory>
    ensures { OnOk result (paths.new ≡ paths.old ++ entries_refs (fields_view fields.entry)) }
{
    for field in fields {
        add_member(alloc, field, paths)?;
    }
    Ok(())
}

/// Adds what a member's value names. The text of a `$ref` is no reference by itself.
#[cycle(adding)]
fn add_member<'s>(
    alloc: Global,
    field: Field<'_, 's>,
    paths: &mut Paths<'s>,
) -> Result<(), NoMemory>
    ensures { OnOk result (paths.new ≡ paths.old
        ++ refs_in (role_behind (field_view field.entry).name) (field_view field.entry).value) }
{
    let node = field.value();
    if field.is_named("$ref") && node.as_array().is_none() && node.as_object().is_none() {
        return Ok(());
    }
    add_refs(alloc, node, false, paths)
}
