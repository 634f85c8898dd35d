//! The form of the document itself: its version, its sets and modifiers, and the items of its order.

ghost use Rattle.std.specs.Prelude.{◌≡◌, IfOk, OnOk, codes};
ghost use Rattle.json_span.specs.Tree.{value_of_name};
ghost use Rattle.json_span.specs.View.{ref_view, fields_view};
ghost use Rattle.resolver_doc.specs.Break.{with_breaks, first_of};
ghost use Rattle.resolver_doc.specs.Form.{optional_member, needed_member, each_value};
ghost use Rattle.resolver_doc.specs.Form.{set_form, modifier_form, list_with, typed_form};
ghost use Rattle.resolver_doc.specs.Form.{item_type, item_members, item_form, version_form};
ghost use Rattle.resolver_doc.specs.Form.{document_members, form_breaks};

use crate::form::{
    is_counted, is_reference, is_word, modifier, modifier_members, needed_text, optional_text,
    reference, set, set_members,
};
use crate::rule::{Break, PlanRule, at_value};
use json_span::{Fields, NodeRef};
use std::alloc::Global;
use tk_io::NoMemory;

// Takes in the breaks of an item in place, by what its `type` says that it is.
fn typed(
    alloc: Global,
    owner: NodeRef<'_, '_>,
    fields: &Fields<'_, '_>,
    node: NodeRef<'_, '_>,
    word: &str,
    first: &mut Option<Break>,
) -> Result<(), NoMemory>
    ensures { OnOk result (first.new ≡ with_breaks first.old
        (typed_form (ref_view owner.entry) (fields_view fields.now)
        (ref_view node.entry) word.now)) }
{
    if is_word(word, "set") {
        needed_text(owner, fields, "name", first);
        return set_members(alloc, owner, fields, first);
    }
    if is_word(word, "modifier") {
        needed_text(owner, fields, "name", first);
        return modifier_members(alloc, owner, fields, first);
    }
    at_value(PlanRule::Shape, node, first);
    Ok(())
}

// Takes in the breaks of an item in place, whose `type` is this.
fn item_type(
    alloc: Global,
    owner: NodeRef<'_, '_>,
    fields: &Fields<'_, '_>,
    node: NodeRef<'_, '_>,
    first: &mut Option<Break>,
) -> Result<(), NoMemory>
    ensures { OnOk result (first.new ≡ with_breaks first.old
        (item_type (ref_view owner.entry) (fields_view fields.now) (ref_view node.entry))) }
{
    let Some(word) = node.as_text(alloc)? else {
        at_value(PlanRule::Shape, node, first);
        return Ok(());
    };
    typed(alloc, owner, fields, node, word.as_str(), first)
}

// Takes in the breaks of an item that is an object: a reference, or a set or modifier in place.
fn item_members(
    alloc: Global,
    owner: NodeRef<'_, '_>,
    fields: &Fields<'_, '_>,
    first: &mut Option<Break>,
) -> Result<(), NoMemory>
    ensures { OnOk result (first.new
        ≡ with_breaks first.old (item_members (ref_view owner.entry) (fields_view fields.now))) }
{
    if is_reference(fields) {
        return reference(alloc, fields, first);
    }
    let Some(node) = fields.get("type") else {
        at_value(PlanRule::Shape, owner, first);
        return Ok(());
    };
    item_type(alloc, owner, fields, node, first)
}

// Takes in the breaks of an item of the order.
fn item(alloc: Global, node: NodeRef<'_, '_>, first: &mut Option<Break>) -> Result<(), NoMemory>
    ensures { OnOk result (first.new ≡ with_breaks first.old (item_form (ref_view node.entry))) }
{
    let Some(fields) = node.as_object() else {
        at_value(PlanRule::Shape, node, first);
        return Ok(());
    };
    item_members(alloc, node, &fields, first)
}

// Takes in the breaks of the list of items.
fn items(alloc: Global, node: NodeRef<'_, '_>, first: &mut Option<Break>) -> Result<(), NoMemory>
    ensures { OnOk result
        (first.new ≡ with_breaks first.old (list_with item_form (ref_view node.entry))) }
{
    let Some(items) = node.as_array() else {
        at_value(PlanRule::Shape, node, first);
        return Ok(());
    };
    for node in items {
        item(alloc, node, first)?;
    }
    Ok(())
}

// Takes in the breaks of `resolutionOrder`, which the document needs.
fn order(
    alloc: Global,
    root: NodeRef<'_, '_>,
    fields: &Fields<'_, '_>,
    first: &mut Option<Break>,
) -> Result<(), NoMemory>
    ensures { OnOk result (first.new ≡ with_breaks first.old
        (needed_member (list_with item_form) (ref_view root.entry)
        (value_of_name (codes "resolutionOrder") (fields_view fields.now)))) }
{
    let Some(node) = fields.get("resolutionOrder") else {
        at_value(PlanRule::Shape, root, first);
        return Ok(());
    };
    items(alloc, node, first)
}

// Takes in the breaks of each member of `sets`.
fn each_set(alloc: Global, node: NodeRef<'_, '_>, first: &mut Option<Break>) -> Result<(), NoMemory>
    ensures { OnOk result
        (first.new ≡ with_breaks first.old (each_value set_form (ref_view node.entry))) }
{
    let Some(fields) = node.as_object() else {
        at_value(PlanRule::Shape, node, first);
        return Ok(());
    };
    for field in fields {
        if is_counted(alloc, field)? {
            set(alloc, field.value(), first)?;
        }
    }
    Ok(())
}

// Takes in the breaks of `sets`, where the document has it.
fn sets(alloc: Global, fields: &Fields<'_, '_>, first: &mut Option<Break>) -> Result<(), NoMemory>
    ensures { OnOk result (first.new ≡ with_breaks first.old
        (optional_member (each_value set_form)
        (value_of_name (codes "sets") (fields_view fields.now)))) }
{
    let Some(node) = fields.get("sets") else {
        return Ok(());
    };
    each_set(alloc, node, first)
}

// Takes in the breaks of each member of `modifiers`.
fn each_modifier(
    alloc: Global,
    node: NodeRef<'_, '_>,
    first: &mut Option<Break>,
) -> Result<(), NoMemory>
    ensures { OnOk result
        (first.new ≡ with_breaks first.old (each_value modifier_form (ref_view node.entry))) }
{
    let Some(fields) = node.as_object() else {
        at_value(PlanRule::Shape, node, first);
        return Ok(());
    };
    for field in fields {
        if is_counted(alloc, field)? {
            modifier(alloc, field.value(), first)?;
        }
    }
    Ok(())
}

// Takes in the breaks of `modifiers`, where the document has it.
fn modifiers(
    alloc: Global,
    fields: &Fields<'_, '_>,
    first: &mut Option<Break>,
) -> Result<(), NoMemory>
    ensures { OnOk result (first.new ≡ with_breaks first.old
        (optional_member (each_value modifier_form)
        (value_of_name (codes "modifiers") (fields_view fields.now)))) }
{
    let Some(node) = fields.get("modifiers") else {
        return Ok(());
    };
    each_modifier(alloc, node, first)
}

// Takes in the break of `version`, which the document needs.
fn version(alloc: Global, root: NodeRef<'_, '_>, first: &mut Option<Break>) -> Result<(), NoMemory>
    ensures { OnOk result (first.new ≡ with_breaks first.old (version_form (ref_view root.entry))) }
{
    let Some(fields) = root.as_object() else {
        at_value(PlanRule::Version, root, first);
        return Ok(());
    };
    let Some(node) = fields.get("version") else {
        at_value(PlanRule::Version, root, first);
        return Ok(());
    };
    let Some(word) = node.as_text(alloc)? else {
        at_value(PlanRule::Version, node, first);
        return Ok(());
    };
    if !is_word(word.as_str(), "2025.10") {
        at_value(PlanRule::Version, node, first);
    }
    Ok(())
}

// Takes in the breaks of all members of the document.
fn members(
    alloc: Global,
    root: NodeRef<'_, '_>,
    fields: &Fields<'_, '_>,
    first: &mut Option<Break>,
) -> Result<(), NoMemory>
    ensures { OnOk result (first.new
        ≡ with_breaks first.old (document_members (ref_view root.entry) (fields_view fields.now))) }
{
    optional_text(fields, "name", first);
    optional_text(fields, "description", first);
    sets(alloc, fields, first)?;
    modifiers(alloc, fields, first)?;
    order(alloc, root, fields, first)?;
    Ok(())
}

/// The first place where the document's form is not met; none where it is met.
pub fn form_break(alloc: Global, root: NodeRef<'_, '_>) -> Result<Option<Break>, NoMemory>
    ensures { IfOk result (λ first. first ≡ first_of (form_breaks (ref_view root.entry))) }
{
    let mut first = None;
    version(alloc, root, &mut first)?;
    let Some(fields) = root.as_object() else {
        at_value(PlanRule::Shape, root, &mut first);
        return Ok(first);
    };
    members(alloc, root, &fields, &mut first)?;
    Ok(first)
}
