//! The form of a resolver document, value by value: each call takes in the breaks of its value.

ghost use Rattle.std.specs.Prelude.{◌≡◌, not, is_some, codes, IfOk, OnOk};
ghost use Rattle.std.specs.List.{flat_map};
ghost use Rattle.std.specs.Str.{bytes_eq};
ghost use Rattle.json_span.specs.Tree.{string_in, value_of_name};
ghost use Rattle.json_span.specs.View.{ref_view, json_view, field_view, fields_view};
ghost use Rattle.resolver_doc.specs.Break.{with_breaks, at_name};
ghost use Rattle.resolver_doc.specs.declared.rule.PlanRule.TheVariants.{Shape};
ghost use Rattle.resolver_doc.specs.Form.{is_reserved, unreserved, optional_member, needed_member};
ghost use Rattle.resolver_doc.specs.Form.{text_form, reference_form, has_ref, source_form};
ghost use Rattle.resolver_doc.specs.Form.{sources_form, set_members, set_form, has_context};
ghost use Rattle.resolver_doc.specs.Form.{context_form, counts_some, contexts_form};
ghost use Rattle.resolver_doc.specs.Form.{context_entries, default_form, modifier_members};
ghost use Rattle.resolver_doc.specs.Form.{modifier_form};

use crate::rule::{Break, PlanRule, at_name, at_value};
use json_span::{Field, Fields, NodeRef, ValueType};
use std::alloc::Global;
use tk_io::NoMemory;

/// Whether the text is the word.
pub(crate) fn is_word(text: &str, word: &str) -> bool
    ensures { result ≡ bytes_eq text.now word.now }
{
    text == word
}

fn is_text(node: NodeRef<'_, '_>) -> bool
    ensures { result ≡ is_some (string_in (json_view node.entry)) }
{
    match node.value_type() {
        ValueType::String => true,
        ValueType::Boolean => false,
        ValueType::Null => false,
        ValueType::Number => false,
        ValueType::Array => false,
        ValueType::Object => false,
    }
}

// Takes in a break where the value is no text.
fn text(node: NodeRef<'_, '_>, first: &mut Option<Break>)
    ensures { first.new ≡ with_breaks first.old (text_form (ref_view node.entry)) }
{
    if !is_text(node) {
        at_value(PlanRule::Shape, node, first);
    }
}

/// Takes in a break where there is a member of this name that is no text.
pub(crate) fn optional_text(fields: &Fields<'_, '_>, name: &str, first: &mut Option<Break>)
    ensures { first.new ≡ with_breaks first.old
        (optional_member text_form (value_of_name name.now (fields_view fields.now))) }
{
    if let Some(node) = fields.get(name) {
        text(node, first);
    }
}

/// Takes in a break where there is no member of this name, or it is no text.
pub(crate) fn needed_text(
    owner: NodeRef<'_, '_>,
    fields: &Fields<'_, '_>,
    name: &str,
    first: &mut Option<Break>,
)
    ensures { first.new ≡ with_breaks first.old
        (needed_member text_form (ref_view owner.entry)
        (value_of_name name.now (fields_view fields.now))) }
{
    match fields.get(name) {
        Some(node) => text(node, first),
        None => at_value(PlanRule::Shape, owner, first),
    }
}

// Whether the member counts: its name does not begin with `$`.
pub(crate) fn is_counted(alloc: Global, field: Field<'_, '_>) -> Result<bool, NoMemory>
    ensures { IfOk result (λ counts. counts ≡ not (is_reserved (field_view field.entry).name)) }
{
    let name = field.name(alloc)?;
    Ok(match name.as_str().as_bytes().first() {
        Some(byte) => *byte != b'$',
        None => true,
    })
}

// Takes in a break at the name of each member that stands beside `$ref`.
fn neighbors(
    alloc: Global,
    fields: &Fields<'_, '_>,
    first: &mut Option<Break>,
) -> Result<(), NoMemory>
    ensures { OnOk result (first.new
        ≡ with_breaks first.old (flat_map (at_name Shape) (unreserved (fields_view fields.now)))) }
{
    for field in *fields {
        if is_counted(alloc, field)? {
            at_name(PlanRule::Shape, field, first);
        }
    }
    Ok(())
}

/// Whether an object is a reference: it has a member `$ref`.
pub(crate) fn is_reference(fields: &Fields<'_, '_>) -> bool
    ensures { result ≡ has_ref (fields_view fields.now) }
{
    fields.get("$ref").is_some()
}

/// Takes in the breaks of a reference: its text, and what stands beside it.
pub(crate) fn reference(
    alloc: Global,
    fields: &Fields<'_, '_>,
    first: &mut Option<Break>,
) -> Result<(), NoMemory>
    ensures { OnOk result
        (first.new ≡ with_breaks first.old (reference_form (fields_view fields.now))) }
{
    optional_text(fields, "$ref", first);
    neighbors(alloc, fields, first)?;
    Ok(())
}

// Takes in the breaks of a source: an object, and where it is a reference those of that.
fn source(alloc: Global, node: NodeRef<'_, '_>, first: &mut Option<Break>) -> Result<(), NoMemory>
    ensures { OnOk result (first.new ≡ with_breaks first.old (source_form (ref_view node.entry))) }
{
    let Some(fields) = node.as_object() else {
        at_value(PlanRule::Shape, node, first);
        return Ok(());
    };
    if is_reference(&fields) {
        return reference(alloc, &fields, first);
    }
    Ok(())
}

// Takes in the breaks of a list of sources.
fn sources(alloc: Global, node: NodeRef<'_, '_>, first: &mut Option<Break>) -> Result<(), NoMemory>
    ensures { OnOk result (first.new ≡ with_breaks first.old (sources_form (ref_view node.entry))) }
{
    let Some(items) = node.as_array() else {
        at_value(PlanRule::Shape, node, first);
        return Ok(());
    };
    for item in items {
        source(alloc, item, first)?;
    }
    Ok(())
}

/// Takes in the breaks of the members of a set.
pub(crate) fn set_members(
    alloc: Global,
    owner: NodeRef<'_, '_>,
    fields: &Fields<'_, '_>,
    first: &mut Option<Break>,
) -> Result<(), NoMemory>
    ensures { OnOk result (first.new
        ≡ with_breaks first.old (set_members (ref_view owner.entry) (fields_view fields.now))) }
{
    let Some(node) = fields.get("sources") else {
        at_value(PlanRule::Shape, owner, first);
        return Ok(());
    };
    sources(alloc, node, first)
}

/// Takes in the breaks of a set.
pub(crate) fn set(
    alloc: Global,
    node: NodeRef<'_, '_>,
    first: &mut Option<Break>,
) -> Result<(), NoMemory>
    ensures { OnOk result (first.new ≡ with_breaks first.old (set_form (ref_view node.entry))) }
{
    let Some(fields) = node.as_object() else {
        at_value(PlanRule::Shape, node, first);
        return Ok(());
    };
    set_members(alloc, node, &fields, first)
}

// Whether a context among these members has the name.
fn has_context(alloc: Global, name: &str, fields: &Fields<'_, '_>) -> Result<bool, NoMemory>
    ensures { IfOk result (λ has. has ≡ has_context name.now (fields_view fields.now)) }
{
    for field in *fields {
        let counts = is_counted(alloc, field)?;
        if counts && field.is_named(name) {
            return Ok(true);
        }
    }
    Ok(false)
}

// Takes in the breaks of each context.
fn each_context(
    alloc: Global,
    fields: &Fields<'_, '_>,
    first: &mut Option<Break>,
) -> Result<(), NoMemory>
    ensures { OnOk result (first.new
        ≡ with_breaks first.old (flat_map context_form (unreserved (fields_view fields.now)))) }
{
    for field in *fields {
        if is_counted(alloc, field)? {
            sources(alloc, field.value(), first)?;
        }
    }
    Ok(())
}

// Whether the object has a member whose name begins with no `$`.
fn counts_some(alloc: Global, fields: &Fields<'_, '_>) -> Result<bool, NoMemory>
    ensures { IfOk result (λ some. some ≡ counts_some (fields_view fields.now)) }
{
    for field in *fields {
        if is_counted(alloc, field)? {
            return Ok(true);
        }
    }
    Ok(false)
}

// Takes in the breaks of `contexts`: an object of lists of sources, of which there is one or more.
fn contexts(alloc: Global, node: NodeRef<'_, '_>, first: &mut Option<Break>) -> Result<(), NoMemory>
    ensures { OnOk result
        (first.new ≡ with_breaks first.old (contexts_form (ref_view node.entry))) }
{
    let Some(fields) = node.as_object() else {
        at_value(PlanRule::Shape, node, first);
        return Ok(());
    };
    if !counts_some(alloc, &fields)? {
        at_value(PlanRule::Contexts, node, first);
        return each_context(alloc, &fields, first);
    }
    each_context(alloc, &fields, first)
}

// Whether the text is the name of a context of the modifier.
fn names_context(alloc: Global, name: &str, fields: &Fields<'_, '_>) -> Result<bool, NoMemory>
    ensures { IfOk result
        (λ names. names ≡ has_context name.now (context_entries (fields_view fields.now))) }
{
    let Some(node) = fields.get("contexts") else {
        return Ok(false);
    };
    let Some(contexts) = node.as_object() else {
        return Ok(false);
    };
    has_context(alloc, name, &contexts)
}

// Takes in the breaks of a `default`: a text that names a context.
fn default(
    alloc: Global,
    fields: &Fields<'_, '_>,
    node: NodeRef<'_, '_>,
    first: &mut Option<Break>,
) -> Result<(), NoMemory>
    ensures { OnOk result (first.new ≡ with_breaks first.old
        (default_form (context_entries (fields_view fields.now)) (ref_view node.entry))) }
{
    let Some(name) = node.as_text(alloc)? else {
        at_value(PlanRule::Shape, node, first);
        at_value(PlanRule::Default, node, first);
        return Ok(());
    };
    if !names_context(alloc, name.as_str(), fields)? {
        at_value(PlanRule::Default, node, first);
    }
    Ok(())
}

// Takes in the breaks of `contexts`, which a modifier needs.
fn needed_contexts(
    alloc: Global,
    owner: NodeRef<'_, '_>,
    fields: &Fields<'_, '_>,
    first: &mut Option<Break>,
) -> Result<(), NoMemory>
    ensures { OnOk result (first.new ≡ with_breaks first.old (needed_member contexts_form
        (ref_view owner.entry) (value_of_name (codes "contexts") (fields_view fields.now)))) }
{
    let Some(node) = fields.get("contexts") else {
        at_value(PlanRule::Shape, owner, first);
        return Ok(());
    };
    contexts(alloc, node, first)
}

// Takes in the breaks of `default`, where a modifier has it.
fn optional_default(
    alloc: Global,
    fields: &Fields<'_, '_>,
    first: &mut Option<Break>,
) -> Result<(), NoMemory>
    ensures { OnOk result (first.new ≡ with_breaks first.old
        (optional_member (default_form (context_entries (fields_view fields.now)))
        (value_of_name (codes "default") (fields_view fields.now)))) }
{
    let Some(node) = fields.get("default") else {
        return Ok(());
    };
    default(alloc, fields, node, first)
}

/// Takes in the breaks of the members of a modifier.
pub(crate) fn modifier_members(
    alloc: Global,
    owner: NodeRef<'_, '_>,
    fields: &Fields<'_, '_>,
    first: &mut Option<Break>,
) -> Result<(), NoMemory>
    ensures { OnOk result (first.new ≡ with_breaks first.old
        (modifier_members (ref_view owner.entry) (fields_view fields.now))) }
{
    needed_contexts(alloc, owner, fields, first)?;
    optional_default(alloc, fields, first)
}

/// Takes in the breaks of a modifier.
pub(crate) fn modifier(
    alloc: Global,
    node: NodeRef<'_, '_>,
    first: &mut Option<Break>,
) -> Result<(), NoMemory>
    ensures { OnOk result
        (first.new ≡ with_breaks first.old (modifier_form (ref_view node.entry))) }
{
    let Some(fields) = node.as_object() else {
        at_value(PlanRule::Shape, node, first);
        return Ok(());
    };
    modifier_members(alloc, node, &fields, first)
}
