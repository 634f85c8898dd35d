//! Items that have the name of an earlier one.

ghost use Rattle.std.specs.Prelude.{◌≡◌, [], IfOk, OnOk, Option, List, ℕ, option_map};
ghost use Rattle.json_span.specs.View.{ref_view, items_view};
ghost use Rattle.resolver_doc.specs.Break.{with_breaks};
ghost use Rattle.resolver_doc.specs.Document.{order_items};
ghost use Rattle.resolver_doc.specs.Naming.{item_name, name_string, of_each, repeat_at, repeats};
ghost use Rattle.resolver_doc.specs.Naming.{with_name};
ghost use Rattle.resolver_doc.specs.inner.Known.{known_sets, known_modifiers};
ghost use Rattle.resolver_doc.specs.inner.Pointers.{HoldsTexts};

use crate::known::Known;
use crate::members::{member, member_text, text_at};
use crate::pointers::Pointers;
use crate::rule::{Break, PlanRule, at_value};
use json_span::{Items, NodeRef};
use std::alloc::Global;
use tk_io::{NoMemory, Text};

// The name of an item; a reference that names nothing has none.
fn item_name<'s>(
    alloc: Global,
    known: &Known<'_, 's>,
    item: NodeRef<'_, 's>,
) -> Result<Option<Text<'s>>, NoMemory>
    ensures { IfOk result (λ name. name
        ≡ item_name (known_sets known.now) (known_modifiers known.now) (ref_view item.entry)) }
{
    let Some(string) = member(item, "$ref") else {
        return member_text(alloc, item, "name");
    };
    let text = text_at(alloc, string)?;
    if let Some(number) = known.set_number(&text) {
        return Ok(Some(known.set_name(alloc, number)?));
    }
    match known.modifier_number(&text) {
        Some(number) => Ok(Some(known.modifier_name(alloc, number)?)),
        None => Ok(None),
    }
}

// The string that says the name of an item.
fn name_string<'a, 's>(item: NodeRef<'a, 's>) -> Option<NodeRef<'a, 's>>
    ensures { option_map ref_view result ≡ name_string (ref_view item.entry) }
{
    match member(item, "$ref") {
        Some(string) => Some(string),
        None => member(item, "name"),
    }
}

// Takes in the break at the string where the name is there.
fn repeat_at(
    name: &Text<'_>,
    string: Option<NodeRef<'_, '_>>,
    names: &Pointers,
    first: &mut Option<Break>,
)
    ensures { (before : List (List ℕ)) → HoldsTexts names.now before
        → first.new ≡ with_breaks first.old
        (of_each (repeat_at before (Some name.now)) (option_map ref_view string.entry)) }
{
    let Some(string) = string else {
        return;
    };
    if names.get(name.as_str().as_bytes()).is_some() {
        at_value(PlanRule::Duplicate, string, first);
    }
}

// Takes in the break of an item whose name is there, and adds the name.
fn repeat<'s>(
    alloc: Global,
    known: &Known<'_, 's>,
    item: NodeRef<'_, 's>,
    names: &mut Pointers,
    first: &mut Option<Break>,
) -> Result<(), NoMemory>
    ensures breaks { OnOk result ((before : List (List ℕ)) → HoldsTexts names.old before
        → first.new ≡ with_breaks first.old (of_each (repeat_at before
        (item_name (known_sets known.now) (known_modifiers known.now) (ref_view item.entry)))
        (name_string (ref_view item.entry)))) }
    ensures names { OnOk result ((before : List (List ℕ)) → HoldsTexts names.old before
        → HoldsTexts names.new (with_name before
        (item_name (known_sets known.now) (known_modifiers known.now) (ref_view item.entry)))) }
{
    let Some(name) = item_name(alloc, known, item)? else {
        return Ok(());
    };
    repeat_at(&name, name_string(item), names, first);
    names.put_first(name.as_str().as_bytes(), 0)
}

// Takes in the breaks of those of these items that have the name of an earlier one.
fn repeats_among<'a, 's>(
    alloc: Global,
    known: &Known<'a, 's>,
    items: Items<'a, 's>,
    first: &mut Option<Break>,
) -> Result<(), NoMemory>
    ensures { OnOk result (first.new ≡ with_breaks first.old
        (repeats (known_sets known.now) (known_modifiers known.now) [] (items_view items.entry))) }
{
    let mut names = Pointers::new(alloc);
    for item in items {
        repeat(alloc, known, item, &mut names, first)?;
    }
    Ok(())
}

/// Takes in the breaks of items that have the name of an earlier one.
pub(crate) fn repeats<'a, 's>(
    alloc: Global,
    known: &Known<'a, 's>,
    root: NodeRef<'a, 's>,
    first: &mut Option<Break>,
) -> Result<(), NoMemory>
    ensures { OnOk result (first.new ≡ with_breaks first.old
        (repeats (known_sets known.now) (known_modifiers known.now) []
        (order_items (ref_view root.entry)))) }
{
    let Some(node) = member(root, "resolutionOrder") else {
        return Ok(());
    };
    match node.as_array() {
        Some(items) => repeats_among(alloc, known, items, first),
        None => Ok(()),
    }
}
