//! Sets, modifiers and the items of the order, and the references among them that name nothing.

ghost use Rattle.std.specs.Prelude.{◌≡◌, [], IfOk, OnOk, Option, codes, map, option_map, unwrap_or};
ghost use Rattle.std.specs.List.{flat_map};
ghost use Rattle.std.specs.Str.{bytes_eq};
ghost use Rattle.json_span.specs.View.{ref_view, field_view};
ghost use Rattle.resolver_doc.specs.Break.{with_breaks};
ghost use Rattle.resolver_doc.specs.Document.{set_item, context_of, named_list, set_of, sources_in};
ghost use Rattle.resolver_doc.specs.Document.{member_entries, name_in, member_text, modifier_of};
ghost use Rattle.resolver_doc.specs.Document.{own_item, order_item, named_item, text_at, set_number};
ghost use Rattle.resolver_doc.specs.Document.{order_items};
ghost use Rattle.resolver_doc.specs.Form.{unreserved, context_entries, entries_at};
ghost use Rattle.resolver_doc.specs.Naming.{of_each, sources_breaks, set_breaks, modifier_breaks};
ghost use Rattle.resolver_doc.specs.Naming.{own_breaks, item_breaks, named_item_breaks};
ghost use Rattle.resolver_doc.specs.View.{set_view, sets_view, item_view, order_view};
ghost use Rattle.resolver_doc.specs.inner.Known.{known_sets, known_modifiers};

use crate::form::{is_counted, is_word};
use crate::known::Known;
use crate::members::{member, member_text, text_at, text_or_empty};
use crate::rule::{Break, PlanRule, at_value};
use crate::sources::sources;
use crate::written::{Contexts, Item, Order, SetDef, Sets, Written};
use json_span::{Field, NodeRef};
use std::alloc::Global;
use tk_io::{NoMemory, Text};

/// The sets of the document. Breaks of references in them are taken in.
pub(crate) fn sets<'a, 's>(
    alloc: Global,
    known: &Known<'a, 's>,
    first: &mut Option<Break>,
) -> Result<Sets<'a, 's>, NoMemory>
    ensures sets { IfOk result
        (λ sets. sets_view sets ≡ map (set_of (known_sets known.now)) (known_sets known.now)) }
    ensures breaks { OnOk result (first.new ≡ with_breaks first.old (flat_map
        (λ e. set_breaks (known_sets known.now) (entries_at e.value)) (known_sets known.now))) }
{
    let mut sets = Sets::new(alloc);
    for field in known.sets.as_slice() {
        let list = member(field.value(), "sources");
        sets.push(named_list(alloc, known, *field, list, first)?)?;
    }
    Ok(sets)
}

// A set or a context: the name of a member, and the sources of a list, where there is one. Breaks of references in it are
// taken in.
fn named_list<'a, 's>(
    alloc: Global,
    known: &Known<'a, 's>,
    field: Field<'a, 's>,
    list: Option<NodeRef<'a, 's>>,
    first: &mut Option<Break>,
) -> Result<SetDef<'a, 's>, NoMemory>
    ensures named { IfOk result (λ named. set_view named ≡ named_list (known_sets known.now)
        (field_view field.entry).name (option_map ref_view list.entry)) }
    ensures breaks { OnOk result (first.new ≡ with_breaks first.old
        (of_each (sources_breaks (known_sets known.now)) (option_map ref_view list.entry))) }
{
    let name = field.name(alloc)?;
    let sources = sources(alloc, known, list, first)?;
    Ok(SetDef { name, sources })
}

// The contexts of a modifier. Breaks of references in them are taken in.
fn contexts<'a, 's>(
    alloc: Global,
    known: &Known<'a, 's>,
    modifier: NodeRef<'a, 's>,
    first: &mut Option<Break>,
) -> Result<Contexts<'a, 's>, NoMemory>
    ensures contexts { IfOk result
        (λ contexts. sets_view contexts ≡ map (context_of (known_sets known.now))
        (unreserved (context_entries (entries_at (ref_view modifier.entry))))) }
    ensures breaks { OnOk result (first.new ≡ with_breaks first.old
        (modifier_breaks (known_sets known.now) (entries_at (ref_view modifier.entry)))) }
{
    let mut contexts = Contexts::new(alloc);
    let Some(node) = member(modifier, "contexts") else {
        return Ok(contexts);
    };
    let Some(fields) = node.as_object() else {
        return Ok(contexts);
    };
    for field in fields {
        if is_counted(alloc, field)? {
            contexts.push(named_list(alloc, known, field, Some(field.value()), first)?)?;
        }
    }
    Ok(contexts)
}

/// Takes in the breaks of references in the modifiers of the document.
pub(crate) fn check_modifiers(
    alloc: Global,
    known: &Known<'_, '_>,
    first: &mut Option<Break>,
) -> Result<(), NoMemory>
    ensures { OnOk result (first.new ≡ with_breaks first.old
        (flat_map (λ e. modifier_breaks (known_sets known.now) (entries_at e.value))
        (known_modifiers known.now))) }
{
    for field in known.modifiers.as_slice() {
        let _ = contexts(alloc, known, field.value(), first)?;
    }
    Ok(())
}

// The modifier of this name. Breaks of references in it are taken in.
fn modifier<'a, 's>(
    alloc: Global,
    known: &Known<'a, 's>,
    name: Text<'s>,
    node: NodeRef<'a, 's>,
    first: &mut Option<Break>,
) -> Result<Item<'a, 's>, NoMemory>
    ensures modifier { IfOk result (λ item. item_view item
        ≡ modifier_of (known_sets known.now) name.entry (entries_at (ref_view node.entry))) }
    ensures breaks { OnOk result (first.new ≡ with_breaks first.old
        (modifier_breaks (known_sets known.now) (entries_at (ref_view node.entry)))) }
{
    let contexts = contexts(alloc, known, node, first)?;
    let default = member_text(alloc, node, "default")?;
    Ok(Item::Modifier(name, contexts, default))
}

// The sources of the set of the number.
fn named_set<'a, 's>(
    alloc: Global,
    known: &Known<'a, 's>,
    number: usize,
) -> Result<Item<'a, 's>, NoMemory>
    ensures { IfOk result (λ item. item_view item ≡ set_item
        (sources_in (known_sets known.now) (member_entries (known_sets known.now) number))) }
{
    let Some(field) = known.sets.get(number) else {
        return Ok(Item::Set(Written::new(alloc)));
    };
    let mut seen_before = None;
    let list = member(field.value(), "sources");
    let sources = sources(alloc, known, list, &mut seen_before)?;
    Ok(Item::Set(sources))
}

// The modifier of the number.
fn named_modifier<'a, 's>(
    alloc: Global,
    known: &Known<'a, 's>,
    number: usize,
) -> Result<Item<'a, 's>, NoMemory>
    ensures { IfOk result (λ item. item_view item ≡ modifier_of (known_sets known.now)
        (name_in (known_modifiers known.now) number)
        (member_entries (known_modifiers known.now) number)) }
{
    let Some(field) = known.modifiers.get(number) else {
        return Ok(Item::Modifier(Text::of(""), Contexts::new(alloc), None));
    };
    let mut seen_before = None;
    let name = field.name(alloc)?;
    modifier(alloc, known, name, field.value(), &mut seen_before)
}

// Whether an item that is no reference is a set.
fn is_own_set(alloc: Global, node: NodeRef<'_, '_>) -> Result<bool, NoMemory>
    ensures { IfOk result (λ is_set. is_set ≡ bytes_eq
        (unwrap_or (member_text (codes "type") (entries_at (ref_view node.entry))) [])
        (codes "set")) }
{
    let kind = text_or_empty(alloc, node, "type")?;
    Ok(is_word(kind.as_str(), "set"))
}

// An item that is a set or a modifier of its own. Breaks of references in it are taken in.
fn own_item<'a, 's>(
    alloc: Global,
    known: &Known<'a, 's>,
    node: NodeRef<'a, 's>,
    first: &mut Option<Break>,
) -> Result<Item<'a, 's>, NoMemory>
    ensures item { IfOk result (λ item. item_view item
        ≡ own_item (known_sets known.now) (entries_at (ref_view node.entry))) }
    ensures breaks { OnOk result (first.new ≡ with_breaks first.old
        (own_breaks (known_sets known.now) (entries_at (ref_view node.entry)))) }
{
    if is_own_set(alloc, node)? {
        let list = member(node, "sources");
        return Ok(Item::Set(sources(alloc, known, list, first)?));
    }
    let name = text_or_empty(alloc, node, "name")?;
    modifier(alloc, known, name, node, first)
}

// The item that a string names. A string that names nothing is taken in as a break.
fn named_item<'a, 's>(
    alloc: Global,
    known: &Known<'a, 's>,
    string: NodeRef<'a, 's>,
    first: &mut Option<Break>,
) -> Result<Item<'a, 's>, NoMemory>
    ensures item { IfOk result (λ item. item_view item ≡ named_item
        (known_sets known.now) (known_modifiers known.now) (text_at (ref_view string.entry))
        (set_number (known_sets known.now) (text_at (ref_view string.entry)))) }
    ensures breaks { OnOk result (first.new ≡ with_breaks first.old (named_item_breaks
        (known_sets known.now) (known_modifiers known.now) (ref_view string.entry))) }
{
    let text = text_at(alloc, string)?;
    if let Some(number) = known.set_number(&text) {
        return named_set(alloc, known, number);
    }
    if let Some(number) = known.modifier_number(&text) {
        return named_modifier(alloc, known, number);
    }
    at_value(PlanRule::Reference, string, first);
    Ok(Item::Set(Written::new(alloc)))
}

// An item of the order: the set or modifier that it names, or that stands in place.
fn item<'a, 's>(
    alloc: Global,
    known: &Known<'a, 's>,
    node: NodeRef<'a, 's>,
    first: &mut Option<Break>,
) -> Result<Item<'a, 's>, NoMemory>
    ensures item { IfOk result (λ item. item_view item
        ≡ order_item (known_sets known.now) (known_modifiers known.now) (ref_view node.entry)) }
    ensures breaks { OnOk result (first.new ≡ with_breaks first.old
        (item_breaks (known_sets known.now) (known_modifiers known.now) (ref_view node.entry))) }
{
    match member(node, "$ref") {
        Some(string) => named_item(alloc, known, string, first),
        None => own_item(alloc, known, node, first),
    }
}

/// The items of the order. Breaks of references in them are taken in.
pub(crate) fn order<'a, 's>(
    alloc: Global,
    known: &Known<'a, 's>,
    root: NodeRef<'a, 's>,
    first: &mut Option<Break>,
) -> Result<Order<'a, 's>, NoMemory>
    ensures order { IfOk result (λ order. order_view order
        ≡ map (order_item (known_sets known.now) (known_modifiers known.now))
        (order_items (ref_view root.entry))) }
    ensures breaks { OnOk result (first.new ≡ with_breaks first.old
        (flat_map (item_breaks (known_sets known.now) (known_modifiers known.now))
        (order_items (ref_view root.entry)))) }
{
    let mut order = Order::new(alloc);
    let Some(node) = member(root, "resolutionOrder") else {
        return Ok(order);
    };
    let Some(items) = node.as_array() else {
        return Ok(order);
    };
    for node in items {
        order.push(item(alloc, known, node, first)?)?;
    }
    Ok(order)
}
