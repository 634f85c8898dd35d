//! Which places are written.

ghost use Rattle.std.specs.Prelude.{◌≡◌, IfOk, option_map};
ghost use Rattle.std.specs.Fmt.{decimal};
ghost use Rattle.std.specs.Str.{bytes_eq};
ghost use Rattle.json_span.specs.View.{ref_view, items_view};
ghost use Rattle.alias_ref.specs.Written.{is_written, part_behind, part_under, parts_by_index};
ghost use Rattle.alias_ref.specs.Written.{value_at, whole, written_in};

use group_inherit::{Entry, Flat};
use itoa::Buffer;
use json_span::{Items, NodeRef};
use name_path::{Place, Trail};
use std::alloc::Global;
use tk_io::{NoMemory, Text};

/// The place of the whole value of the token that the place is in.
pub(crate) fn whole_of<'s>(alloc: Global, place: &Place<'s>) -> Result<Place<'s>, NoMemory>
    ensures { IfOk result (λ p. p ≡ whole place.now.token) }
{
    let token = place.token.copy()?;
    Ok(Place {
        token,
        trail: Trail::new(alloc),
    })
}

/// Whether the step spells the index in decimal digits.
fn is_index(at: usize, step: &str) -> bool
    ensures { result ≡ bytes_eq (decimal at) step.now }
{
    let mut buffer = Buffer::new();
    buffer.format(at) == step
}

/// The item whose index the step spells.
fn item<'a, 's>(items: Items<'a, 's>, step: &str) -> Option<NodeRef<'a, 's>>
    ensures { option_map ref_view result
        ≡ part_under step.now (parts_by_index 0 (items_view items.entry)) }
{
    let _ = items.len();
    let mut at = 0;
    for node in items {
        if is_index(at, step) {
            return Some(node);
        }
        at += 1;
    }
    None
}

/// The part of the value after the step.
fn part<'a, 's>(node: NodeRef<'a, 's>, step: &str) -> Option<NodeRef<'a, 's>>
    ensures { option_map ref_view result ≡ part_behind (ref_view node.entry) step.now }
{
    if let Some(items) = node.as_array() {
        return item(items, step);
    }
    if let Some(fields) = node.as_object() {
        return fields.get(step);
    }
    None
}

/// The value to which the steps lead in the value of a token.
pub(crate) fn value_in<'a, 's>(entry: &'a Entry<'s>, steps: &[Text<'s>]) -> Option<NodeRef<'a, 's>>
    ensures { option_map ref_view result ≡ value_at entry.entry.now.def.value steps.now }
{
    let mut node = entry.def.value.as_ref();
    for step in steps {
        let Some(next) = part(node, step.as_str()) else {
            return None;
        };
        node = next;
    }
    Some(node)
}

/// Whether the place is written: its token is in the tree, and its steps lead through members and items of the token's value
/// to a value. References are not followed.
pub fn written<'s>(flat: &Flat<'s>, place: &Place<'s>) -> bool
    ensures { result ≡ is_written (written_in flat.now place.now) }
{
    let Some(entry) = flat.get(&place.token) else {
        return false;
    };
    value_in(entry, place.trail.as_slice()).is_some()
}
