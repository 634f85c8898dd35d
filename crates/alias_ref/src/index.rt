//! Indices of items as steps.

ghost use Rattle.std.specs.Prelude.{◌≡◌, ◌≢◌, ◌<◌, ◌^◌, ℕ, length, slice_get, option_map, IfOk};
ghost use Rattle.std.specs.Prelude.{IfSome, IfNone};
ghost use Rattle.std.specs.Fmt.{decimal};
ghost use Rattle.alias_ref.specs.Written.{parts_by_index, part_under};
ghost use Rattle.json_span.specs.View.{ref_view, items_view};

use itoa::Buffer;
use json_span::{Items, NodeRef};
use std::alloc::Global;
use tk_io::{NoMemory, Text};

/// The index that a step spells in decimal digits; none where it spells none of a list.
fn index_of(step: &str) -> Option<usize>
    ensures some { IfSome result (λ i. step.now ≡ decimal i) }
    ensures none { IfNone result ((i : ℕ) → i < 2 ^ 64 → step.now ≢ decimal i) }
{
    let Ok(index) = step.parse::<usize>() else {
        return None;
    };
    let mut buffer = Buffer::new();
    if buffer.format(index) == step {
        return Some(index);
    }
    None
}

/// The i-th item, counted from 0.
fn nth<'a, 's>(items: Items<'a, 's>, i: usize) -> Option<NodeRef<'a, 's>>
    ensures { option_map ref_view result ≡ slice_get (items_view items.entry) i }
{
    let mut left = i;
    for node in items {
        if left == 0 {
            return Some(node);
        }
        left -= 1;
    }
    None
}

/// The item whose index the step spells.
pub(crate) fn item<'a, 's>(items: Items<'a, 's>, step: &str) -> Option<NodeRef<'a, 's>>
    requires { length (items_view items) < 2 ^ 64 }
    ensures { option_map ref_view result
        ≡ part_under step.now (parts_by_index 0 (items_view items.entry)) }
{
    let i = index_of(step)?;
    nth(items, i)
}

/// The step to the item of an index.
pub(crate) fn index_text<'s>(alloc: Global, i: usize) -> Result<Text<'s>, NoMemory>
    ensures { IfOk result (λ t. t ≡ decimal i) }
{
    let mut buffer = Buffer::new();
    Text::owned(alloc, buffer.format(i))
}
