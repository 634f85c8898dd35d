//! Where places stand in their files.

ghost use Rattle.std.specs.Prelude.{◌≡◌, ◌<◌, ◌^◌, Some, List, length, option_map};
ghost use Rattle.std.specs.FinMap as map;
ghost use Rattle.group_inherit.specs.Flattening.{Flattened};
ghost use Rattle.json_span.specs.Tree.{Placed, array_in};
ghost use Rattle.alias_ref.specs.Span.{span_in};
ghost use Rattle.alias_ref.specs.Written.{Role};
ghost use Rattle.json_span.specs.View.{ref_view, json_view};
ghost use Rattle.alias_ref.specs.inner.Steps.{next_in};

use crate::index::item;
use group_inherit::Flat;
use json_span::NodeRef;
use name_path::Place;

/// The byte offsets of a place in the file of its token's definition: the steps are followed in the written value until they
/// end, a reference stands there, or the next one leads to nothing. The flat tree holds the place's token.
pub fn span_of<'s>(flat: &Flat<'s>, place: &Place<'s>) -> (usize, usize)
    requires token { (f : Flattened) × (map.get flat.now place.now.token ≡ Some f) }
    ensures { Some result ≡ span_in flat.now place.now }
{
    let Some(entry) = flat.get(&place.token) else {
        unreachable!()
    };
    entry.def.keeps();
    let _ = entry.def.source.len();
    let mut node = entry.def.value.as_ref();
    let steps = place.trail.as_slice();
    for step in steps {
        let Some(next) = next_node(node, step.as_str()) else {
            return (node.start(), node.end());
        };
        node = next;
    }
    (node.start(), node.end())
}

/// The part after a step, where the value is no reference. No string has parts, so none has to be read.
fn next_node<'a, 's>(node: NodeRef<'a, 's>, step: &str) -> Option<NodeRef<'a, 's>>
    requires short { (ns : List Placed) → array_in (json_view node) ≡ Some ns → length ns < 2 ^ 64 }
    ensures { (role : Role) → option_map ref_view result
        ≡ next_in role (ref_view node.entry) step.now }
{
    if let Some(items) = node.as_array() {
        return item(items, step);
    }
    let fields = node.as_object()?;
    if fields.get("$ref").is_some() {
        return None;
    }
    fields.get(step)
}
