//! Reading the shape of a file.

ghost use Rattle.std.specs.Prelude.{◌≡◌, [], OnOk, IfOk, IfErr};
ghost use Rattle.json_span.specs.View.{node_view};
ghost use Rattle.token_tree.specs.Answer.{TellsFirst, IsShapeOf};
ghost use Rattle.token_tree.specs.Promise.{StandsIn};
ghost use Rattle.token_tree.specs.Shape.{shape_breaks};

use crate::fault::{Rule, ShapeFault};
use crate::group::read_group;
use crate::listed_members::ListedMembers;
use crate::tree::Group;
use json_span::Node;
use std::alloc::Global;

/// The groups and tokens of a file, or of an object in it: the file's name, its text, and the value
/// of the text that is the root (Format Module 2025.10, groups and tokens).
///
/// # Errors
///
/// [`ShapeFault::Broken`] exactly where a rule is broken, with the first break in the order of the
/// text.
pub fn shape<'s>(
    alloc: Global,
    file: &'s str,
    text: &'s str,
    root: &Node<'s>,
) -> Result<Group<'s>, ShapeFault>
    // The text has a reading without a flaw, and the root is a value of it.
    requires { StandsIn text.now (node_view root.now) }
    ensures sound { OnOk result (shape_breaks (node_view root.now) ≡ []) }
    ensures ok { IfOk result (IsShapeOf file.entry.now text.entry.now (node_view root.now)) }
    ensures broken { IfErr result (TellsFirst (shape_breaks (node_view root.now))) }
{
    let Some(fields) = root.as_object() else {
        return Err(ShapeFault::Broken(Rule::Root, root.start(), root.end()));
    };
    let listed = ListedMembers::among(alloc, text, &fields)?;
    if listed.are_token() {
        return Err(ShapeFault::Broken(Rule::Root, root.start(), root.end()));
    }
    read_group(alloc, file, text, &fields, &listed)
}
