//! Whether a tree breaks a rule of extension, and its groups in a topological order of what they need.

ghost use Rattle.std.specs.Prelude.{◌≡◌, ◌<◌, [], All, IfOk, IfErr, OnOk, length};
ghost use Rattle.ring.specs.Graph.{needs_in, IsGraph};
ghost use Rattle.ring.specs.Order.{Follows, IsOrder};
ghost use Rattle.ring.specs.Lists.{In};
ghost use Rattle.token_tree.specs.View.{group_view};
ghost use Rattle.group_inherit.specs.Answer.{IsAcyclic, IsCounted, IsSound, IsTreeBreak};
ghost use Rattle.group_inherit.specs.Extension.{lost_targets};
ghost use Rattle.group_inherit.specs.inner.Outcomes.{IsReady};
ghost use Rattle.group_inherit.specs.inner.View.{nodes_view};
ghost use Rattle.group_inherit.specs.inner.Numbering.{IsNumbering, AreNeeds, AreRows};
ghost use Rattle.group_inherit.specs.inner.Numbering.{numbered_group, needs_by};

use crate::fault::TreeFault;
use crate::numbered::{Node, numbered_groups};
use crate::rings::finish_order;
use crate::sizes::{check_count, check_height};
use crate::targets::{Row, listed, places, rows};
use std::alloc::Global;
use token_tree::Group;

/// The groups of a tree that breaks no rule, in path order.
#[derive(Drop)]
pub(crate) struct ReadyTree<'t, 's> {
    pub nodes: Vec<Node<'t, 's>>,
    /// What each group needs, by numbers.
    pub rows: Vec<Row>,
    /// The groups' numbers, each after all that the group needs.
    pub order: Vec<usize>,
}

// What each group needs, by numbers; or the first target in path order that is no group.
fn checked_rows<'s>(alloc: Global, nodes: &[Node<'_, 's>]) -> Result<Vec<Row>, TreeFault<'s>>
    requires { IsNumbering (nodes_view nodes.now) }
    ensures long { IfOk result (λ rows. length rows.items ≡ length nodes.now) }
    ensures rows { IfOk result (λ rows. AreRows (nodes_view nodes.now) rows.items) }
    ensures targets { OnOk result (lost_targets (numbered_group (nodes_view nodes.now) 0) ≡ []) }
    ensures broken { IfErr result (IsTreeBreak (numbered_group (nodes_view nodes.now) 0)) }
{
    let numbers = places(alloc, nodes)?;
    let table = rows(alloc, nodes, &numbers)?;
    Ok(table)
}

// An order in which each group follows what it needs; or the first rule that is broken after that of targets: rings,
// counts.
fn counted_order<'s>(
    alloc: Global,
    nodes: &[Node<'_, 's>],
    needs: &[Vec<usize>],
) -> Result<Vec<usize>, TreeFault<'s>>
    requires numbering { IsNumbering (nodes_view nodes.now) }
    requires targets { lost_targets (numbered_group (nodes_view nodes.now) 0) ≡ [] }
    requires graph { IsGraph needs.now }
    requires long { length needs.now ≡ length nodes.now }
    requires needs { AreNeeds (nodes_view nodes.now) needs.now }
    ensures rings { OnOk result (IsAcyclic (numbered_group (nodes_view nodes.now) 0)) }
    ensures counted { OnOk result (IsCounted (numbered_group (nodes_view nodes.now) 0)) }
    ensures within { IfOk result (λ order. All (λ v. v < length needs.now) order.items) }
    ensures order { IfOk result (λ order. IsOrder (needs_in needs.now) 0 order.items) }
    ensures broken { IfErr result (IsTreeBreak (numbered_group (nodes_view nodes.now) 0)) }
{
    let order = finish_order(alloc, nodes, needs)?;
    check_count(alloc, nodes, needs, order.as_slice())?;
    Ok(order)
}

// The same of the groups' rows, and heights.
fn order_of<'s>(
    alloc: Global,
    nodes: &[Node<'_, 's>],
    rows: &[Row],
) -> Result<Vec<usize>, TreeFault<'s>>
    requires numbering { IsNumbering (nodes_view nodes.now) }
    requires targets { lost_targets (numbered_group (nodes_view nodes.now) 0) ≡ [] }
    requires long { length rows.now ≡ length nodes.now }
    requires rows { AreRows (nodes_view nodes.now) rows.now }
    ensures sound { OnOk result (IsSound (numbered_group (nodes_view nodes.now) 0)) }
    ensures within { IfOk result (λ order. All (λ v. v < length nodes.now) order.items) }
    ensures follows { IfOk result (λ order. Follows (needs_by rows.now) [] order.items) }
    ensures root { IfOk result (λ order. In 0 order.items) }
    ensures broken { IfErr result (IsTreeBreak (numbered_group (nodes_view nodes.now) 0)) }
{
    let lists = listed(alloc, rows)?;
    let order = counted_order(alloc, nodes, lists.as_slice())?;
    check_height(alloc, nodes, rows, order.as_slice())?;
    Ok(order)
}

/// The groups of a tree in the order in which they are expanded, or the first rule of extension that the tree breaks:
/// lost targets, rings, counts, heights.
pub(crate) fn checked<'t, 's>(
    alloc: Global,
    tree: &'t Group<'s>,
) -> Result<ReadyTree<'t, 's>, TreeFault<'s>>
    ensures sound { OnOk result (IsSound (group_view tree.entry.now)) }
    ensures ready { IfOk result (IsReady (group_view tree.entry.now)) }
    ensures broken { IfErr result (IsTreeBreak (group_view tree.entry.now)) }
{
    let nodes = numbered_groups(alloc, tree)?;
    let table = checked_rows(alloc, nodes.as_slice())?;
    let order = order_of(alloc, nodes.as_slice(), table.as_slice())?;
    Ok(ReadyTree {
        nodes,
        rows: table,
        order,
    })
}
