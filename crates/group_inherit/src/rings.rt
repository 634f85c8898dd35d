//! Cycles of groups that need each other, as rings of their graph.

ghost use Rattle.std.specs.Prelude.{◌≡◌, ◌<◌, ◌+◌, [], Some, IfOk, IfErr, OnOk, All};
ghost use Rattle.std.specs.Prelude.{length, map, slice_index_or};
ghost use Rattle.ring.specs.Graph.{needs_in, IsGraph};
ghost use Rattle.ring.specs.Order.{IsOrder};
ghost use Rattle.token_tree.specs.View.{group_view};
ghost use Rattle.token_tree.specs.Tree.{Extension};
ghost use Rattle.group_inherit.specs.Answer.{IsAcyclic, IsTreeBreak};
ghost use Rattle.group_inherit.specs.Extension.{extension_to, lost_targets};
ghost use Rattle.group_inherit.specs.inner.Faults.{IsReportOf};
ghost use Rattle.group_inherit.specs.inner.Outcomes.{extension_view};
ghost use Rattle.group_inherit.specs.inner.View.{nodes_view};
ghost use Rattle.group_inherit.specs.inner.Numbering.{AreNeeds, IsNumbering};
ghost use Rattle.group_inherit.specs.inner.Numbering.{extension_in, numbered_group, numbered_path};

use crate::fault::{TreeFault, span_of};
use crate::numbered::Node;
use name_path::{Path, Paths};
use ring::{Found, ring_or_order};
use std::alloc::Global;
use tk_io::NoMemory;
use token_tree::{Extends, Group};

// What the group says of its target, where that is at the path.
fn extension_to<'t, 's>(group: &'t Group<'s>, next: &Path<'s>) -> Option<&'t Extends<'s>>
    ensures { extension_view result ≡ extension_to next.now (group_view group.entry.now) }
{
    match &group.extends {
        None => None,
        Some(extends) => {
            if extends.target == *next {
                return Some(extends);
            }
            None
        }
    }
}

// The number after the i-th one; after the last comes the first.
fn next_in(ring: &[usize], i: usize) -> usize
    requires { i < length ring.now }
    ensures { result ≡ slice_index_or ring.now (i + 1) (slice_index_or ring.now 0 0) }
{
    if i + 1 < ring.len() {
        return ring[i + 1];
    }
    ring[0]
}

// What the first of the ring's groups whose target is the ring's next group says of it.
fn ring_extension<'t, 's>(nodes: &[Node<'t, 's>], ring: &[usize]) -> Option<&'t Extends<'s>>
    requires { All (λ v. v < length nodes.now) ring.now }
    ensures { extension_view result ≡ extension_in (nodes_view nodes.now) ring.now }
{
    for i in 0..ring.len() {
        let next = next_in(ring, i);
        let found = extension_to(nodes[ring[i]].group, &nodes[next].path);
        if found.is_some() {
            return found;
        }
    }
    None
}

// The paths of the groups of a ring of numbers.
fn ring_paths<'s>(
    alloc: Global,
    nodes: &[Node<'_, 's>],
    ring: &[usize],
) -> Result<Paths<'s>, NoMemory>
    requires { All (λ v. v < length nodes.now) ring.now }
    ensures { IfOk result (λ paths. paths ≡ map (numbered_path (nodes_view nodes.now)) ring.now) }
{
    let mut paths = Paths::new(alloc);
    for v in ring {
        paths.push(nodes[*v].path.copy()?)?;
    }
    Ok(paths)
}

// The ring by its paths, and where it is reported.
fn ring_fault<'s>(
    alloc: Global,
    nodes: &[Node<'_, 's>],
    ring: &[usize],
) -> Result<TreeFault<'s>, NoMemory>
    requires within { All (λ v. v < length nodes.now) ring.now }
    requires some { (e : Extension) × (extension_in (nodes_view nodes.now) ring.now ≡ Some e) }
    ensures { IfOk result (IsReportOf (nodes_view nodes.now) ring.now) }
{
    let Some(extends) = ring_extension(nodes, ring) else {
        unreachable!()
    };
    let paths = ring_paths(alloc, nodes, ring)?;
    Ok(TreeFault::ExtendsCycle(paths, span_of(extends)))
}

/// The groups in an order in which each follows what it needs. Where there is none, the ring of the first closed route
/// from the root is the fault.
pub(crate) fn finish_order<'s>(
    alloc: Global,
    nodes: &[Node<'_, 's>],
    needs: &[Vec<usize>],
) -> Result<Vec<usize>, TreeFault<'s>>
    requires numbering { IsNumbering (nodes_view nodes.now) }
    requires targets { lost_targets (numbered_group (nodes_view nodes.now) 0) ≡ [] }
    requires graph { IsGraph needs.now }
    requires long { length needs.now ≡ length nodes.now }
    requires needs { AreNeeds (nodes_view nodes.now) needs.now }
    ensures no_ring { OnOk result (IsAcyclic (numbered_group (nodes_view nodes.now) 0)) }
    ensures order { IfOk result (λ order. IsOrder (needs_in needs.now) 0 order.items) }
    ensures within { IfOk result (λ order. All (λ v. v < length needs.now) order.items) }
    ensures broken { IfErr result (IsTreeBreak (numbered_group (nodes_view nodes.now) 0)) }
{
    match ring_or_order(alloc, needs, 0)? {
        Found::Order(order) => Ok(order),
        Found::Ring(ring) => Err(ring_fault(alloc, nodes, ring.as_slice())?),
    }
}
