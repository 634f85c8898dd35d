//! Counts and heights of groups.

ghost use Rattle.std.specs.Prelude.{◌≡◌, ◌<◌, [], IfOk, IfErr, IfSome, OnOk, All, length};
ghost use Rattle.ring.specs.Graph.{needs_in, IsGraph};
ghost use Rattle.ring.specs.Order.{Follows};
ghost use Rattle.ring.specs.Lists.{In};
ghost use Rattle.token_tree.specs.View.{group_view};
ghost use Rattle.group_inherit.specs.Answer.{IsAcyclic, IsCounted, IsLow, IsTreeBreak};
ghost use Rattle.group_inherit.specs.Extension.{children_in, group_names, tokens_height};
ghost use Rattle.group_inherit.specs.Extension.{lost_targets};
ghost use Rattle.group_inherit.specs.inner.Numbering.{AreNeeds, AreRows, IsNumbering};
ghost use Rattle.group_inherit.specs.inner.Numbering.{numbered_group, needs_by, numbers_of};
ghost use Rattle.group_inherit.specs.inner.Outcomes.{AreHeights, HaveNumbers};
ghost use Rattle.group_inherit.specs.inner.Outcomes.{capped_height, own_counts};
ghost use Rattle.group_inherit.specs.inner.View.{nodes_view};

use crate::fault::TreeFault;
use crate::numbered::Node;
use crate::targets::Row;
use ring::capped_totals;
use std::alloc::Global;
use tk_io::NoMemory;
use token_tree::Group;

pub(crate) const MOST_MEMBERS: u64 = 16_384;

pub(crate) const HIGHEST: u64 = 64;

pub(crate) const LIMIT: u64 = 1_000_000;

// How many members each group has.
fn own_counts(alloc: Global, nodes: &[Node<'_, '_>]) -> Result<Vec<u64>, NoMemory>
    ensures { IfOk result (λ own. own.items ≡ own_counts (nodes_view nodes.now)) }
{
    let mut own = Vec::new(alloc);
    for node in nodes {
        own.push(node.group.members.len() as u64)?;
    }
    Ok(own)
}

/// That the root has at most 16,384 members in all, overridden ones included.
pub(crate) fn check_count<'s>(
    alloc: Global,
    nodes: &[Node<'_, 's>],
    needs: &[Vec<usize>],
    order: &[usize],
) -> Result<(), TreeFault<'s>>
    requires numbering { IsNumbering (nodes_view nodes.now) }
    requires targets { lost_targets (numbered_group (nodes_view nodes.now) 0) ≡ [] }
    requires rings { IsAcyclic (numbered_group (nodes_view nodes.now) 0) }
    requires graph { IsGraph needs.now }
    requires long { length needs.now ≡ length nodes.now }
    requires needs { AreNeeds (nodes_view nodes.now) needs.now }
    requires within { All (λ v. v < length needs.now) order.now }
    requires order { Follows (needs_in needs.now) [] order.now }
    requires root { In 0 order.now }
    ensures ok { OnOk result (IsCounted (numbered_group (nodes_view nodes.now) 0)) }
    ensures broken { IfErr result (IsTreeBreak (numbered_group (nodes_view nodes.now) 0)) }
{
    let own = own_counts(alloc, nodes)?;
    let counts = capped_totals(alloc, needs, order, own.as_slice())?;
    let count = counts[0];
    if count > MOST_MEMBERS {
        return Err(TreeFault::TooManyTokens(count));
    }
    Ok(())
}

// 1 where there is a token, so that there are more members than child groups.
fn tokens_height(group: &Group<'_>, children: usize) -> u64
    requires { children ≡ length (group_names (group_view group.now)) }
    ensures { result ≡ tokens_height (children_in (group_view group.now)) }
{
    if children < group.members.len() {
        return 1;
    }
    0
}

// The height of a group, or a million where that is more, from those in the table of what its row names.
fn height_at(group: &Group<'_>, row: &Row, table: &[u64]) -> u64
    requires within { All (λ w. w < length table.now) row.now.children.items }
    requires target { IfSome row.now.target (λ w. w < length table.now) }
    requires many { HaveNumbers group.now.members row.now.children.items }
    ensures { result ≡ capped_height (group_view group.now) table.now (numbers_of row.now) }
{
    let mut height = tokens_height(group, row.children.len());
    for child in row.children.as_slice() {
        height = height.max(table[*child].saturating_add(1));
    }
    match row.target {
        None => height.min(LIMIT),
        Some(target) => height.max(table[target]).min(LIMIT),
    }
}

// The height of each group of an order, or a million where that is more.
fn capped_heights(
    alloc: Global,
    nodes: &[Node<'_, '_>],
    rows: &[Row],
    order: &[usize],
) -> Result<Vec<u64>, NoMemory>
    requires numbering { IsNumbering (nodes_view nodes.now) }
    requires rows { AreRows (nodes_view nodes.now) rows.now }
    requires long { length rows.now ≡ length nodes.now }
    requires within { All (λ v. v < length nodes.now) order.now }
    requires order { Follows (needs_by rows.now) [] order.now }
    ensures long { IfOk result (λ table. length table.items ≡ length nodes.now) }
    ensures heights { IfOk result (λ table. AreHeights nodes.now order.now table.items) }
{
    let mut table = vec![in alloc; 0; nodes.len()]?;
    for v in order {
        table[*v] = height_at(nodes[*v].group, &rows[*v], table.as_slice());
    }
    Ok(table)
}

/// That the root is at most 64 levels high.
pub(crate) fn check_height<'s>(
    alloc: Global,
    nodes: &[Node<'_, 's>],
    rows: &[Row],
    order: &[usize],
) -> Result<(), TreeFault<'s>>
    requires numbering { IsNumbering (nodes_view nodes.now) }
    requires targets { lost_targets (numbered_group (nodes_view nodes.now) 0) ≡ [] }
    requires rings { IsAcyclic (numbered_group (nodes_view nodes.now) 0) }
    requires counted { IsCounted (numbered_group (nodes_view nodes.now) 0) }
    requires rows { AreRows (nodes_view nodes.now) rows.now }
    requires long { length rows.now ≡ length nodes.now }
    requires within { All (λ v. v < length nodes.now) order.now }
    requires order { Follows (needs_by rows.now) [] order.now }
    requires root { In 0 order.now }
    ensures ok { OnOk result (IsLow (numbered_group (nodes_view nodes.now) 0)) }
    ensures broken { IfErr result (IsTreeBreak (numbered_group (nodes_view nodes.now) 0)) }
{
    let heights = capped_heights(alloc, nodes, rows, order)?;
    let height = heights[0];
    if height > HIGHEST {
        return Err(TreeFault::TooHigh(height));
    }
    Ok(())
}
