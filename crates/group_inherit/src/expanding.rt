//! The expansion of groups, each after all that it needs.

ghost use Rattle.std.specs.Prelude.{◌≡◌, ◌<◌, [], length, All, IfOk, IfSome};
ghost use Rattle.ring.specs.Order.{Follows};
ghost use Rattle.group_inherit.specs.inner.Outcomes.{AreExpansions, AreExpandedMembers, HaveNumbers};
ghost use Rattle.group_inherit.specs.inner.Outcomes.{IsExpansion};
ghost use Rattle.group_inherit.specs.inner.Numbering.{AreRows, IsNumbering, needs_by};
ghost use Rattle.group_inherit.specs.inner.View.{nodes_view};

use crate::copying::copy_mark;
use crate::merging::{over, put_copy, put_group};
use crate::numbered::Node;
use crate::targets::Row;
use std::alloc::Global;
use tk_io::NoMemory;
use token_tree::{Child, Group, Members};

/// The expansion of each group of the order, in the place of its number; an empty group elsewhere.
pub(crate) fn expansions<'t, 's>(
    alloc: Global,
    nodes: &[Node<'t, 's>],
    rows: &[Row],
    order: &[usize],
) -> Result<Vec<Group<'s>>, NoMemory>
    requires numbering { IsNumbering (nodes_view nodes.now) }
    requires rows { AreRows (nodes_view nodes.now) rows.now }
    requires long { length rows.now ≡ length nodes.now }
    requires within { All (λ v. v < length nodes.now) order.now }
    requires order { Follows (needs_by rows.now) [] order.now }
    ensures long { IfOk result (λ table. length table.items ≡ length nodes.now) }
    ensures known { IfOk result (λ table. AreExpansions nodes.now order.now table.items) }
{
    let mut table = blank(alloc, nodes.len())?;
    for v in order {
        let group = expansion(alloc, nodes[*v].group, table.as_slice(), &rows[*v])?;
        table[*v] = group;
    }
    Ok(table)
}

fn empty_group<'s>(alloc: Global) -> Group<'s> {
    Group {
        kind: None,
        deprecated: None,
        extends: None,
        members: Members::new(alloc),
    }
}

// A table of empty groups.
fn blank<'s>(alloc: Global, len: usize) -> Result<Vec<Group<'s>>, NoMemory>
    ensures { IfOk result (λ table. length table.items ≡ len) }
{
    let mut table = Vec::new(alloc);
    for _i in 0..len {
        table.push(empty_group(alloc))?;
    }
    Ok(table)
}

// The expansion of a group from those of what it needs.
fn expansion<'s>(
    alloc: Global,
    group: &Group<'s>,
    table: &[Group<'s>],
    row: &Row,
) -> Result<Group<'s>, NoMemory>
    requires within { All (λ w. w < length table.now) row.now.children.items }
    requires target { IfSome row.now.target (λ w. w < length table.now) }
    requires many { HaveNumbers group.now.members row.now.children.items }
    ensures { IfOk result (IsExpansion group.now table.now row.now) }
{
    let members = expand_members(alloc, &group.members, table, row.children.as_slice())?;
    let deprecated = copy_mark(group.deprecated.as_ref())?;
    let local = Group {
        kind: group.kind,
        deprecated,
        extends: None,
        members,
    };
    match row.target {
        None => Ok(local),
        Some(target) => over(alloc, &local, &table[target]),
    }
}

// The members with the expansion of each child group in its place.
fn expand_members<'s>(
    alloc: Global,
    members: &Members<'s>,
    table: &[Group<'s>],
    children: &[usize],
) -> Result<Members<'s>, NoMemory>
    requires within { All (λ w. w < length table.now) children.now }
    requires many { HaveNumbers members.now children.now }
    ensures { IfOk result (AreExpandedMembers members.now table.now children.now) }
{
    // A group without child groups shares its members.
    if children.is_empty() {
        return members.copy();
    }
    let mut expanded = Members::new(alloc);
    let mut next = 0;
    for member in members.as_slice() {
        if let Child::Group(_) = &member.child {
            let group = table[children[next]].copy()?;
            put_group(alloc, &mut expanded, &member.name, group)?;
            next += 1;
            continue;
        }
        put_copy(&mut expanded, member)?;
    }
    Ok(expanded)
}
