//! One group over another.

ghost use Rattle.std.specs.Prelude.{IfOk, OnOk};
ghost use Rattle.group_inherit.specs.View.{IsOver};
ghost use Rattle.group_inherit.specs.inner.Outcomes.{AreMembersAdded, AreOver, IsMemberAdded};
ghost use Rattle.group_inherit.specs.inner.Outcomes.{IsGroupAdded, IsOverAdded};

use crate::copying::{copy_mark, copy_target};
use std::alloc::Global;
use std::cmp::Ordering;
use std::rc::Rc;
use tk_io::{NoMemory, Text};
use token_tree::{Child, Group, Member, Members};

/// The later group over the earlier one: each property of the later one that is given, else that of the earlier one, and
/// the members of both. Two groups of one name are merged in the same way; in every other meeting the later member
/// replaces the earlier one whole. What does not meet is shared.
#[cycle(over)]
pub fn over<'s>(
    alloc: Global,
    later: &Group<'s>,
    earlier: &Group<'s>,
) -> Result<Group<'s>, NoMemory>
    ensures { IfOk result (IsOver later.now earlier.now) }
{
    let members = over_members(alloc, &later.members, &earlier.members)?;
    let deprecated = copy_mark(later.deprecated.as_ref().or(earlier.deprecated.as_ref()))?;
    let extends = copy_target(later.extends.as_ref().or(earlier.extends.as_ref()))?;
    Ok(Group {
        kind: later.kind.or(earlier.kind),
        deprecated,
        extends,
        members,
    })
}

// The members of both.
#[cycle(over)]
fn over_members<'s>(
    alloc: Global,
    later: &Members<'s>,
    earlier: &Members<'s>,
) -> Result<Members<'s>, NoMemory>
    ensures { IfOk result (AreOver later.now earlier.now) }
{
    if later.is_empty() {
        return earlier.copy();
    }
    if earlier.is_empty() {
        return later.copy();
    }
    merged(alloc, later, earlier)
}

// The members of both, in one pass over the two lists.
#[cycle(over)]
fn merged<'s>(
    alloc: Global,
    later: &Members<'s>,
    earlier: &Members<'s>,
) -> Result<Members<'s>, NoMemory>
    ensures { IfOk result (AreOver later.now earlier.now) }
{
    let upper = later.as_slice();
    let lower = earlier.as_slice();
    let mut members = Members::new(alloc);
    let mut i = 0;
    let mut j = 0;
    while i < upper.len() && j < lower.len() {
        let above = &upper[i];
        let below = &lower[j];
        match above.name.cmp(&below.name) {
            Ordering::Less => {
                put_copy(&mut members, above)?;
                i += 1;
            }
            Ordering::Equal => {
                put_over(alloc, &mut members, above, below)?;
                i += 1;
                j += 1;
            }
            Ordering::Greater => {
                put_copy(&mut members, below)?;
                j += 1;
            }
        }
    }
    put_from(&mut members, upper, i)?;
    put_from(&mut members, lower, j)?;
    Ok(members)
}

// Adds the members of the list from the i-th on.
fn put_from<'s>(members: &mut Members<'s>, list: &[Member<'s>], i: usize) -> Result<(), NoMemory>
    ensures { OnOk result (AreMembersAdded list.now i members.old members.new) }
{
    for k in i..list.len() {
        put_copy(members, &list[k])?;
    }
    Ok(())
}

/// Adds the member, whose child is shared.
pub(crate) fn put_copy<'s>(members: &mut Members<'s>, member: &Member<'s>) -> Result<(), NoMemory>
    ensures { OnOk result (IsMemberAdded member.now members.old members.new) }
{
    let child = member.child.copy()?;
    members.put(&member.name, child)?;
    Ok(())
}

/// Adds the group under the name.
pub(crate) fn put_group<'s>(
    alloc: Global,
    members: &mut Members<'s>,
    name: &Text<'s>,
    group: Group<'s>,
) -> Result<(), NoMemory>
    ensures { OnOk result (IsGroupAdded name.now group.entry members.old members.new) }
{
    let shared = Rc::new(alloc, group)?;
    members.put(name, Child::Group(shared))?;
    Ok(())
}

// Adds the later member over the earlier one of its name.
#[cycle(over)]
fn put_over<'s>(
    alloc: Global,
    members: &mut Members<'s>,
    later: &Member<'s>,
    earlier: &Member<'s>,
) -> Result<(), NoMemory>
    ensures { OnOk result (IsOverAdded later.now earlier.now members.old members.new) }
{
    let Child::Group(upper) = &later.child else {
        put_copy(members, later)?;
        return Ok(());
    };
    let Child::Group(lower) = &earlier.child else {
        put_copy(members, later)?;
        return Ok(());
    };
    let group = over(alloc, upper, lower)?;
    put_group(alloc, members, &later.name, group)?;
    Ok(())
}
