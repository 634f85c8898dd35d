//! Trees in which no group extends another: how large they are, and whether they are too large.

ghost use Rattle.std.specs.Prelude.{◌≡◌, ◌+◌, ◌≤◌, min, max, IfErr, OnOk, IfSome};
ghost use Rattle.token_tree.specs.View.{child_view, group_view};
ghost use Rattle.group_inherit.specs.Answer.{IsSound, IsTreeBreak, most_told};
ghost use Rattle.group_inherit.specs.inner.Bare.{IsBareSize, IsChildSize};

use crate::fault::TreeFault;
use crate::sizes::{HIGHEST, LIMIT, MOST_MEMBERS};
use token_tree::{Child, Group};

/// How large a group is, with all below it. A number is a million where it would be more.
#[derive(Clone, Copy)]
pub(crate) struct Size {
    /// How many members there are.
    pub members: u64,
    /// How many levels there are down to the tokens.
    pub levels: u64,
}

// The size with one more member, which is so large itself.
fn with_member(size: Size, member: Size) -> Size
    requires most { size.members ≤ most_told }
    requires few { member.members ≤ most_told }
    ensures members { result.members ≡ min (size.members + 1 + member.members) most_told }
    ensures levels { result.levels ≡ max size.levels member.levels }
{
    Size {
        members: (size.members + 1 + member.members).min(LIMIT),
        levels: size.levels.max(member.levels),
    }
}

/// The size of a group in which no group extends another; none where one does.
#[cycle(size)]
pub(crate) fn bare_size(group: &Group<'_>) -> Option<Size>
    ensures { IfSome result (λ s. IsBareSize (group_view group.now) s.members s.levels) }
{
    if group.extends.is_some() {
        return None;
    }
    let mut size = Size {
        members: 0,
        levels: 0,
    };
    for member in group.members.as_slice() {
        let Some(inner) = child_size(&member.child) else {
            return None;
        };
        size = with_member(size, inner);
    }
    Some(size)
}

// How many members and levels a child has, or none where a group in it extends another.
#[cycle(size)]
fn child_size(child: &Child<'_>) -> Option<Size>
    ensures { IfSome result (λ s. IsChildSize (child_view child.now) s.members s.levels) }
{
    let Child::Group(group) = child else {
        return Some(Size {
            members: 0,
            levels: 1,
        });
    };
    let Some(size) = bare_size(group) else {
        return None;
    };
    Some(Size {
        members: size.members,
        levels: (size.levels + 1).min(LIMIT),
    })
}

/// That a tree of this size is not too large.
pub(crate) fn check_size<'s>(tree: &Group<'s>, size: Size) -> Result<(), TreeFault<'s>>
    requires { IsBareSize (group_view tree.now) size.members size.levels }
    ensures sound { OnOk result (IsSound (group_view tree.now)) }
    ensures broken { IfErr result (IsTreeBreak (group_view tree.now)) }
{
    if size.members > MOST_MEMBERS {
        return Err(TreeFault::TooManyTokens(size.members));
    }
    if size.levels > HIGHEST {
        return Err(TreeFault::TooHigh(size.levels));
    }
    Ok(())
}
