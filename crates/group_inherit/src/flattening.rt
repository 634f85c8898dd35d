//! The flat tree of a tree whose groups extend others.

ghost use Rattle.std.specs.Prelude.{◌≡◌, ◌+◌, OnOk, IfOk, IfErr};
ghost use Rattle.token_tree.specs.View.{group_view};
ghost use Rattle.group_inherit.specs.Answer.{IsSound, IsFlat, IsTreeBreak};

use crate::bare::{bare_size, check_size};
use crate::checked::checked;
use crate::expanding::expansions;
use crate::fault::TreeFault;
use crate::flat_tree::Flat;
use crate::walking::flat_of;
use std::alloc::Global;
use std::sync::ledger::Ledger;
use tk_io::Steps;
use token_tree::Group;

/// The tokens of a tree by their paths, after each group that extends another is expanded (Format Module 2025.10, groups
/// and `$extends`): each with its definition, and with the `$type` and the `$deprecated` of the nearest group upwards
/// that has one. One step of `merges`, whatever it answers.
///
/// # Errors
/// The first rule that the tree breaks, in this order: [`TreeFault::ExtendsTarget`] where a target is no group of the
/// tree, [`TreeFault::ExtendsCycle`] where groups need each other in a cycle, [`TreeFault::TooManyTokens`] where there are
/// more than 16,384 members with those that are inherited, [`TreeFault::TooHigh`] where there are more than 64 levels.
/// [`TreeFault::NoMemory`].
pub fn flatten<'s, M: Ledger>(
    alloc: Global,
    tree: &Group<'s>,
    merges: &mut Steps<M>,
) -> Result<Flat<'s>, TreeFault<'s>>
    ensures step { merges.new ≡ merges.old + 1 }
    ensures sound { OnOk result (IsSound (group_view tree.now)) }
    ensures ok { IfOk result (λ f. IsFlat (group_view tree.now) f) }
    ensures broken { IfErr result (λ e. IsTreeBreak (group_view tree.now) e) }
{
    merges.tick();
    let Some(size) = bare_size(tree) else {
        return flatten_extending(alloc, tree);
    };
    check_size(tree, size)?;
    Ok(flat_of(alloc, tree, size.members as usize)?)
}

// The same where groups extend others.
fn flatten_extending<'s>(alloc: Global, tree: &Group<'s>) -> Result<Flat<'s>, TreeFault<'s>>
    ensures sound { OnOk result (IsSound (group_view tree.now)) }
    ensures ok { IfOk result (λ f. IsFlat (group_view tree.now) f) }
    ensures broken { IfErr result (λ e. IsTreeBreak (group_view tree.now) e) }
{
    let ready = checked(alloc, tree)?;
    let table = expansions(
        alloc,
        ready.nodes.as_slice(),
        ready.rows.as_slice(),
        ready.order.as_slice(),
    )?;
    Ok(flat_of(alloc, &table[0], table.len())?)
}
