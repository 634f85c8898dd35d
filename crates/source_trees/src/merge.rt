//! What merged trees come to.

ghost use Rattle.std.specs.Prelude.{◌≡◌, ◌+◌, IfOk};
ghost use Rattle.token_tree.specs.View.{group_view};
ghost use Rattle.source_trees.specs.Merges.{IsMergeOf};

use group_inherit::{Flat, TreeFault, flatten};
use std::alloc::Global;
use std::fmt;
use std::sync::ledger::Ledger;
use tk_io::{NoMemory, Steps, TextMap};
use token_tree::Group;

/// The flat tree of a merged tree, or the first rule of extension that the tree breaks.
#[derive(Drop)]
pub enum Merge<'s> {
    Flat(Flat<'s>),
    /// The fault is never [`TreeFault::NoMemory`].
    Broken(TreeFault<'s>),
}

impl<'s> fmt::Debug for Merge<'s> {
    fn fmt<W: fmt::Write>(&self, f: &mut fmt::Formatter<W>) -> fmt::Result {
        f.write_str("Merge")
    }
}

/// What permutations come to, by their names.
pub type Merges<'s> = TextMap<Merge<'s>>;

/// What a merged tree comes to. It is one step.
pub fn merge_of<'s, M: Ledger>(
    alloc: Global,
    tree: &Group<'s>,
    merges: &mut Steps<M>,
) -> Result<Merge<'s>, NoMemory>
    ensures step { merges.new ≡ merges.old + 1 }
    ensures ok { IfOk result (IsMergeOf (group_view tree.now)) }
{
    match flatten(alloc, tree, merges) {
        Ok(flat) => Ok(Merge::Flat(flat)),
        Err(TreeFault::ExtendsTarget(group, span)) => {
            Ok(Merge::Broken(TreeFault::ExtendsTarget(group, span)))
        }
        Err(TreeFault::ExtendsCycle(ring, span)) => {
            Ok(Merge::Broken(TreeFault::ExtendsCycle(ring, span)))
        }
        Err(TreeFault::TooManyTokens(count)) => Ok(Merge::Broken(TreeFault::TooManyTokens(count))),
        Err(TreeFault::TooHigh(height)) => Ok(Merge::Broken(TreeFault::TooHigh(height))),
        Err(TreeFault::NoMemory) => Err(NoMemory),
    }
}
