//! Laws over the definitions alone.

ghost use Rattle.tree_changes.specs.Laws.{NoneReached, ReachedByOne};

use alias_ref::differ_decides;

/// A path is reached exactly where it is changed or refers to one that is reached. Between a tree and itself none is.
pub fn reached_laws()
    ensures one { ReachedByOne }
    ensures none { NoneReached }
{
    differ_decides();
}
