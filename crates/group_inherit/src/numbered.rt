//! The groups of a tree in one list.

ghost use Rattle.std.specs.Prelude.{◌≡◌, ◌++◌, ◌∷◌, [], IfOk, OnOk};
ghost use Rattle.token_tree.specs.View.{group_view};
ghost use Rattle.group_inherit.specs.inner.Numbering.{AreNamed};
ghost use Rattle.group_inherit.specs.inner.Outcomes.{AreGroupsAdded, AreGroupsOf};

use name_path::Path;
use std::alloc::Global;
use tk_io::{NoMemory, Text};
use token_tree::{Child, Group};

/// A group of a tree, and its path.
#[derive(Drop)]
pub(crate) struct Node<'t, 's> {
    pub group: &'t Group<'s>,
    pub path: Path<'s>,
}

/// All groups of the tree in path order: the root first, and each group before those below it.
pub(crate) fn numbered_groups<'t, 's>(
    alloc: Global,
    tree: &'t Group<'s>,
) -> Result<Vec<Node<'t, 's>>, NoMemory>
    ensures all { IfOk result (λ nodes. AreGroupsOf tree.entry.now nodes.items) }
    ensures named { OnOk result (AreNamed (group_view tree.entry.now)) }
{
    let mut nodes = Vec::new(alloc);
    let root = Path::new(alloc);
    add_groups(&mut nodes, &root, tree)?;
    Ok(nodes)
}

/// The path of a member of the group at the path.
pub(crate) fn path_below<'s>(path: &Path<'s>, name: &Text<'s>) -> Result<Path<'s>, NoMemory>
    ensures { IfOk result (λ below. below ≡ path.now ++ name.now ∷ []) }
{
    let mut below = path.copy()?;
    below.push(name.copy()?)?;
    Ok(below)
}

// Adds a group and those below it.
fn add_groups<'t, 's>(
    nodes: &mut Vec<Node<'t, 's>>,
    path: &Path<'s>,
    group: &'t Group<'s>,
) -> Result<(), NoMemory>
    ensures all { OnOk result (AreGroupsAdded path.now group.entry.now nodes.old nodes.new) }
    ensures named { OnOk result (AreNamed (group_view group.entry.now)) }
{
    let own = path.copy()?;
    nodes.push(Node { group, path: own })?;
    for member in group.members.as_slice() {
        let Child::Group(inner) = &member.child else {
            continue;
        };
        let below = path_below(path, &member.name)?;
        add_groups(nodes, &below, inner)?;
    }
    Ok(())
}
