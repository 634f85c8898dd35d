//! What groups need of one another, by numbers.

ghost use Rattle.std.specs.Prelude.{◌≡◌, [], ◌∷◌, ◌++◌, ℕ, Some, IfOk, OnOk, IfErr, length};
ghost use Rattle.std.specs.FinMap as map_of;
ghost use Rattle.token_tree.specs.View.{group_view};
ghost use Rattle.group_inherit.specs.inner.Faults.{IsLostTarget};
ghost use Rattle.group_inherit.specs.Extension.{children_in};
ghost use Rattle.group_inherit.specs.inner.Outcomes.{AreChildNumbers};
ghost use Rattle.group_inherit.specs.inner.View.{group_node_view, nodes_view};
ghost use Rattle.group_inherit.specs.inner.Numbering.{ArePlaces, AreNumbered, EachNumbered};
ghost use Rattle.group_inherit.specs.inner.Numbering.{IsRow, EachRow, AreListed, numbers_of};
ghost use Rattle.group_inherit.specs.inner.Numbering.{lost_of, lost_nodes};

use crate::fault::{TreeFault, span_of};
use crate::numbered::{Node, path_below};
use name_path::{Path, PathMap};
use std::alloc::Global;
use tk_io::{NoMemory, Text};
use token_tree::Child;

/// What a group needs, by numbers.
#[derive(Drop)]
pub(crate) struct Row {
    /// The child groups, in byte order of names.
    pub children: Vec<usize>,
    /// The group that it extends, where it extends one.
    pub target: Option<usize>,
}

/// The number of each group by its path.
pub(crate) fn places<'s>(
    alloc: Global,
    nodes: &[Node<'_, 's>],
) -> Result<PathMap<'s, usize>, NoMemory>
    ensures { IfOk result (λ places. ArePlaces (nodes_view nodes.now) (length nodes.now) places) }
{
    let mut places = PathMap::new(alloc);
    for (i, node) in nodes.iter().enumerate() {
        places.put(&node.path, i)?;
    }
    Ok(places)
}

// The number of a child group.
fn child_number<'s>(
    path: &Path<'s>,
    name: &Text<'s>,
    places: &PathMap<'s, usize>,
) -> Result<usize, NoMemory>
    requires { (v : ℕ) × (map_of.get places.now (path.now ++ name.now ∷ []) ≡ Some v) }
    ensures { IfOk result (λ v. Some v ≡ map_of.get places.now (path.now ++ name.now ∷ [])) }
{
    let below = path_below(path, name)?;
    match places.get(&below) {
        Some(number) => Ok(*number),
        None => unreachable!(),
    }
}

// The numbers of the child groups, in byte order of names.
fn child_numbers<'s>(
    alloc: Global,
    node: &Node<'_, 's>,
    places: &PathMap<'s, usize>,
) -> Result<Vec<usize>, NoMemory>
    requires { AreNumbered places.now node.now.path (children_in (group_view node.now.group.now)) }
    ensures { IfOk result (λ row. AreChildNumbers places.now (group_node_view node.now) row.items) }
{
    let mut row = Vec::new(alloc);
    for member in node.group.members.as_slice() {
        let Child::Group(_) = &member.child else {
            continue;
        };
        row.push(child_number(&node.path, &member.name, places)?)?;
    }
    Ok(row)
}

// The numbers of the child groups and of the target.
fn row_of<'s>(
    alloc: Global,
    node: &Node<'_, 's>,
    places: &PathMap<'s, usize>,
) -> Result<Row, TreeFault<'s>>
    requires { AreNumbered places.now node.now.path (children_in (group_view node.now.group.now)) }
    ensures ok { IfOk result (IsRow places.now (group_node_view node.now)) }
    ensures sound { OnOk result (lost_of places.now (group_node_view node.now) ≡ []) }
    ensures lost { IfErr result (IsLostTarget (lost_of places.now (group_node_view node.now))) }
{
    let children = child_numbers(alloc, node, places)?;
    let Some(extends) = &node.group.extends else {
        return Ok(Row {
            children,
            target: None,
        });
    };
    let Some(target) = places.get(&extends.target) else {
        return Err(TreeFault::ExtendsTarget(node.path.copy()?, span_of(extends)));
    };
    Ok(Row {
        children,
        target: Some(*target),
    })
}

/// What each group needs, by numbers. A target that is no group is a fault, and the first one in path order is answered.
pub(crate) fn rows<'s>(
    alloc: Global,
    nodes: &[Node<'_, 's>],
    places: &PathMap<'s, usize>,
) -> Result<Vec<Row>, TreeFault<'s>>
    requires { EachNumbered places.now (nodes_view nodes.now) }
    ensures ok { IfOk result (λ rows. EachRow places.now (nodes_view nodes.now) rows.items) }
    ensures sound { OnOk result (lost_nodes places.now (nodes_view nodes.now) ≡ []) }
    ensures lost { IfErr result (IsLostTarget (lost_nodes places.now (nodes_view nodes.now))) }
{
    let mut rows = Vec::new(alloc);
    for node in nodes {
        rows.push(row_of(alloc, node, places)?)?;
    }
    Ok(rows)
}

// All numbers of a row: those of the child groups, and then the target's.
fn numbers(alloc: Global, row: &Row) -> Result<Vec<usize>, NoMemory>
    ensures { IfOk result (λ list. list.items ≡ numbers_of row.now) }
{
    let mut list = row.children.as_slice().to_vec(alloc)?;
    if let Some(target) = row.target {
        list.push(target)?;
    }
    Ok(list)
}

/// The numbers of each row in one list.
pub(crate) fn listed(alloc: Global, rows: &[Row]) -> Result<Vec<Vec<usize>>, NoMemory>
    ensures { IfOk result (λ lists. AreListed rows.now lists.items) }
{
    let mut lists = Vec::new(alloc);
    for row in rows {
        lists.push(numbers(alloc, row)?)?;
    }
    Ok(lists)
}
