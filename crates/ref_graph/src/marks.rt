//! Nodes that are marked once each, and those that wait for their turn.

ghost use Rattle.std.specs.Prelude.{◌≡◌, ℕ, ◌<◌, [], ◌∷◌, length};
ghost use Rattle.std.specs.Prelude.{All, IfOk, OnOk, true};
ghost use Rattle.std.specs.List.Sorted.{IsStrictlyIncreasing};
ghost use Rattle.ref_graph.specs.Edges.{is_in};
ghost use Rattle.ref_graph.specs.inner.Marking.{is_marked, Marking};

use crate::Marks;
use std::alloc::Global;
use std::collections::BTreeSet;
use tk_io::NoMemory;

/// Marks the node, and has it wait where it was not marked before.
fn mark(node: usize, marks: &mut Vec<bool>, waiting: &mut Vec<usize>) -> Result<(), NoMemory>
    requires { node < length marks.old.items }
    ensures { OnOk result (Marking (node ∷ [])
        marks.old.items waiting.old.items marks.new.items waiting.new.items) }
{
    if !marks[node] {
        marks[node] = true;
        waiting.push(node)?;
    }
    Ok(())
}

/// Marks the nodes.
pub fn mark_all(
    nodes: &[usize],
    marks: &mut Vec<bool>,
    waiting: &mut Vec<usize>,
) -> Result<(), NoMemory>
    requires { All (λ v. v < length marks.old.items) nodes.now }
    ensures { OnOk result (Marking nodes.now
        marks.old.items waiting.old.items marks.new.items waiting.new.items) }
{
    for node in nodes {
        mark(*node, marks, waiting)?;
    }
    Ok(())
}

/// Marks the nodes of the set.
pub fn mark_sources(
    nodes: &BTreeSet<usize>,
    marks: &mut Vec<bool>,
    waiting: &mut Vec<usize>,
) -> Result<(), NoMemory>
    requires { All (λ v. v < length marks.old.items) nodes.now.keys }
    ensures { OnOk result (Marking nodes.now.keys
        marks.old.items waiting.old.items marks.new.items waiting.new.items) }
{
    for node in nodes {
        mark(*node, marks, waiting)?;
    }
    Ok(())
}

/// The marked nodes, ascending.
pub fn listed(alloc: Global, marks: &[bool]) -> Result<Marks, NoMemory>
    ensures marked { IfOk result (λ nodes. (v : ℕ) → is_in nodes v ≡ is_marked marks.now v) }
    ensures ascending { IfOk result (λ nodes. IsStrictlyIncreasing nodes) }
{
    let mut nodes = Marks::new(alloc);
    for (node, mark) in marks.iter().enumerate() {
        if *mark {
            nodes.push(node)?;
        }
    }
    Ok(nodes)
}
