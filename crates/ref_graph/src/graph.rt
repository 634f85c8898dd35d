//! The graph and its calls.

ghost use Rattle.std.specs.Prelude.{◌≡◌, ℕ, ◌<◌, [], length, replicate, slice_set, All};
ghost use Rattle.std.specs.Prelude.{Contains, IfOk, OnOk, OnErr};
ghost use Rattle.std.specs.List.Sorted.{IsStrictlyIncreasing};
ghost use Rattle.ref_graph.specs.Edges.{rows_of, IsReversed};
ghost use Rattle.ref_graph.specs.Walk.{WalksTo};

use crate::marks::{listed, mark_all, mark_sources};
use crate::sources::{no_sources, no_targets, replace_source};
use std::alloc::Global;
use std::collections::BTreeSet;
use std::marker::Model;
use tk_io::{NoMemory, Sequence};

/// Some nodes of a graph, by their numbers.
pub type Marks = Sequence<usize>;

/// A graph of numbered nodes, seen as the list of each node's edges: the numbers of the nodes that it leads to, as they
/// were given.
#[derive(Debug, Drop)]
pub struct Graph {
    alloc: Global,
    targets: Vec<Vec<usize>>,
    sources: Vec<BTreeSet<usize>>,
}

impl Model for Graph {
    ghost use Rattle.std.specs.Prelude.{List, ℕ};
    ghost use Rattle.ref_graph.specs.Edges.{rows_of, IsReversed};

    ghost Value = { List (List ℕ) };

    ghost view = { λ g. rows_of g.targets.items };

    ghost invariant = { λ g. IsReversed (rows_of g.targets.items) g.sources.items };
}

impl Graph {
    /// So many nodes, without edges.
    pub fn new(alloc: Global, nodes: usize) -> Result<Graph, NoMemory>
        ensures { IfOk result (λ g. g ≡ replicate nodes []) }
    {
        let targets = no_targets(alloc, nodes)?;
        let sources = no_sources(alloc, nodes)?;
        Ok(Graph {
            alloc,
            targets,
            sources,
        })
    }

    /// How many nodes there are.
    pub fn len(&self) -> usize
        ensures { result ≡ length self.now }
    {
        self.targets.len()
    }

    /// Replaces all edges of the node. Where memory runs out the graph stays as it was.
    pub fn set_edges(&mut self, node: usize, to: &[usize]) -> Result<(), NoMemory>
        requires node { node < length self.old }
        requires within { All (λ w. w < length self.old) to.now }
        ensures ok { OnOk result (self.new ≡ slice_set self.old node to.now) }
        ensures err { OnErr result (self.new ≡ self.old) }
    {
        let row = Vec::from_slice(self.alloc, to)?;
        let old = self.targets[node].as_slice();
        replace_source(self.alloc, &mut self.sources, node, old, to)?;
        self.targets[node] = row;
        Ok(())
    }

    /// The nodes from which a walk of none or more edges leads to one of the changed ones, ascending.
    pub fn reach(&self, changed: &[usize]) -> Result<Marks, NoMemory>
        requires { All (λ c. c < length self.now) changed.now }
        ensures found { IfOk result
            (λ marks. (v : ℕ) → WalksTo self.now changed.now v → Contains marks v) }
        ensures only { IfOk result
            (λ marks. (v : ℕ) → Contains marks v → WalksTo self.now changed.now v) }
        ensures within { IfOk result (λ marks. All (λ v. v < length self.now) marks) }
        ensures ascending { IfOk result (λ marks. IsStrictlyIncreasing marks) }
    {
        let mut marks = vec![in self.alloc; false; self.targets.len()]?;
        let mut waiting = Vec::new(self.alloc);
        mark_all(changed, &mut marks, &mut waiting)?;
        while let Some(node) = waiting.pop() {
            mark_sources(&self.sources[node], &mut marks, &mut waiting)?;
        }
        listed(self.alloc, marks.as_slice())
    }
}
