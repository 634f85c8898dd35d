//! A graph whose edges can be replaced, and what is reached in it against the edges.
//!
//! Nodes are numbered from 0. The graph keeps each node's edges and, for each node, the nodes with an edge to it, so
//! that replacing a node's edges costs the old and the new edges and not the graph. Nothing here recurses.
#![tactic(auto)]

mod graph;
mod marks;
mod sources;

pub use graph::{Graph, Marks};
