//! Rings in a graph of needs, and totals over it.
//!
//! The nodes of a graph are numbered from 0. Its i-th row lists what node i needs, in order. Where a route from a root
//! comes back to one of its own nodes, the first such route has a ring. Where none does, all nodes that are reached can
//! be put into a topological order, in which each comes after what it needs, and totals are taken along it.
//!
//! Nothing here recurses, and each call takes time linear in the nodes and their needs.
#![tactic(auto)]

mod laws;
mod search;
mod totals;

pub use laws::{
    each_graph_answers, grounded_values, list_words, one_ring, one_total, one_value,
    reached_within, renamed_graph, renamed_values,
};
pub use search::{Found, is_graph, ring_or_order};
pub use totals::capped_totals;
