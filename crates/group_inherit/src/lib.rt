//! What groups inherit: one tree over another, the groups that groups extend, and the flat tree of all tokens (Format
//! Module 2025.10, sections on groups and on `$extends`).
#![tactic(auto)]

mod bare;
mod checked;
mod copying;
mod entry;
mod expanding;
mod fault;
mod flat_tree;
mod flattening;
mod laws;
mod merging;
mod numbered;
mod rings;
mod sizes;
mod targets;
mod walking;

pub use entry::Entry;
pub use fault::{FileSpan, TreeFault};
pub use flat_tree::Flat;
pub use flattening::flatten;
pub use laws::{
    each_tree_answers, expanded_by_name, flat_by_path, lost_in_order, merged_in_order, one_answer,
    ordered_trees, over_by_name,
};
pub use merging::over;
