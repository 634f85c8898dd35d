//! The outputs of files, for all their permutations: built from nothing, or put together from parts that are kept.
#![tactic(auto)]

mod assembling;
mod building;
mod config;
mod keeping;
mod laws;
mod making;
mod one_tree;
mod outcome;
mod output;
mod parts;
mod permutation;
mod planning;
mod sources;

pub use assembling::assemble;
pub use building::{build, keep_tokens, put_outcome};
pub use config::{config_of, config_text, refused_config};
pub use keeping::parts_of;
pub use laws::{
    each_build, one_build, one_verdict, outputs_denote, permutation_names, printed_spans,
};
pub use making::{Made, make};
pub use one_tree::{FlatStop, flat_of};
pub use outcome::Outcome;
pub use parts::{CellMap, Parts};
pub use permutation::{put_sheets, source_text, tree_text};
pub use planning::refused_plan;
pub use sources::{first_file, home_of, resolver_is_utf8};
pub use token_cells::Earlier;
