//! The script that is generated from a seed and a number of tokens: a design system of four permutations, and twenty edits
//! of one literal each.
#![tactic(auto)]

mod core_file;
mod events;
mod laws;
mod script;

pub use laws::generated_events;
pub use script::{MOST_TOKENS, gen_script};
