//! References between tokens: what a value means without them, the first rule that a walk of them breaks, and the kinds
//! and links of tokens (Format Module 2025.10, aliases and references).
#![tactic(auto)]

mod aliases;
mod chain;
mod content;
mod copying;
mod evaluator;
mod fault;
mod index;
mod laws;
mod literal;
mod memory;
mod passing;
mod recalling;
mod refs;
mod remembering;
mod resolved;
mod sharing;
mod span;
mod spot;
mod trace;
mod walking;

pub use evaluator::Evaluator;
pub use fault::{RefFault, RefRule};
pub use laws::{
    breaks_are_real, differ_decides, links_are_real, meanings_fit, one_answer, one_meaning,
    parts_mean, references_named, refs_are_written, refs_in_order, remembered_walks,
    source_decides, spans_stand, unbroken_tokens, unchanged_is_alike, visits_are_visited,
    visits_in_turn,
};
pub use refs::refs_of;
pub use resolved::{Resolved, evaluate, evaluate_entry};
pub use span::span_of;
