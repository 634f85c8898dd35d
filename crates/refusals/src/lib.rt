//! The rules that files can break, and what is printed of a break: the rule, where it is broken, and what else is said of it.
#![tactic(auto)]

mod planning;
mod refusal;
mod rule;

pub use planning::plan_text;
pub use refusal::{
    append_count, append_key, append_lost_group, append_other, append_place, append_platform,
    append_ring_groups, append_ring_places, append_ring_sets, append_token, file_text, refuse,
    refuse_span,
};
pub use rule::{CellRule, Rule};
