//! A sink that gathers what it is given.
#![tactic(auto)]

mod gathering;

pub use gathering::{GatheringSink, Start};
