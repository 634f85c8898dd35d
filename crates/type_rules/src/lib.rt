//! The types of values (Design Tokens Format Module 2025.10, and its Color Module): what a value
//! without references is under a simple kind, or the first rule that it breaks and the steps to the
//! part that breaks it.
//!
//! The parts of values of other kinds are checked by the same calls: each checks one part, and
//! `under` and `at_item` tell its fault as seen from the value that holds the part.
#![tactic(auto)]

mod color;
mod components;
mod curve;
mod families;
mod fault;
mod forms;
mod laws;
mod legacy;
mod measure;
mod parts;
mod range;
mod simple;
mod size;
mod space;
mod time;
mod weight;
mod words;

pub use color::Color;
pub use curve::Curve;
pub use families::Families;
pub use fault::{ValueFault, ValueRule, at_item, broken, or_broken, under};
pub use forms::{
    check_number, item, items_of, items_of_length, members_of, named, required, some_items_of,
    text_of,
};
pub use laws::{legacy_laws, part_laws, step_laws, value_laws, word_laws};
pub use parts::{Part, each_part, list_of, one, part_at, part_under, some_of};
pub use range::{Range, ranged};
pub use simple::{Simple, check_simple};
pub use size::{Size, SizeUnit};
pub use space::Space;
pub use time::{Time, TimeUnit};
pub use weight::Weight;
pub use words::{meaning, word_of, word_under};
