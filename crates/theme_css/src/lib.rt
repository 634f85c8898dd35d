//! One style sheet for all permutations of files: a block for each, which holds on pages of its attributes.
#![tactic(auto)]

mod blocks;
mod building;
mod choice;
mod choices;
mod laws;
mod names;
mod offers;
mod order;
mod own;
mod pages;
mod refusal;
mod sheet;
mod stop;
mod table;
mod writing;

pub use laws::{cascade_laws, one_sheet};
pub use sheet::themes;
pub use stop::ThemeStop;
