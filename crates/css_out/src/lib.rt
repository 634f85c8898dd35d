//! Style sheets: what CSS is given for a token's value (CSS Custom Properties, CSS Values 4, CSS Color 4), with `var()` where
//! a link stands, and how such a sheet is read.
//!
//! A value is spelled piece by piece by one rule on blanks, and what is spelled is read back as these pieces. A name of a
//! sheet stands for its own pieces, in which each `var()` was replaced by what its name stands for.
#![tactic(auto)]

mod laws;
mod line;
mod links;
mod spellable;
mod spelling;
mod token;
mod typography;
mod writing;

pub use laws::{fragment_laws, reading_laws, sheet_laws};
pub use writing::{FRAME, fragment, frame};
