//! Resource files: what Android is given for a token's value (values resources: colors, dimensions, integers, items and
//! strings), and how such a file is read.
#![tactic(auto)]

mod content;
mod family;
mod laws;
mod line;
mod typography;
mod writing;

pub use laws::{fragment_laws, reading_laws, sheet_laws};
pub use writing::{FRAME, fragment, frame};
