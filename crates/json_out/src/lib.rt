//! JSON files of resolved tokens: what JSON is given for a token (RFC 8259, Format Module 2025.10), and how such a file is
//! read.
//!
//! A file is one object, with one member for each token: its name is the token's path, and its value is an object of the type,
//! the value with all its parts, and what else is said of the token. Values are spelled by one rule on commas, colons and
//! blanks; the extensions of a token stand as their source has them.
#![tactic(auto)]

mod extras;
mod laws;
mod spelling;
mod texts;
mod values;
mod writing;

pub use extras::Extras;
pub use laws::{fragment_laws, reading_laws, sheet_laws};
pub use writing::{FRAME, fragment, frame};
