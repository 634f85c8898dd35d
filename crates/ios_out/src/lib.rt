//! Swift constants: what Swift is given for a token's value (static constants of one enum, with types of UIKit), and how such a file
//! is read.
#![tactic(auto)]

mod color;
mod content;
mod family;
mod laws;
mod line;
mod typography;
mod writing;

pub use laws::{fragment_laws, reading_laws, sheet_laws};
pub use writing::{FRAME, fragment, frame};
