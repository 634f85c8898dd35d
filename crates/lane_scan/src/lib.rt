//! Four scans over the bytes of a text, and a comparison of two runs of bytes, 32 bytes at a time.
//!
//! Each gives what a loop over single bytes gives, at every length and from every start. An index is a byte offset
//! from the beginning of the slice. The crate allocates nothing and knows nothing of JSON but two sets of bytes: those
//! that end the plain part of a string, and the blanks.
#![tactic(auto)]

mod blocks;
mod newlines;
mod runs;
mod same;

pub use newlines::{count_newlines, last_newline};
pub use runs::{first_special, skip_blank};
pub use same::are_same;
