//! Decimal numbers of fixed point, exact: what is read is the number that the text spells, what is written spells the
//! number, and products and quotients lose nothing.
//!
//! A number is `c / 10^s` with as few places `s` as it can have, so that equal numbers are equal values. A number that
//! is read has `|c| < 10^30` and `s <= 30`. No binary float is used anywhere.
#![tactic(auto)]

mod arithmetic;
mod bytes;
mod decimal;
mod front;
mod laws;
mod parts;
mod reading;
mod significand;
mod writing;

pub use decimal::{Dec, NotDec};
pub use laws::{bytes_are_parts, one_number, one_value, read_is_spelled, written_is_read};
pub use reading::is_number;
