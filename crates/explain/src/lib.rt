//! Which places of a flat tree are written, and what a certificate shows that holds of the tree.
//!
//! A certificate lists the references on the way from a place to its value, each behind those that it rests on. Whether it
//! holds of a tree is said without a word of how it was found.
#![tactic(auto)]

mod checking;
mod laws;
mod places;
mod saying;
mod showing;
mod ways;

pub use checking::verify;
pub use laws::{explained_value, valid_explains, valid_is_spelled};
pub use places::written;
pub use showing::show;
