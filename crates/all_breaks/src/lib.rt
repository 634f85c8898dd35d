//! All breaks of files: of each permutation every rule that it breaks, each told once with the names of all permutations that
//! break it.
#![tactic(auto)]

mod all;
mod firsts;
mod laws;
mod perm;
mod told;
mod writing;

pub use all::all_breaks;
pub use laws::{first_is_refused, one_listing, told_are_had};
pub use told::{Names, Told};
pub use writing::listing;
