//! The permutations of a resolver document (Design Tokens Resolver Module 2025.10, in this project's profile): their names,
//! and the sources of each in order.
#![tactic(auto)]

mod counting;
mod draft;
mod expanding;
mod fault;
mod laws;
mod listing;
mod name;
mod options;
mod part;
mod perm;
mod table;

pub use fault::{LAST_NUMBER, ListFault, MOST_PERMUTATIONS, MOST_SOURCES};
pub use laws::{choice_laws, each_list_answers, name_laws, source_laws};
pub use listing::list;
pub use perm::{Perm, Perms, Source, Sources};
