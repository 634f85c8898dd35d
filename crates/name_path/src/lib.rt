//! Names, paths of names, places in values, and the texts that refer to them.
//!
//! A group or token is named by its path; `{a.b}` and `#/a/b` are two spellings of one path. A place is a token with the
//! steps that lead into its value; `#/a/b/$value/0` is a spelling of one. The spellings are stated once as relations, the
//! readers are exact by them, and what is printed is read again as the same. Paths are ordered name by name, and each
//! name by its bytes.
#![tactic(auto)]

mod escapes;
mod kind;
mod laws;
mod link;
mod name;
mod path;
mod path_map;
mod pieces;
mod place;
mod printing;
mod reading;
mod trail;

pub use kind::Kind;
pub use laws::{one_group, one_path, one_place, place_reads_back};
pub use link::{Link, Links};
pub use name::is_name;
pub use path::{Path, Paths};
pub use path_map::PathMap;
pub use place::{Place, Ring};
pub use printing::{print_group, print_path, print_place};
pub use reading::{RefStop, read_curly, read_group, read_pointer};
pub use trail::Trail;
