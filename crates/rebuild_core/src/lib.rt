//! What an edit or a theme did not touch is kept: an engine holds files and the outputs of its last commit, and a commit
//! makes again what the files that changed bring along. How much that is is said by comparing two builds.
#![tactic(auto)]

mod below;
mod commit;
mod contents;
mod copying;
mod engine;
mod evaluating;
mod kept;
mod laws;
mod merging;
mod past;
mod plan_perms;
mod putting;
mod reading;
mod renewing;
mod twice;
mod used;

pub use commit::{Commit, Counts};
pub use engine::Engine;
pub use laws::work_laws;
pub use twice::{Twice, two_commits};
