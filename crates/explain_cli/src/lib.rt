//! The command line of tokc_explain: how a place of a script's files gets its value, as a certificate, and whether a
//! certificate holds of them.
#![tactic(auto)]

mod answer;
mod answering;
mod asking;
mod judging;
mod laws;
mod reporting;
mod running;
mod status;
mod wiring;

pub use answer::Refusal;
pub use asking::{Question, read_question};
pub use laws::{one_answer, one_question};
pub use running::run_explain;
pub use status::ExplainStatus;
pub use wiring::program;
