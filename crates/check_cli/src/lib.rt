//! The command line of tokc_check: a script of whose files all breaks are written.
#![tactic(auto)]

mod building;
mod reporting;
mod running;
mod status;
mod wiring;

pub use running::run_check;
pub use status::CheckStatus;
pub use wiring::program;
