//! The command line of tokc: its arguments, its script, its stream and statistics, and the call that does the whole job.
#![tactic(auto)]

mod clean;
mod committing;
mod editing;
mod gathered;
mod laws;
mod reading;
mod refusal;
mod replaying;
mod reporting;
mod running;
mod status;
mod stop;
mod telling;
mod wiring;
mod workspace;

pub use clean::run_clean;
pub use command_words::{Command, WordStop, read_words};
pub use gathered::run_gathered;
pub use generated_script::gen_script;
pub use laws::{one_status, one_stream};
pub use reading::read_events;
pub use refusal::is_refused;
pub use reporting::{report_event, report_script, report_stop};
pub use running::run;
pub use status::Status;
pub use stop::Stop;
pub use wiring::{program, program_words};
