//! The command line of tokc_store: a script whose files' outputs a folder is brought to.
#![tactic(auto)]

mod building;
mod laws;
mod reporting;
mod running;
mod status;
mod stop;
mod wiring;

pub use laws::outputs_fit;
pub use running::run_store;
pub use status::StoreStatus;
pub use wiring::program;
