//! The command line of tokc_themes: a script of whose files one style sheet for all permutations is written.
#![tactic(auto)]

mod answer;
mod building;
mod laws;
mod reporting;
mod running;
mod status;
mod wiring;

pub use laws::one_theme_status;
pub use running::run_themes;
pub use status::ThemeStatus;
pub use wiring::program;
