//! The arguments of the command line: which command they are, read by clap, or that they are none.
#![tactic(auto)]

mod command;
mod finding;
mod grammar;
mod laws;
mod number;
mod positional;
mod reading;

pub use command::{Command, GREATEST_SEED, MOST_TOKENS, WordStop};
pub use laws::words_of_commands;
pub use reading::read_words;
