//! The program: `tokc_themes` reads a script on standard input and writes one style sheet for all permutations of its files.
#![tactic(auto)]

use std::process::ExitCode;
use theme_cli::program;

fn main(rt: HostRuntime) -> ExitCode {
    program(&rt)
}
