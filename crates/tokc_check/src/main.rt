//! The program: `tokc_check` reads a script on standard input and writes all breaks of its files.
#![tactic(auto)]

use check_cli::program;
use std::process::ExitCode;

fn main(rt: HostRuntime) -> ExitCode {
    program(&rt)
}
