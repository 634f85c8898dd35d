//! The program: `tokc_explain` reads a script on standard input and writes how a place of its files gets its value, or
//! whether a certificate of that holds.
#![tactic(auto)]

use explain_cli::program;
use std::process::ExitCode;

fn main(rt: HostRuntime) -> ExitCode {
    program(&rt)
}
