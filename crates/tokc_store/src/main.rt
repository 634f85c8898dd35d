//! The program: `tokc_store ROOT` reads a script on standard input and brings the folder to its outputs.
#![tactic(auto)]

use std::process::ExitCode;
use store_cli::program;

fn main(rt: HostRuntime) -> ExitCode {
    program(&rt)
}
