//! The program: `tokc WORD..` reads a script on standard input and writes the stream of outputs to standard output.
#![tactic(auto)]

use std::process::ExitCode;
use token_cli::program;

fn main(rt: HostRuntime) -> ExitCode {
    program(&rt)
}
