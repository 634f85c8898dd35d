//! The program: its streams, and the number that it ends with.

ghost use Rattle.std.specs.Prelude.{◌≡◌};
ghost use Rattle.std.specs.Process.{exit_status};
ghost use Rattle.explain_cli.specs.Report.{status_number};
ghost use Rattle.explain_cli.specs.declared.status.ExplainStatus.{ExplainStatus as StatusData};

use crate::reporting::report;
use crate::running::run_explain;
use crate::status::{ExplainStatus, status_of};
use std::process::ExitCode;
use tk_io::{StdSink, StdSource};
use token_cli::{Stop, program_words};

// Says why the program stops before a run.
fn stopped(rt: &HostRuntime, stop: Stop) -> ExplainStatus {
    let mut err = StdSink::new(rt.stderr());
    let ended = Err(stop);
    report(&mut err, ended);
    status_of(ended)
}

// Runs the arguments over the standard streams.
fn run_over(rt: &HostRuntime, words: &[String]) -> ExplainStatus {
    let mut src = StdSource::new(rt.stdin());
    let mut out = StdSink::new(rt.stdout());
    let mut err = StdSink::new(rt.stderr());
    run_explain(rt.alloc(), words, &mut src, &mut out, &mut err)
}

// Runs the arguments. Where they found no memory, or one is no text, that is said, and nothing is read.
fn run_words(rt: &HostRuntime) -> ExplainStatus {
    match program_words(rt) {
        Ok(Some(words)) => run_over(rt, words.as_slice()),
        Ok(None) => stopped(rt, Stop::Usage),
        Err(_) => stopped(rt, Stop::NoMemory),
    }
}

/// Writes what the arguments ask of the files of the script on standard input to standard output, and a line about a failure to
/// standard error, and ends with the number of the status.
pub fn program(rt: &HostRuntime) -> ExitCode
    ensures { (status : StatusData) × (exit_status result ≡ status_number status) }
{
    let status = run_words(rt);
    ExitCode::from(status.number())
}
