//! The program: its one argument, its streams, and the number that it ends with.

ghost use Rattle.std.specs.Prelude.{◌≡◌};
ghost use Rattle.std.specs.Process.{exit_status};
ghost use Rattle.store_cli.specs.Report.{status_number};
ghost use Rattle.store_cli.specs.declared.status.StoreStatus.{StoreStatus as StatusData};

use crate::reporting::report;
use crate::running::run_store;
use crate::status::{StoreStatus, status_of};
use crate::stop::Stop;
use out_store::DirStore;
use std::process::ExitCode;
use tk_io::{StdSink, StdSource};
use token_cli::program_words;

// The first argument, or no text.
fn root(words: &[String]) -> &str {
    match words.first() {
        Some(word) => word.as_str(),
        None => "",
    }
}

// Says why the program stops before a run.
fn stopped(rt: &HostRuntime, stop: Stop) -> StoreStatus {
    let mut err = StdSink::new(rt.stderr());
    let ended = Err(stop);
    report(&mut err, ended);
    status_of(ended)
}

// Runs the arguments over standard input and the folder that the first names.
fn run_over(rt: &HostRuntime, words: &[String]) -> StoreStatus {
    let mut src = StdSource::new(rt.stdin());
    let mut err = StdSink::new(rt.stderr());
    let mut store = DirStore::new(rt, root(words));
    run_store(rt.alloc(), words, &mut src, &mut store, &mut err)
}

// Runs the arguments. Where they found no memory, or one is no text, that is said, and nothing is read or stored.
fn run_words(rt: &HostRuntime) -> StoreStatus {
    match program_words(rt) {
        Ok(Some(words)) => run_over(rt, words.as_slice()),
        Ok(None) => stopped(rt, Stop::Usage),
        Err(_) => stopped(rt, Stop::NoMemory),
    }
}

/// Brings the folder of the one argument to the outputs of the script on standard input, writes a line about a failure to
/// standard error, and ends with the number of the status.
pub fn program(rt: &HostRuntime) -> ExitCode
    ensures { (status : StatusData) × (exit_status result ≡ status_number status) }
{
    let status = run_words(rt);
    ExitCode::from(status.number())
}
