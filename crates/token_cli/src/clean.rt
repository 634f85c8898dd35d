//! A run over a source and sinks that never fail.

ghost use Rattle.std.specs.Prelude.{◌≡◌, ◌≢◌, Some};
ghost use Rattle.token_cli.specs.Headline.{asked_by};
ghost use Rattle.token_cli.specs.Outcome.{IsStatusFor};

use crate::running::run;
use crate::status::Status;
use std::alloc::Global;
use tk_io::{CleanSource, NullSink};

/// Runs the arguments over a source and sinks that never fail, and writes to nothing. No fault is answered then, so the
/// arguments and the bytes that the source has left decide the status, out of memory aside: this follows from the
/// contract of `run` alone.
pub fn run_clean(alloc: Global, words: &[String], src: &mut CleanSource<'_>) -> Status
    ensures read { result ≢ Status.ReadFault }
    ensures write { result ≢ Status.WriteFault }
    ensures decided { result ≢ Status.NoMemory
        → IsStatusFor (asked_by words.now) (Some src.old) result }
{
    run(
        alloc,
        words,
        src,
        &mut NullSink::new(),
        &mut NullSink::new(),
    )
}
