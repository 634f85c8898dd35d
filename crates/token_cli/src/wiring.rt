//! The program: the arguments of its command line, its streams, and the number that it ends with.

ghost use Rattle.std.specs.Prelude.{◌≡◌};
ghost use Rattle.std.specs.Process.{exit_status};
ghost use Rattle.token_cli.specs.Report.{status_number};
ghost use Rattle.token_cli.specs.declared.status.Status.{Status as StatusData};

use crate::gathered::run_gathered;
use crate::reporting::report;
use crate::status::status_of;
use crate::stop::Stop;
use std::env;
use std::io::ErrorKind;
use std::process::ExitCode;
use tk_io::{NoMemory, Sink, StdSink, StdSource};

/// The arguments behind the program's name; none where one of them is no text, which is no list of arguments that a
/// program knows.
///
/// # Errors
/// `NoMemory`.
pub fn program_words(rt: &HostRuntime) -> Result<Option<Vec<String>>, NoMemory> {
    let mut words = Vec::new(rt.alloc());
    match env::args(rt) {
        Ok(args) => {
            for word in args.skip(1) {
                words.push(word)?;
            }
            Ok(Some(words))
        }
        Err(error) if error.kind() == ErrorKind::OutOfMemory => Err(NoMemory),
        Err(_) => Ok(None),
    }
}

// Says why the program stops, and answers the number of that.
fn stopped<E: Sink>(err: &mut E, stop: Stop) -> u8
    ensures { (status : StatusData) × (result ≡ status_number status) }
{
    let ended = Err(stop);
    report(err, ended);
    status_of(ended).number()
}

// Runs the arguments over the standard streams, of which what is written to standard output is gathered, and answers the
// number of the status.
fn run_over(rt: &HostRuntime, words: &[String]) -> u8
    ensures { (status : StatusData) × (result ≡ status_number status) }
{
    let mut src = StdSource::new(rt.stdin());
    let out = StdSink::new(rt.stdout());
    let mut err = StdSink::new(rt.stderr());
    let (status, _) = run_gathered(rt.alloc(), words, &mut src, out, &mut err);
    status.number()
}

// Runs the arguments. Where they found no memory, or one is no text, that is said, and nothing is read.
fn run_words(rt: &HostRuntime) -> u8
    ensures { (status : StatusData) × (result ≡ status_number status) }
{
    let mut err = StdSink::new(rt.stderr());
    match program_words(rt) {
        Ok(Some(words)) => run_over(rt, words.as_slice()),
        Ok(None) => stopped(&mut err, Stop::Usage),
        Err(_) => stopped(&mut err, Stop::NoMemory),
    }
}

/// Does what the arguments say: reads the script from standard input, writes the stream to standard
/// output and a line about a failure to standard error, and ends with the number of the status.
pub fn program(rt: &HostRuntime) -> ExitCode
    ensures { (status : StatusData) × (exit_status result ≡ status_number status) }
{
    ExitCode::from(run_words(rt))
}
