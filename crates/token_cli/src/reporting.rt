//! What is said on the error sink.

ghost use Rattle.std.specs.Prelude.{◌++◌, OnOk, OnErr};
ghost use Rattle.std.specs.Fmt.{decimal};
ghost use Rattle.std.specs.Io.KnownBytes.{Appends};
ghost use Rattle.tk_io.specs.Causes.{HasCause};
ghost use Rattle.tk_io.specs.Writing.{AppendsPart};
ghost use Rattle.token_cli.specs.inner.Ending.{status_of, place_of, stop_text};
ghost use Rattle.token_cli.specs.Report.{Reports, bad_event_text, bad_script_text, error_text, said_of};

use crate::stop::Stop;
use itoa::Buffer;
use tk_io::{Failed, Sink, write_all};

// Writes a text.
fn write_text<E: Sink>(err: &mut E, text: &str) -> Result<(), Failed>
    ensures whole { OnOk result (Appends (E.written err.old) (E.written err.new) text.now) }
    ensures part { OnErr result (AppendsPart (E.written err.old) (E.written err.new) text.now) }
    ensures cause { HasCause (E.faults err.old) (E.faults err.new) result }
{
    write_all(err, text.as_bytes())
}

// Writes one line: the program's name, and what is said.
fn write_said<E: Sink>(err: &mut E, program: &str, said: &[u8]) -> Result<(), Failed>
    ensures whole { OnOk result (Appends (E.written err.old) (E.written err.new)
        (program.now ++ said.now)) }
    ensures part { OnErr result (AppendsPart (E.written err.old) (E.written err.new)
        (program.now ++ said.now)) }
    ensures cause { HasCause (E.faults err.old) (E.faults err.new) result }
{
    write_text(err, program)?;
    write_all(err, said)
}

// Writes one line: the program's name, what is said, a number in decimal digits, and the rest.
fn write_number<E: Sink>(
    err: &mut E,
    program: &str,
    said: &[u8],
    number: usize,
    rest: &[u8],
) -> Result<(), Failed>
    ensures whole { OnOk result (Appends (E.written err.old) (E.written err.new)
        (program.now ++ said.now ++ decimal number ++ rest.now)) }
    ensures part { OnErr result (AppendsPart (E.written err.old) (E.written err.new)
        (program.now ++ said.now ++ decimal number ++ rest.now)) }
    ensures cause { HasCause (E.faults err.old) (E.faults err.new) result }
{
    let mut buffer = Buffer::new();
    write_said(err, program, said)?;
    write_all(err, buffer.format(number).as_bytes())?;
    write_all(err, rest)
}

/// Says in the name of a program at which byte a script is refused.
///
/// # Errors
/// `Failed` exactly where a write fails. A part of the line is written then.
pub fn report_script<E: Sink>(err: &mut E, program: &str, at: usize) -> Result<(), Failed>
    ensures whole { OnOk result (Appends (E.written err.old) (E.written err.new)
        (bad_script_text program.now at)) }
    ensures part { OnErr result (AppendsPart (E.written err.old) (E.written err.new)
        (bad_script_text program.now at)) }
    ensures cause { HasCause (E.faults err.old) (E.faults err.new) result }
{
    write_number(err, program, b": bad script at byte ", at, b"\n")
}

/// Says in the name of a program which event of a script does not fit.
///
/// # Errors
/// `Failed` exactly where a write fails. A part of the line is written then.
pub fn report_event<E: Sink>(err: &mut E, program: &str, number: usize) -> Result<(), Failed>
    ensures whole { OnOk result (Appends (E.written err.old) (E.written err.new)
        (bad_event_text program.now number)) }
    ensures part { OnErr result (AppendsPart (E.written err.old) (E.written err.new)
        (bad_event_text program.now number)) }
    ensures cause { HasCause (E.faults err.old) (E.faults err.new) result }
{
    write_number(err, program, b": event ", number, b" does not fit\n")
}

/// Says in the name of a program, whose line of usage this is, why a run stopped.
///
/// # Errors
/// `Failed` exactly where a write fails. A part of the line is written then.
pub fn report_stop<E: Sink>(
    err: &mut E,
    program: &str,
    usage: &str,
    stop: Stop,
) -> Result<(), Failed>
    ensures whole { OnOk result (Appends (E.written err.old) (E.written err.new)
        (said_of program.now usage.now stop)) }
    ensures part { OnErr result (AppendsPart (E.written err.old) (E.written err.new)
        (said_of program.now usage.now stop)) }
    ensures cause { HasCause (E.faults err.old) (E.faults err.new) result }
{
    match stop {
        Stop::Usage => write_text(err, usage),
        Stop::BadScript(at) => report_script(err, program, at),
        Stop::ReadFault => write_said(err, program, b": read failed\n"),
        Stop::WriteFault => write_said(err, program, b": write failed\n"),
        Stop::NoMemory => write_said(err, program, b": out of memory\n"),
        Stop::TooLong => write_said(err, program, b": script too long\n"),
        Stop::BadEvent(number) => report_event(err, program, number),
    }
}

// Writes the text of a stop of tokc.
fn write_stop<E: Sink>(err: &mut E, stop: Stop) -> Result<(), Failed>
    ensures whole { OnOk result (Appends (E.written err.old) (E.written err.new) (stop_text stop)) }
    ensures part { OnErr result (AppendsPart (E.written err.old) (E.written err.new)
        (stop_text stop)) }
    ensures cause { HasCause (E.faults err.old) (E.faults err.new) result }
{
    report_stop(
        err,
        "tokc",
        "usage: tokc build | replay | stats | gen SEED SIZE\n",
        stop,
    )
}

/// Says on the error sink why a run stopped, if it did. Where a write fails, nothing else changes.
pub fn report<E: Sink>(err: &mut E, ended: Result<bool, Stop>)
    ensures { Reports (E.written err.old) (E.written err.new) (E.faults err.old) (E.faults err.new)
        (error_text (status_of ended) (place_of ended)) }
{
    if let Err(stop) = ended {
        let _ = write_stop(err, stop);
    }
}
