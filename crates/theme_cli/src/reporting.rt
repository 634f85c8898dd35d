//! What is said on the error sink.

ghost use Rattle.std.specs.Prelude.{◌++◌, OnOk, OnErr, codes};
ghost use Rattle.std.specs.Io.KnownBytes.{Appends};
ghost use Rattle.tk_io.specs.Causes.{HasCause};
ghost use Rattle.tk_io.specs.Writing.{AppendsPart};
ghost use Rattle.token_cli.specs.Report.{Reports};
ghost use Rattle.theme_cli.specs.inner.Ending.{answer_text, ended_text, stop_text};

use crate::answer::ThemeAnswer;
use tk_io::{Failed, Sink, write_all};
use token_cli::{Stop, report_stop};

// Writes one line: what is said, and what it is said of.
fn write_line<E: Sink>(err: &mut E, said: &[u8], matter: &[u8]) -> Result<(), Failed>
    ensures whole { OnOk result (Appends (E.written err.old) (E.written err.new)
        (said.now ++ matter.now ++ codes "\n")) }
    ensures part { OnErr result (AppendsPart (E.written err.old) (E.written err.new)
        (said.now ++ matter.now ++ codes "\n")) }
    ensures cause { HasCause (E.faults err.old) (E.faults err.new) result }
{
    write_all(err, said)?;
    write_all(err, matter)?;
    write_all(err, b"\n")
}

// Writes why there is no sheet, where there is none.
fn write_reason<E: Sink>(err: &mut E, answer: &ThemeAnswer) -> Result<(), Failed>
    ensures whole { OnOk result (Appends (E.written err.old) (E.written err.new)
        (answer_text answer.now)) }
    ensures part { OnErr result (AppendsPart (E.written err.old) (E.written err.new)
        (answer_text answer.now)) }
    ensures cause { HasCause (E.faults err.old) (E.faults err.new) result }
{
    match answer {
        ThemeAnswer::Sheet(_) => Ok(()),
        ThemeAnswer::Refused(path) => write_line(err, b"tokc_themes: refused ", path.as_slice()),
        ThemeAnswer::Name(text) => write_line(err, b"tokc_themes: name ", text.as_slice()),
    }
}

// Writes the text of a stop.
fn write_stop<E: Sink>(err: &mut E, stop: Stop) -> Result<(), Failed>
    ensures whole { OnOk result (Appends (E.written err.old) (E.written err.new) (stop_text stop)) }
    ensures part { OnErr result (AppendsPart (E.written err.old) (E.written err.new)
        (stop_text stop)) }
    ensures cause { HasCause (E.faults err.old) (E.faults err.new) result }
{
    report_stop(err, "tokc_themes", "usage: tokc_themes\n", stop)
}

/// Says on the error sink why no sheet was written, if none was. Where a write fails, nothing else changes.
pub(crate) fn report<E: Sink>(err: &mut E, ended: &Result<ThemeAnswer, Stop>)
    ensures { Reports (E.written err.old) (E.written err.new) (E.faults err.old) (E.faults err.new)
        (ended_text ended.now) }
{
    match ended {
        Ok(answer) => {
            let _ = write_reason(err, answer);
        }
        Err(stop) => {
            let _ = write_stop(err, *stop);
        }
    }
}
