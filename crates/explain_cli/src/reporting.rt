//! What is said on the error sink.

ghost use Rattle.std.specs.Prelude.{Ok, Err, Some, OnOk, OnErr};
ghost use Rattle.std.specs.Io.KnownBytes.{Appends};
ghost use Rattle.tk_io.specs.Causes.{HasCause};
ghost use Rattle.tk_io.specs.Writing.{AppendsPart};
ghost use Rattle.token_cli.specs.Report.{Reports};
ghost use Rattle.explain_cli.specs.inner.Ending.{ended_text};

use crate::answer::Refusal;
use tk_io::{Failed, Sink, write_all};
use token_cli::{Stop, report_stop};

const USAGE: &str = "usage: tokc_explain show PERM PLACE | check CERT\n";

// Writes the text of a stop.
fn write_stop<E: Sink>(err: &mut E, stop: Stop) -> Result<(), Failed>
    ensures whole { OnOk result (Appends (E.written err.old) (E.written err.new)
        (ended_text (Err stop))) }
    ensures part { OnErr result (AppendsPart (E.written err.old) (E.written err.new)
        (ended_text (Err stop))) }
    ensures cause { HasCause (E.faults err.old) (E.faults err.new) result }
{
    report_stop(err, "tokc_explain", USAGE, stop)
}

// Writes why nothing was written of a question.
fn write_refusal<E: Sink>(err: &mut E, why: Refusal) -> Result<(), Failed>
    ensures whole { OnOk result (Appends (E.written err.old) (E.written err.new)
        (ended_text (Ok (Some why)))) }
    ensures part { OnErr result (AppendsPart (E.written err.old) (E.written err.new)
        (ended_text (Ok (Some why)))) }
    ensures cause { HasCause (E.faults err.old) (E.faults err.new) result }
{
    match why {
        Refusal::NoFile => write_all(err, b"tokc_explain: no file\n"),
        Refusal::BadCertificate => write_all(err, b"tokc_explain: bad certificate\n"),
        Refusal::Refused => write_all(err, b"tokc_explain: refused\n"),
        Refusal::NoPermutation => write_all(err, b"tokc_explain: no permutation\n"),
        Refusal::NoPlace => write_all(err, b"tokc_explain: no place\n"),
    }
}

/// Says on the error sink why a run stopped or wrote nothing, if it did. Where a write fails, nothing else changes.
pub(crate) fn report<E: Sink>(err: &mut E, ended: Result<Option<Refusal>, Stop>)
    ensures { Reports (E.written err.old) (E.written err.new) (E.faults err.old) (E.faults err.new)
        (ended_text ended) }
{
    match ended {
        Ok(None) => {}
        Ok(Some(why)) => {
            let _ = write_refusal(err, why);
        }
        Err(stop) => {
            let _ = write_stop(err, stop);
        }
    }
}
