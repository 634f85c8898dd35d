//! What is said on the error sink.

ghost use Rattle.std.specs.Prelude.{OnOk, OnErr};
ghost use Rattle.std.specs.Io.KnownBytes.{Appends};
ghost use Rattle.tk_io.specs.Causes.{HasCause};
ghost use Rattle.tk_io.specs.Writing.{AppendsPart};
ghost use Rattle.token_cli.specs.Report.{Reports};
ghost use Rattle.check_cli.specs.Report.{error_text};
ghost use Rattle.check_cli.specs.inner.Ending.{place_of, status_of, stop_text};

use tk_io::{Failed, Sink};
use token_cli::{Stop, report_stop};

// Writes the text of a stop.
fn write_stop<E: Sink>(err: &mut E, stop: Stop) -> Result<(), Failed>
    ensures whole { OnOk result (Appends (E.written err.old) (E.written err.new) (stop_text stop)) }
    ensures part { OnErr result (AppendsPart (E.written err.old) (E.written err.new)
        (stop_text stop)) }
    ensures cause { HasCause (E.faults err.old) (E.faults err.new) result }
{
    report_stop(err, "tokc_check", "usage: tokc_check\n", stop)
}

/// Says on the error sink why a run stopped, if it did. Where a write fails, nothing else changes.
pub(crate) fn report<E: Sink>(err: &mut E, ended: Result<bool, Stop>)
    ensures { Reports (E.written err.old) (E.written err.new) (E.faults err.old) (E.faults err.new)
        (error_text (status_of ended) (place_of ended)) }
{
    if let Err(stop) = ended {
        let _ = write_stop(err, stop);
    }
}
