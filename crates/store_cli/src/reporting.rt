//! What is said on the error sink.

ghost use Rattle.std.specs.Prelude.{OnOk, OnErr};
ghost use Rattle.std.specs.Io.KnownBytes.{Appends};
ghost use Rattle.tk_io.specs.Causes.{HasCause};
ghost use Rattle.tk_io.specs.Writing.{AppendsPart};
ghost use Rattle.token_cli.specs.Report.{Reports};
ghost use Rattle.store_cli.specs.Report.{error_text};
ghost use Rattle.store_cli.specs.inner.Ending.{place_of, status_of, stop_text};

use crate::stop::Stop;
use tk_io::{Failed, Sink, write_all};
use token_cli::{report_event, report_script};

// Writes the text of a stop.
fn write_text<E: Sink>(err: &mut E, stop: Stop) -> Result<(), Failed>
    ensures whole { OnOk result (Appends (E.written err.old) (E.written err.new) (stop_text stop)) }
    ensures part { OnErr result (AppendsPart (E.written err.old) (E.written err.new)
        (stop_text stop)) }
    ensures cause { HasCause (E.faults err.old) (E.faults err.new) result }
{
    match stop {
        Stop::Usage => write_all(err, b"usage: tokc_store ROOT\n"),
        Stop::BadScript(at) => report_script(err, "tokc_store", at),
        Stop::ReadFault => write_all(err, b"tokc_store: read failed\n"),
        Stop::NoMemory => write_all(err, b"tokc_store: out of memory\n"),
        Stop::TooLong => write_all(err, b"tokc_store: script too long\n"),
        Stop::StoreFault => write_all(err, b"tokc_store: store failed\n"),
        Stop::BadManifest => write_all(err, b"tokc_store: bad manifest\n"),
        Stop::BadEvent(number) => report_event(err, "tokc_store", number),
    }
}

/// Says on the error sink why a run stopped, if it did. Where a write fails, nothing else changes.
pub(crate) fn report<E: Sink>(err: &mut E, ended: Result<bool, Stop>)
    ensures { Reports (E.written err.old) (E.written err.new) (E.faults err.old) (E.faults err.new)
        (error_text (status_of ended) (place_of ended)) }
{
    if let Err(stop) = ended {
        let _ = write_text(err, stop);
    }
}
