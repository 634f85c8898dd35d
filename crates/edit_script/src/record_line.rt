//! The records of changes: their first lines, and writing them.

ghost use Rattle.std.specs.Prelude.{◌≡◌, Some, None, IfOk, OnOk, OnErr};
ghost use Rattle.std.specs.Io.KnownBytes.{Appends};
ghost use Rattle.tk_io.specs.Causes.{HasCause};
ghost use Rattle.tk_io.specs.Writing.{AppendsPart};
ghost use Rattle.edit_script.specs.View.{change_view, with_line};
ghost use Rattle.edit_script.specs.Stream.{record_line, record_of};

use crate::Change;
use itoa::Buffer;
use std::alloc::Global;
use tk_io::{Bytes, Failed, NoMemory, Sink, write_all};

/// The first line of the record of an output that is held no more.
pub(crate) fn gone_line(alloc: Global, path: &str) -> Result<Bytes, NoMemory>
    ensures { IfOk result (λ line. line ≡ record_line (path.now, None)) }
{
    let mut line = Bytes::new(alloc);
    line.append(b"gone ")?;
    line.append(path.as_bytes())?;
    line.append(b"\n")?;
    Ok(line)
}

/// The first line of the record of an output that is new or has other bytes.
pub(crate) fn file_line(alloc: Global, path: &str, bytes: &[u8]) -> Result<Bytes, NoMemory>
    ensures { IfOk result (λ line. line ≡ record_line (path.now, Some bytes.now)) }
{
    let mut buffer = Buffer::new();
    let mut line = Bytes::new(alloc);
    line.append(b"file ")?;
    line.append(path.as_bytes())?;
    line.append(b" ")?;
    line.append(buffer.format(bytes.len()).as_bytes())?;
    line.append(b"\n")?;
    Ok(line)
}

/// Writes the change's record in pieces: its first line, and for an output that is new or has other bytes these bytes
/// and then one 0x0A. The change carries its record's first line, as `delta` makes it.
///
/// # Errors
/// `Failed` only where the sink's faults rose; a part of the record was appended then, and not all of it.
pub fn write_change<K: Sink>(out: &mut K, change: &Change<'_>) -> Result<(), Failed>
    requires { change_view change.now ≡ with_line (change_view change.now).0 }
    ensures whole { OnOk result
        (Appends (K.written out.old) (K.written out.new)
        (record_of (change_view change.now).0)) }
    ensures part { OnErr result
        (AppendsPart (K.written out.old) (K.written out.new)
        (record_of (change_view change.now).0)) }
    ensures cause { HasCause (K.faults out.old) (K.faults out.new) result }
{
    match change {
        Change::Gone(_, line) => write_all(out, line.as_slice()),
        Change::Written(_, bytes, line) => {
            write_all(out, line.as_slice())?;
            write_all(out, bytes)?;
            write_all(out, b"\n")
        }
    }
}
