//! Where bytes go, and writing a piece whole.

ghost use Rattle.std.specs.Prelude.{◌≡◌, [], List, ℕ, ◌<◌, ◌≤◌, Option, length, Ok, IfOk, OnOk};
ghost use Rattle.std.specs.Prelude.{OnErr};
ghost use Rattle.std.specs.Io.KnownBytes.{Appends, WriteAppends};
ghost use Rattle.tk_io.specs.Causes.{HasCause};
ghost use Rattle.tk_io.specs.Writing.{AppendsPart};

use crate::Failed;

/// Where bytes go. `written` is what was written, where the sink tells it; `faults` counts its failed writes, rises at
/// nothing else, and stands still at 2^64 - 1.
pub trait Sink {
    ghost written: { Self → Option (List ℕ) };

    ghost faults: { Self → ℕ };

    /// Appends a prefix of the piece and answers its length: at least one byte of a piece that is not empty. `Failed`
    /// comes only where the faults rose, and appends nothing.
    fn write(&mut self, piece: &[u8]) -> Result<usize, Failed>
        ensures bound { IfOk result (λ n. n ≤ length piece.now) }
        ensures some { IfOk result (λ n. 0 < length piece.now → 0 < n) }
        ensures bytes { WriteAppends (written self.old) (written self.new) result piece.now }
        ensures cause { HasCause (faults self.old) (faults self.new) result };
}

/// Writes the whole piece; an empty one without a write.
///
/// # Errors
/// `Failed` only where the sink's faults rose; a part of the piece was appended then, and not all of it.
pub fn write_all<K: Sink>(out: &mut K, piece: &[u8]) -> Result<(), Failed>
    ensures whole { OnOk result (Appends (K.written out.old) (K.written out.new) piece.now) }
    ensures part { OnErr result (AppendsPart (K.written out.old) (K.written out.new) piece.now) }
    ensures empty { piece.now ≡ [] → (result ≡ Ok tt) × (out.new ≡ out.old) }
    ensures cause { HasCause (K.faults out.old) (K.faults out.new) result }
{
    let mut rest = piece;
    while !rest.is_empty() {
        let n = out.write(rest)?;
        rest = &rest[n..];
    }
    Ok(())
}
