//! Where bytes come from, and reading a source to its end.

ghost use Rattle.std.specs.Prelude.{◌≡◌, List, ℕ, ◌+◌, ◌<◌, ◌≤◌, ◌^◌, Option, length, IfOk};
ghost use Rattle.std.specs.Prelude.{IsErrOf};
ghost use Rattle.std.specs.Io.KnownBytes.{Consumes, IsAtEnd, ReadConsumes};
ghost use Rattle.tk_io.specs.Causes.{HasCause, Rose};
ghost use Rattle.tk_io.specs.Reading.{TakesAtMost, TakesExactly};
ghost use Rattle.tk_io.specs.declared.source.ReadStop.TheVariants.{NoMemory as OutOfMemory};

use crate::{Bytes, Failed, NoMemory};
use std::alloc::Global;

/// Where bytes come from. `left` is what the source has left, where it tells it; `faults` counts its failed reads, rises
/// at nothing else, and stands still at 2^64 - 1.
pub trait Source {
    ghost left: { Self → Option (List ℕ) };

    ghost faults: { Self → ℕ };

    /// Takes bytes to the start of the buffer and answers how many. 0 for a buffer that is not empty is the end, and
    /// comes exactly there where the bytes left are told. `Failed` comes only where the faults rose, and takes nothing.
    fn read(&mut self, buf: &mut [u8]) -> Result<usize, Failed>
        ensures bound { IfOk result (λ n. n ≤ length buf.new) }
        ensures bytes { ReadConsumes (left self.old) (left self.new) result buf.new }
        ensures cause { HasCause (faults self.old) (faults self.new) result };
}

/// Why a source was not read to its end. The bytes taken until then are lost.
#[derive(Clone, Copy, Debug, PartialEq, Eq)]
pub enum ReadStop {
    /// A read failed.
    ReadFault,
    /// The source has more bytes than the limit: one more than the limit was taken.
    TooLong,
    /// Memory ran out.
    NoMemory,
}

impl From<NoMemory> for ReadStop {
    ghost from_gives = { λ _ e. e ≡ OutOfMemory };

    fn from(_: NoMemory) -> ReadStop {
        ReadStop::NoMemory
    }
}

/// How many bytes are asked for at a time.
const CHUNK: usize = 65536;

/// Reads all bytes up to the end of the source, of which there may be at most `limit`. At most `limit + 1` are taken.
///
/// # Errors
/// `ReadFault` only where the source's faults rose; `TooLong` exactly where `limit + 1` bytes were taken; `NoMemory`.
pub fn read_all<S: Source>(alloc: Global, src: &mut S, limit: u64) -> Result<Bytes, ReadStop>
    requires { limit < 2 ^ 32 }
    // What is read is all that the source had left.
    ensures whole { IfOk result
        (λ bytes. Consumes (S.left src.old) (S.left src.new) bytes × IsAtEnd (S.left src.new)) }
    ensures short { IfOk result (λ bytes. length bytes ≤ limit) }
    // One byte more than the limit was taken exactly where it is too long, and never more.
    ensures long { IsErrOf result ReadStop.TooLong
        → TakesExactly (limit + 1) (S.left src.old) (S.left src.new) }
    ensures taken { (IsErrOf result ReadStop.TooLong → ⊥)
        → TakesAtMost limit (S.left src.old) (S.left src.new) }
    ensures fault { IsErrOf result ReadStop.ReadFault → Rose (S.faults src.old) (S.faults src.new) }
    ensures later { S.faults src.old ≤ S.faults src.new }
    // Each other answer leaves the count of faults.
    ensures kept { (IsErrOf result ReadStop.ReadFault → ⊥) → S.faults src.new ≡ S.faults src.old }
{
    let mut all = Bytes::new(alloc);
    let mut taken: u64 = 0;
    let mut buf = [0u8; CHUNK];
    loop {
        let room = limit + 1 - taken;
        let want = room.min(CHUNK as u64) as usize;
        match src.read(&mut buf[..want]) {
            Err(_) => return Err(ReadStop::ReadFault),
            Ok(0) => return Ok(all),
            Ok(n) => {
                taken += n as u64;
                if taken > limit {
                    return Err(ReadStop::TooLong);
                }
                all.append(&buf[..n])?;
            }
        }
    }
}
