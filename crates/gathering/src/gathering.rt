//! A sink that gathers what it is given, and hands it on in larger pieces.

ghost use Rattle.std.specs.Prelude.{◌≡◌, [], ◌++◌, ◌≤◌, ◌<◌, length, true, false, IfOk, OnOk, OnErr, ℕ, List, Option, None};
ghost use Rattle.std.specs.Io.KnownBytes.{Keeps, WriteAppends};
ghost use Rattle.std.specs.Io.KnownBytes.{append_known};
ghost use Rattle.tk_io.specs.Causes.{HasCause};
ghost use Rattle.gathering.specs.Growing.{Grew};

use std::alloc::Global;
use std::marker::{Brand, Model, PhantomData};
use tk_io::{Bytes, Failed, Sink};

/// How many bytes are gathered at most.
const ROOM: usize = 65_536;

/// What the sink behind held when a sink that gathers was made, and the count of its faults then.
pub trait Start {
    ghost written: { Option (List ℕ) };

    ghost faults: { ℕ };
}

impl Start for Brand {
    ghost written = { None };

    ghost faults = { 0 };
}

/// A sink that keeps pieces until it has 65,536 bytes of them, and hands these on at once to the sink behind it; a longer
/// piece, and one for which there is no memory, is handed on as it comes. Seen as the sink behind, and the bytes that are
/// held for it.
#[derive(Drop)]
pub struct GatheringSink<K: Sink, B: Start> {
    inner: K,
    held: Bytes,
    /// How many of these were handed on before the sink behind failed.
    handed: usize,
    start: PhantomData<B>,
}

impl<K: Sink, B: Start> Model for GatheringSink<K, B> {
    ghost use Rattle.std.specs.Prelude.{◌≤◌, ℕ, List, length, drop};
    ghost use Rattle.std.specs.Coded.{coded×, coded_list, coded_ℕ};
    ghost use Rattle.gathering.specs.Growing.{Grew};

    ghost Value = { K × List ℕ };

    ghost coded = { coded× K.code (coded_list coded_ℕ) };

    ghost view = { λ s. (s.inner, drop s.handed s.held) };

    ghost invariant = { λ s. (s.handed ≤ length s.held)
        × (Grew B.written (K.written s.inner) × (B.faults ≤ K.faults s.inner)) };
}

impl<K: Sink, B: Start> GatheringSink<K, B> {
    /// A sink that holds nothing, before this one.
    pub fn new(alloc: Global, inner: K) -> GatheringSink<K, B>
        requires written { K.written inner ≡ B.written }
        requires faults { K.faults inner ≡ B.faults }
        ensures { result ≡ (inner, []) }
    {
        GatheringSink {
            inner,
            held: Bytes::new(alloc),
            handed: 0,
            start: PhantomData,
        }
    }

    /// Hands on all that is held.
    ///
    /// # Errors
    /// `Failed` where the sink behind fails; then a part is held still.
    pub fn flush(&mut self) -> Result<(), Failed>
        ensures all { OnOk result (self.new.1 ≡ []) }
        ensures part { OnErr result (0 < length self.new.1) }
        // What was given stays the same, whatever of it is handed on.
        ensures kept { Keeps (append_known (K.written self.old.0) self.old.1)
            (append_known (K.written self.new.0) self.new.1) }
        ensures cause { HasCause (K.faults self.old.0) (K.faults self.new.0) result }
        // No count fell since the sink behind was given.
        ensures since { B.faults ≤ K.faults self.old.0 }
    {
        while self.handed < self.held.len() {
            let count = self.inner.write(&self.held.as_slice()[self.handed..])?;
            self.handed += count;
        }
        self.held.truncate(0);
        self.handed = 0;
        Ok(())
    }

    /// The sink behind. What is held for it is lost.
    pub fn into_inner(self) -> K
        ensures behind { result ≡ self.0 }
        ensures grew { Grew B.written (K.written result) × (B.faults ≤ K.faults result) }
    {
        self.inner
    }

    // Keeps the piece, where there is room and memory for it.
    fn hold(&mut self, piece: &[u8]) -> bool
        ensures held { result ≡ true → self.new ≡ (self.old.0, self.old.1 ++ piece.now) }
        ensures not { result ≡ false → self.new ≡ self.old }
    {
        let count = self.held.len();
        if count > ROOM || piece.len() > ROOM - count {
            return false;
        }
        self.held.append(piece).is_ok()
    }
}

impl<K: Sink, B: Start> Sink for GatheringSink<K, B> {
    ghost written = { λ s. append_known (K.written s.0) s.1 };

    ghost faults = { λ s. K.faults s.0 };

    /// Keeps the piece where it has room and memory for it; else hands on what it holds, and then keeps the piece or hands
    /// it on too.
    fn write(&mut self, piece: &[u8]) -> Result<usize, Failed>
        ensures bound { IfOk result (λ n. n ≤ length piece.now) }
        ensures some { IfOk result (λ n. 0 < length piece.now → 0 < n) }
        ensures bytes { WriteAppends (append_known (K.written self.old.0) self.old.1)
            (append_known (K.written self.new.0) self.new.1) result piece.now }
        ensures cause { HasCause (K.faults self.old.0) (K.faults self.new.0) result }
    {
        if self.hold(piece) {
            return Ok(piece.len());
        }
        self.flush()?;
        if self.hold(piece) {
            return Ok(piece.len());
        }
        self.inner.write(piece)
    }
}
