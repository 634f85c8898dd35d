//! Bytes that grow at their end.

ghost use Rattle.std.specs.Prelude.{◌≡◌, ◌==◌, [], ◌++◌, IfOk, OnOk, OnErr, length, take};

use crate::NoMemory;
use std::alloc::Global;
use std::marker::Model;

/// A list of bytes that grows at its end.
#[derive(Debug, Drop)]
pub struct Bytes {
    items: Vec<u8>,
}

impl Model for Bytes {
    ghost use Rattle.std.specs.Prelude.{List, ℕ};

    ghost Value = { List ℕ };

    ghost view = { λ b. b.items.items };
}

impl Bytes {
    /// No bytes.
    pub fn new(alloc: Global) -> Bytes
        ensures { result ≡ [] }
    {
        Bytes {
            items: Vec::new(alloc),
        }
    }

    /// No bytes, with room for so many: memory is asked for once where no more are added.
    pub fn with_room(alloc: Global, room: usize) -> Result<Bytes, NoMemory>
        ensures { IfOk result (λ bytes. bytes ≡ []) }
    {
        let items = Vec::with_capacity(alloc, room)?;
        Ok(Bytes { items })
    }

    /// No bytes, in the memory that these bytes grow in.
    pub fn fresh(&self) -> Bytes
        ensures { result ≡ [] }
    {
        Bytes {
            items: Vec::new(self.allocator()),
        }
    }

    /// The memory that these bytes grow in.
    pub(crate) fn allocator(&self) -> Global {
        *self.items.allocator()
    }

    /// Adds the piece at the end. Where memory runs out nothing changes.
    pub fn append(&mut self, piece: &[u8]) -> Result<(), NoMemory>
        ensures ok { OnOk result (self.new ≡ self.old ++ piece.now) }
        ensures err { OnErr result (self.new ≡ self.old) }
    {
        self.items.extend_from_slice(piece)?;
        Ok(())
    }

    /// Takes away all bytes after the first `len`; none where there are no more than that.
    pub fn truncate(&mut self, len: usize)
        ensures { self.new ≡ take len self.old }
    {
        self.items.truncate(len);
    }

    /// Ends a run of appends that began at the length `start`: where it was refused, all bytes
    /// after `start` are taken away.
    pub fn all_or_nothing(
        &mut self,
        start: usize,
        appended: Result<(), NoMemory>,
    ) -> Result<(), NoMemory>
        ensures same { result ≡ appended }
        ensures ok { OnOk result (self.new ≡ self.old) }
        ensures err { OnErr result (self.new ≡ take start self.old) }
    {
        if appended.is_err() {
            self.truncate(start);
        }
        appended
    }

    /// Whether there are none.
    pub fn is_empty(&self) -> bool
        ensures { result ≡ (length self.now == 0) }
    {
        self.items.is_empty()
    }

    /// How many bytes there are.
    pub fn len(&self) -> usize
        ensures { result ≡ length self.now }
    {
        self.items.len()
    }

    /// The bytes.
    pub fn as_slice(&self) -> &[u8]
        ensures { result.now ≡ self.now }
    {
        self.items.as_slice()
    }
}
