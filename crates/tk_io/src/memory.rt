//! A source and a sink in memory whose calls fail where they are told to.

ghost use Rattle.std.specs.Prelude.{◌≡◌, [], ◌-◌, ◌≤◌, ◌<◌, ◌↔◌, Some, Contains, min, length};
ghost use Rattle.std.specs.Prelude.{IsErr, IfOk, OnErr};
ghost use Rattle.std.specs.Io.KnownBytes.{ReadConsumes, WriteAppends};
ghost use Rattle.tk_io.specs.Causes.{HasCause, following};
ghost use Rattle.tk_io.specs.Memory.{MustFail};

use crate::{Failed, Sink, Source};
use std::fmt;
use std::marker::Model;

/// A source over a slice. Its calls are numbered from 1, and those whose number is listed fail.
#[derive(Drop)]
pub struct MemSource<'a> {
    bytes: &'a [u8],
    fails: &'a [u64],
    calls: u64,
    faults: u64,
}

impl<'a> Model for MemSource<'a> {
    ghost use Rattle.tk_io.specs.Memory.{SourceInMemory};

    ghost Value = { SourceInMemory };

    ghost view = { λ s. record {
      left = s.bytes.now;
      fails = s.fails.now;
      calls = s.calls;
      faults = s.faults;
    } };
}

impl<'a> MemSource<'a> {
    /// A source of these bytes. The calls whose numbers stand in `fails` fail.
    pub fn new(bytes: &'a [u8], fails: &'a [u64]) -> MemSource<'a>
        ensures { result
            ≡ record { left = bytes.entry.now; fails = fails.entry.now; calls = 0; faults = 0 } }
    {
        MemSource {
            bytes,
            fails,
            calls: 0,
            faults: 0,
        }
    }
}

impl<'a> fmt::Debug for MemSource<'a> {
    fn fmt<W: fmt::Write>(&self, f: &mut fmt::Formatter<W>) -> fmt::Result {
        f.write_str("MemSource")
    }
}

impl<'a> Source for MemSource<'a> {
    ghost left = { λ s. Some s.left };

    ghost faults = { λ s. s.faults };

    /// Fails exactly where the call's number is listed, and else takes as much as the buffer and the bytes left allow.
    fn read(&mut self, buf: &mut [u8]) -> Result<usize, Failed>
        ensures bound { IfOk result (λ n. n ≤ length buf.new) }
        ensures bytes { ReadConsumes (Some self.old.left) (Some self.new.left) result buf.new }
        ensures cause { HasCause self.old.faults self.new.faults result }
        ensures once { OnErr result (self.new.faults ≡ following self.old.faults) }
        ensures number { self.new.calls ≡ following self.old.calls }
        ensures same { self.new.fails ≡ self.old.fails }
        ensures failed { IsErr result ↔ Contains self.old.fails (following self.old.calls) }
        ensures takes { IfOk result (λ n. n ≡ min (length buf.new) (length self.old.left)) }
    {
        self.calls = self.calls.saturating_add(1);
        if self.fails.contains(&self.calls) {
            self.faults = self.faults.saturating_add(1);
            return Err(Failed);
        }
        let n = buf.len().min(self.bytes.len());
        let (front, rest) = self.bytes.split_at(n);
        buf[..n].copy_from_slice(front);
        self.bytes = rest;
        Ok(n)
    }
}

/// A sink over a room. Its calls are numbered from 1; those whose number is listed fail, and so do those of a piece that
/// is not empty where the room is full. Each other call takes at most `most` bytes.
#[derive(Drop)]
pub struct MemSink<'a> {
    fails: &'a [u64],
    most: usize,
    room: &'a mut [u8],
    len: usize,
    calls: u64,
    faults: u64,
}

impl<'a> Model for MemSink<'a> {
    ghost use Rattle.std.specs.Prelude.{◌≤◌, take, length};
    ghost use Rattle.tk_io.specs.Memory.{SinkInMemory};

    ghost Value = { SinkInMemory };

    ghost view = { λ s. record {
      written = take s.len s.room.now;
      room = length s.room.now;
      most = s.most;
      fails = s.fails.now;
      calls = s.calls;
      faults = s.faults;
    } };

    ghost invariant = { λ s. (1 ≤ s.most) × (s.len ≤ length s.room.now) };
}

impl<'a> MemSink<'a> {
    /// A sink with nothing written. The calls whose numbers stand in `fails` fail.
    pub fn new(fails: &'a [u64], most: usize, room: &'a mut [u8]) -> MemSink<'a>
        requires { 1 ≤ most }
        ensures { result ≡ record {
          written = [];
          room = length room.old;
          most = most;
          fails = fails.entry.now;
          calls = 0;
          faults = 0;
        } }
    {
        MemSink {
            fails,
            most,
            room,
            len: 0,
            calls: 0,
            faults: 0,
        }
    }

    /// What was written.
    pub fn written(&self) -> &[u8]
        ensures { result.now ≡ self.now.written }
    {
        &self.room[..self.len]
    }
}

impl<'a> fmt::Debug for MemSink<'a> {
    fn fmt<W: fmt::Write>(&self, f: &mut fmt::Formatter<W>) -> fmt::Result {
        f.write_str("MemSink")
    }
}

impl<'a> Sink for MemSink<'a> {
    ghost written = { λ s. Some s.written };

    ghost faults = { λ s. s.faults };

    /// Fails exactly where the call's number is listed, or the piece is not empty and the room is full.
    fn write(&mut self, piece: &[u8]) -> Result<usize, Failed>
        ensures bound { IfOk result (λ n. n ≤ length piece.now) }
        ensures some { IfOk result (λ n. 0 < length piece.now → 0 < n) }
        ensures bytes { WriteAppends (Some self.old.written) (Some self.new.written)
            result piece.now }
        ensures cause { HasCause self.old.faults self.new.faults result }
        ensures once { OnErr result (self.new.faults ≡ following self.old.faults) }
        ensures number { self.new.calls ≡ following self.old.calls }
        ensures same { (self.new.fails ≡ self.old.fails) × (self.new.most ≡ self.old.most)
            × (self.new.room ≡ self.old.room) }
        ensures failed { IsErr result ↔ MustFail self.old.fails (following self.old.calls)
            (length piece.now) (self.old.room - length self.old.written) }
        ensures takes { IfOk result (λ n. n ≡ min (min (length piece.now) self.old.most)
            (self.old.room - length self.old.written)) }
    {
        self.calls = self.calls.saturating_add(1);
        let free = self.room.len() - self.len;
        if self.fails.contains(&self.calls) {
            self.faults = self.faults.saturating_add(1);
            return Err(Failed);
        }
        if free == 0 && !piece.is_empty() {
            self.faults = self.faults.saturating_add(1);
            return Err(Failed);
        }
        let n = piece.len().min(self.most).min(free);
        self.room[self.len..self.len + n].copy_from_slice(&piece[..n]);
        self.len += n;
        Ok(n)
    }
}
