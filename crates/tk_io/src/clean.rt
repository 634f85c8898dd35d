//! A source and a sink that never fail.

ghost use Rattle.std.specs.Prelude.{◌≡◌, ◌≤◌, ◌<◌, Some, None, min, length, IsOkAnd, IfOk};
ghost use Rattle.std.specs.Io.KnownBytes.{ReadConsumes, WriteAppends};
ghost use Rattle.tk_io.specs.Causes.{HasCause};

use crate::{Failed, Sink, Source};
use std::marker::Model;

/// A source over a slice that tells what it has left and never fails.
#[derive(Debug, Drop)]
pub struct CleanSource<'a> {
    bytes: &'a [u8],
}

impl<'a> Model for CleanSource<'a> {
    ghost use Rattle.std.specs.Prelude.{List, ℕ};

    ghost Value = { List ℕ };

    ghost view = { λ s. s.bytes.now };
}

impl<'a> CleanSource<'a> {
    /// A source of these bytes.
    pub fn new(bytes: &'a [u8]) -> CleanSource<'a>
        ensures { result ≡ bytes.entry.now }
    {
        CleanSource { bytes }
    }
}

impl<'a> Source for CleanSource<'a> {
    ghost left = { λ s. Some s };

    ghost faults = { λ _. 0 };

    /// Takes as much as the buffer and the bytes left allow.
    fn read(&mut self, buf: &mut [u8]) -> Result<usize, Failed>
        ensures bound { IfOk result (λ n. n ≤ length buf.new) }
        ensures bytes { ReadConsumes (Some self.old) (Some self.new) result buf.new }
        ensures cause { HasCause 0 0 result }
        ensures takes { IsOkAnd result (λ n. n ≡ min (length buf.new) (length self.old)) }
    {
        let n = buf.len().min(self.bytes.len());
        let (front, rest) = self.bytes.split_at(n);
        buf[..n].copy_from_slice(front);
        self.bytes = rest;
        Ok(n)
    }
}

/// A sink that takes each piece whole, keeps nothing, tells nothing and never fails.
#[derive(Clone, Copy, Debug, PartialEq, Eq)]
pub struct NullSink;

impl NullSink {
    /// The sink.
    pub fn new() -> NullSink
        ensures { result ≡ record {} }
    {
        NullSink
    }
}

impl Sink for NullSink {
    ghost written = { λ _. None };

    ghost faults = { λ _. 0 };

    /// Takes the whole piece.
    fn write(&mut self, piece: &[u8]) -> Result<usize, Failed>
        ensures bound { IfOk result (λ n. n ≤ length piece.now) }
        ensures some { IfOk result (λ n. 0 < length piece.now → 0 < n) }
        ensures bytes { WriteAppends None None result piece.now }
        ensures cause { HasCause 0 0 result }
        ensures takes { IsOkAnd result (λ n. n ≡ length piece.now) }
    {
        Ok(piece.len())
    }
}
