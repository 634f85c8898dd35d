//! The lines of the stream and of the statistics that stand by themselves.

ghost use Rattle.std.specs.Prelude.{◌≡◌, ◌+◌, ◌≤◌, ◌++◌, length, take, codes, OnOk, OnErr};
ghost use Rattle.std.specs.Fmt.{decimal};
ghost use Rattle.std.specs.Io.KnownBytes.{Appends};
ghost use Rattle.tk_io.specs.Causes.{HasCause};
ghost use Rattle.tk_io.specs.Writing.{AppendsPart};
ghost use Rattle.edit_script.specs.Stream.{line_text};

use itoa::Buffer;
use std::fmt;
use tk_io::{Failed, Sink, write_all};

/// A line of the stream or of the statistics that is no part of a record.
#[derive(Clone, Copy, PartialEq, Eq)]
pub enum Line {
    /// The header of the stream, `tokc-stream 1`.
    StreamHead,
    /// The header of the statistics, `tokc-stats 1`.
    StatsHead,
    /// The line of this commit, counted from 1: `commit K`.
    Commit(u64),
    /// The line of this commit in the statistics, with the numbers of files read, of permutations merged and of tokens
    /// evaluated for it, and of its `file` and `gone` records: `commit K parsed A merged B evaluated C written D gone E`.
    Stats {
        commit: u64,
        parsed: u64,
        merged: u64,
        evaluated: u64,
        written: u64,
        gone: u64,
    },
    /// The last line, with the number of commits: `done N`.
    Done(u64),
}

impl fmt::Debug for Line {
    fn fmt<W: fmt::Write>(&self, f: &mut fmt::Formatter<W>) -> fmt::Result {
        f.write_str("Line")
    }
}

/// Writes the line with its line end, as one piece.
///
/// # Errors
/// `Failed` only where the sink's faults rose; a part of the line was appended then, and not all of it.
pub fn write_line<K: Sink>(out: &mut K, line: &Line) -> Result<(), Failed>
    ensures whole { OnOk result
        (Appends (K.written out.old) (K.written out.new) (line_text line.now)) }
    ensures part { OnErr result
        (AppendsPart (K.written out.old) (K.written out.new) (line_text line.now)) }
    ensures cause { HasCause (K.faults out.old) (K.faults out.new) result }
{
    match line {
        Line::StreamHead => write_all(out, b"tokc-stream 1\n"),
        Line::StatsHead => write_all(out, b"tokc-stats 1\n"),
        Line::Commit(k) => write_numbered(out, b"commit ", *k),
        Line::Stats {
            commit,
            parsed,
            merged,
            evaluated,
            written,
            gone,
        } => write_stats(out, *commit, *parsed, *merged, *evaluated, *written, *gone),
        Line::Done(n) => write_numbered(out, b"done ", *n),
    }
}

// The most bytes of a line: those of the words of the statistics, and of six numbers.
const LONGEST_LINE: usize = 192;

// Writes the word, the number and a line end as one piece.
fn write_numbered<K: Sink>(out: &mut K, word: &[u8], number: u64) -> Result<(), Failed>
    requires { length word.now ≤ 7 }
    ensures whole { OnOk result (Appends (K.written out.old) (K.written out.new)
        (word.now ++ decimal number ++ codes "\n")) }
    ensures part { OnErr result (AppendsPart (K.written out.old) (K.written out.new)
        (word.now ++ decimal number ++ codes "\n")) }
    ensures cause { HasCause (K.faults out.old) (K.faults out.new) result }
{
    let mut piece = [0u8; LONGEST_LINE];
    let end = put_number(&mut piece, 0, word, number);
    let len = put_at(&mut piece, end, b"\n");
    write_all(out, &piece[..len])
}

// Writes the line of a commit in the statistics as one piece.
fn write_stats<K: Sink>(
    out: &mut K,
    commit: u64,
    parsed: u64,
    merged: u64,
    evaluated: u64,
    written: u64,
    gone: u64,
) -> Result<(), Failed>
    ensures whole { OnOk result (Appends (K.written out.old) (K.written out.new)
        (line_text (Line.Stats commit parsed merged evaluated written gone))) }
    ensures part { OnErr result (AppendsPart (K.written out.old) (K.written out.new)
        (line_text (Line.Stats commit parsed merged evaluated written gone))) }
    ensures cause { HasCause (K.faults out.old) (K.faults out.new) result }
{
    let mut piece = [0u8; LONGEST_LINE];
    let first = put_number(&mut piece, 0, b"commit ", commit);
    let second = put_number(&mut piece, first, b" parsed ", parsed);
    let third = put_number(&mut piece, second, b" merged ", merged);
    let fourth = put_number(&mut piece, third, b" evaluated ", evaluated);
    let fifth = put_number(&mut piece, fourth, b" written ", written);
    let sixth = put_number(&mut piece, fifth, b" gone ", gone);
    let len = put_at(&mut piece, sixth, b"\n");
    write_all(out, &piece[..len])
}

// Puts the word and the number into the piece at this place, and answers where they end.
fn put_number(piece: &mut [u8; LONGEST_LINE], at: usize, word: &[u8], number: u64) -> usize
    requires { at + length word.now + 20 ≤ LONGEST_LINE }
    ensures bound { result ≤ at + length word.now + 20 }
    ensures front { take result piece.new ≡ take at piece.old ++ word.now ++ decimal number }
{
    let mut buffer = Buffer::new();
    let digits = buffer.format(number).as_bytes();
    let middle = put_at(piece, at, word);
    put_at(piece, middle, digits)
}

// Puts the bytes into the piece at this place, and answers where they end.
fn put_at(piece: &mut [u8; LONGEST_LINE], at: usize, bytes: &[u8]) -> usize
    requires { at + length bytes.now ≤ LONGEST_LINE }
    ensures end { result ≡ at + length bytes.now }
    ensures front { take result piece.new ≡ take at piece.old ++ bytes.now }
{
    let end = at + bytes.len();
    piece[at..end].copy_from_slice(bytes);
    end
}
