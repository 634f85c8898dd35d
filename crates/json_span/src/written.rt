//! How a string is written.

ghost use Rattle.std.specs.Prelude.{◌≡◌, ◌∷◌, List, ℕ, true, ◌++◌, ◌<◌, OnOk, OnErr};
ghost use Rattle.lane_scan.specs.Bytes.{is_special};
ghost use Rattle.tk_io.specs.Characters.{quote};
ghost use Rattle.tk_io.specs.Writing.{Extends};
ghost use Rattle.json_span.specs.Spelling.{hex_digit, byte_text, inside_text, string_text};
ghost use Rattle.json_span.specs.Spelling.{are_bytes};
ghost use Rattle.json_span.specs.Reading.{StringAt};

use lane_scan::first_special;
use tk_io::{Bytes, NoMemory};

fn hex_digit(n: u8) -> u8
    requires digit { n < 16 }
    ensures { result ≡ hex_digit n }
{
    if n < 10 { b'0' + n } else { 87 + n }
}

// The escape of a byte that cannot stand for itself.
fn write_escape(byte: u8, out: &mut Bytes) -> Result<(), NoMemory>
    requires special { is_special byte ≡ true }
    ensures ok { OnOk result (out.new ≡ out.old ++ byte_text byte) }
    ensures err { OnErr result (Extends out.old out.new) }
{
    if byte == b'"' || byte == b'\\' {
        return out.append(&[b'\\', byte]);
    }
    out.append(&[
        b'\\',
        b'u',
        b'0',
        b'0',
        hex_digit(byte / 16),
        hex_digit(byte % 16),
    ])
}

// Runs of plain bytes as they are, and escapes between them; of a refusal a part may stay.
fn put_inside(text: &[u8], out: &mut Bytes) -> Result<(), NoMemory>
    ensures ok { OnOk result (out.new ≡ out.old ++ inside_text text.now) }
    ensures err { OnErr result (Extends out.old out.new) }
{
    let mut at = 0;
    loop {
        let special = first_special(text, at);
        out.append(&text[at..special])?;
        if special == text.len() {
            return Ok(());
        }
        write_escape(text[special], out)?;
        at = special + 1;
    }
}

// Appends the spelling of a string; where memory runs out a part of it may stand there.
fn put_string(text: &[u8], out: &mut Bytes) -> Result<(), NoMemory>
    ensures ok { OnOk result (out.new ≡ out.old ++ string_text text.now) }
    ensures err { OnErr result (Extends out.old out.new) }
{
    out.append(b"\"")?;
    put_inside(text, out)?;
    out.append(b"\"")
}

/// The string of these bytes in quotes; it reads back as they are (`spelling_laws`). Where memory
/// runs out nothing is written.
pub fn write_string_bytes(text: &[u8], out: &mut Bytes) -> Result<(), NoMemory>
    ensures text { OnOk result (out.new ≡ out.old ++ string_text text.now) }
    ensures err { OnErr result (out.new ≡ out.old) }
{
    let start = out.len();
    let written = put_string(text, out);
    out.all_or_nothing(start, written)
}

/// The string in quotes.
pub fn write_string(text: &str, out: &mut Bytes) -> Result<(), NoMemory>
    ensures text { OnOk result (out.new ≡ out.old ++ string_text text.now) }
    ensures err { OnErr result (out.new ≡ out.old) }
    ensures reads { (u : List ℕ) → StringAt (string_text text.now ++ u) text.now u }
    ensures bytes { are_bytes text.now ≡ true }
{
    write_string_bytes(text.as_bytes(), out)
}

/// The inside of the string, without its quotes. Several of them, with plain characters between
/// each two, are the inside of the joined string (`spelling_laws`). Where memory runs out nothing
/// is written.
pub fn write_string_inside(text: &str, out: &mut Bytes) -> Result<(), NoMemory>
    ensures text { OnOk result (out.new ≡ out.old ++ inside_text text.now) }
    ensures err { OnErr result (out.new ≡ out.old) }
    // Between quotes it reads back, whatever follows.
    ensures reads { (u : List ℕ)
        → StringAt (quote ∷ (inside_text text.now ++ (quote ∷ u))) text.now u }
    ensures bytes { are_bytes text.now ≡ true }
{
    let start = out.len();
    let written = put_inside(text.as_bytes(), out);
    out.all_or_nothing(start, written)
}
