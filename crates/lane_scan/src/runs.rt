//! The ends of runs: of the plain bytes of a string, and of blanks.

ghost use Rattle.std.specs.Prelude.{◌≡◌, ◌+◌, ◌≤◌, ◌<◌, false, length, drop, slice_range};
ghost use Rattle.std.specs.Prelude.{slice_index, All, IsTrue};
ghost use Rattle.std.specs.List.{position_or_len, prefix_len, AllPass};
ghost use Rattle.lane_scan.specs.Bytes.{is_special, is_blank};

use crate::blocks::{BLOCK, before_mark, other_bits, special_bits};

/// The first index from `from` of a byte at which the plain part of a JSON string ends (RFC 8259 section 7): a quote,
/// a backslash or a control byte below 0x20. It is the length where there is none.
pub fn first_special(bytes: &[u8], from: usize) -> usize
    requires { from ≤ length bytes.now }
    ensures first { result ≡ from + position_or_len is_special (drop from bytes.now) }
    ensures within { result ≤ length bytes.now }
    ensures passed { All (λ x. is_special x ≡ false) (slice_range bytes.now from result) }
    ensures stopped { result < length bytes.now
        → IsTrue (is_special (slice_index bytes.now result)) }
{
    let mut at = from;
    while bytes.len() - at >= BLOCK {
        let before = before_mark(special_bits(bytes, at));
        if before < BLOCK {
            return at + before;
        }
        at += BLOCK;
    }
    first_special_byte(bytes, at)
}

/// The first index from `from` of a byte that is no blank of JSON (RFC 8259 section 2): no space, tab, newline or
/// carriage return. It is the length where there is none.
pub fn skip_blank(bytes: &[u8], from: usize) -> usize
    requires { from ≤ length bytes.now }
    ensures first { result ≡ from + prefix_len is_blank (drop from bytes.now) }
    ensures within { result ≤ length bytes.now }
    ensures passed { AllPass is_blank (slice_range bytes.now from result) }
    ensures stopped { result < length bytes.now → is_blank (slice_index bytes.now result) ≡ false }
{
    if from < bytes.len() && !is_blank(bytes[from]) {
        return from;
    }
    skip_blank_lanes(bytes, from)
}

// Many bytes at a time.
fn skip_blank_lanes(bytes: &[u8], from: usize) -> usize
    requires { from ≤ length bytes.now }
    ensures first { result ≡ from + prefix_len is_blank (drop from bytes.now) }
    ensures within { result ≤ length bytes.now }
    ensures passed { AllPass is_blank (slice_range bytes.now from result) }
    ensures stopped { result < length bytes.now → is_blank (slice_index bytes.now result) ≡ false }
{
    let mut at = from;
    while bytes.len() - at >= BLOCK {
        let before = before_mark(other_bits(bytes, at));
        if before < BLOCK {
            return at + before;
        }
        at += BLOCK;
    }
    skip_blank_bytes(bytes, at)
}

// The rest of a text, which is shorter than a block.
fn first_special_byte(bytes: &[u8], from: usize) -> usize
    requires { from ≤ length bytes.now }
    ensures { result ≡ from + position_or_len is_special (drop from bytes.now) }
{
    let mut at = from;
    while at < bytes.len() && !is_special(bytes[at]) {
        at += 1;
    }
    at
}

// The rest of a text, which is shorter than a block.
fn skip_blank_bytes(bytes: &[u8], from: usize) -> usize
    requires { from ≤ length bytes.now }
    ensures { result ≡ from + prefix_len is_blank (drop from bytes.now) }
{
    let mut at = from;
    while at < bytes.len() && is_blank(bytes[at]) {
        at += 1;
    }
    at
}

fn is_special(byte: u8) -> bool
    ensures { result ≡ is_special byte }
{
    byte == b'"' || byte == b'\\' || byte < 0x20
}

fn is_blank(byte: u8) -> bool
    ensures { result ≡ is_blank byte }
{
    byte == b' ' || byte == b'\t' || byte == b'\n' || byte == b'\r'
}
