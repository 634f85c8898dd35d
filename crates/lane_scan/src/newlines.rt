//! The newlines of a text: how many, and the last.

ghost use Rattle.std.specs.Prelude.{◌≡◌, ◌≢◌, ◌+◌, ◌<◌, ◌≤◌, length, drop, count_by, slice_get};
ghost use Rattle.std.specs.Prelude.{All, IfSome, IfNone};
ghost use Rattle.lane_scan.specs.Bytes.{is_newline};

use crate::blocks::{BLOCK, newline_bits};

/// How many bytes are newlines, 0x0A.
pub fn count_newlines(bytes: &[u8]) -> usize
    ensures { result ≡ count_by is_newline bytes.now }
{
    let mut at = 0;
    let mut total = 0;
    while bytes.len() - at >= BLOCK {
        total += newline_bits(bytes, at).count_ones() as usize;
        at += BLOCK;
    }
    total + count_newline_bytes(&bytes[at..])
}

// The rest of a text, which is shorter than a block.
fn count_newline_bytes(bytes: &[u8]) -> usize
    ensures { result ≡ count_by is_newline bytes.now }
{
    bytes.iter().filter(|byte| **byte == b'\n').count()
}

/// The greatest index of a newline, 0x0A.
pub fn last_newline(bytes: &[u8]) -> Option<usize>
    ensures within { IfSome result (λ i. i < length bytes.now) }
    ensures found { IfSome result (λ i. slice_get bytes.now i ≡ Some 10) }
    ensures last { IfSome result (λ i. All (λ x. x ≢ 10) (drop (i + 1) bytes.now)) }
    ensures none { IfNone result (All (λ x. x ≢ 10) bytes.now) }
{
    let mut end = bytes.len();
    while end >= BLOCK && newline_bits(bytes, end - BLOCK) == 0 {
        end -= BLOCK;
    }
    last_newline_byte(bytes, end)
}

// The greatest index below `end` of a newline.
fn last_newline_byte(bytes: &[u8], end: usize) -> Option<usize>
    requires within { end ≤ length bytes.now }
    requires none_after { All (λ x. x ≢ 10) (drop end bytes.now) }
    ensures within { IfSome result (λ i. i < length bytes.now) }
    ensures found { IfSome result (λ i. slice_get bytes.now i ≡ Some 10) }
    ensures last { IfSome result (λ i. All (λ x. x ≢ 10) (drop (i + 1) bytes.now)) }
    ensures none { IfNone result (All (λ x. x ≢ 10) bytes.now) }
{
    let mut at = end;
    while at > 0 {
        at -= 1;
        if bytes[at] == b'\n' {
            return Some(at);
        }
    }
    None
}
