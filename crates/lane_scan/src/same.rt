//! Whether two runs of bytes are the same.

ghost use Rattle.std.specs.Prelude.{◌≡◌};
ghost use Rattle.std.specs.Str.{bytes_eq};

use crate::blocks::{BLOCK, are_same_blocks};

/// Whether two runs of bytes are the same.
pub fn are_same(left: &[u8], right: &[u8]) -> bool
    ensures { result ≡ bytes_eq left.now right.now }
{
    if left.len() != right.len() {
        return false;
    }
    let mut at = 0;
    while left.len() - at >= BLOCK {
        if !are_same_blocks(left, right, at) {
            return false;
        }
        at += BLOCK;
    }
    left[at..] == right[at..]
}
