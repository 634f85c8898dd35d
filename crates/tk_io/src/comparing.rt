//! Comparing texts, most of which are short and differ in one of their first bytes.

ghost use Rattle.std.specs.Prelude.{◌≡◌, length};
ghost use Rattle.std.specs.Str.{bytes_eq};
ghost use Rattle.tk_io.specs.Order.{text_cmp};

use std::cmp::Ordering;

/// Up to how many bytes are looked at one by one.
const MOST_BYTES: usize = 32;

/// Whether two texts are the same.
pub fn is_same(left: &str, right: &str) -> bool
    ensures { result ≡ bytes_eq left.now right.now }
{
    if left.len() != right.len() {
        return false;
    }
    if left.len() > MOST_BYTES {
        return left == right;
    }
    is_same_short(left.as_bytes(), right.as_bytes())
}

// Whether two runs of as many bytes are the same.
fn is_same_short(left: &[u8], right: &[u8]) -> bool
    requires { length left.now ≡ length right.now }
    ensures { result ≡ bytes_eq left.now right.now }
{
    let mut ours = left;
    let mut others = right;
    while let (Some((byte, rest)), Some((other, more))) = (
        ours.split_first(),
        others.split_first(),
    ) {
        if byte != other {
            return false;
        }
        ours = rest;
        others = more;
    }
    true
}

/// How two texts stand to each other, by their bytes.
pub(crate) fn order_of(left: &str, right: &str) -> Ordering
    ensures { result ≡ text_cmp left.now right.now }
{
    let mut ours = left.as_bytes();
    let mut others = right.as_bytes();
    while let (Some((byte, rest)), Some((other, more))) = (
        ours.split_first(),
        others.split_first(),
    ) {
        if byte != other {
            return byte.cmp(other);
        }
        ours = rest;
        others = more;
    }
    ours.len().cmp(&others.len())
}
