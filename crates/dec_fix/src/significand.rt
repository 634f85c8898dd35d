//! Digits of any number into numbers of a bounded size.

ghost use Rattle.std.specs.Prelude.{◌≡◌, ℕ, ◌+◌, ◌*◌, ◌^◌, ◌≤◌, ◌<◌, length, min, IsTrue};
ghost use Rattle.std.specs.Str.{all_ascii_digits};
ghost use Rattle.dec_fix.specs.Decimal.{size_limit};
ghost use Rattle.dec_fix.specs.inner.Significand.{IsSignificand};
ghost use Rattle.dec_fix.specs.Spelling.{digits_number, digits_number_after};

use crate::decimal::LIMIT;

/// An exponent from here on says no more than this one: 2 to the power 70, more than any text has digits.
pub(crate) const FAR: u128 = 1_180_591_620_717_411_303_424;

/// Digits as a number without its last zeros, at most `LIMIT`, and how many zeros follow.
#[derive(Clone, Copy)]
pub(crate) struct Significand {
    pub size: u128,
    pub zeros: u128,
}

/// `m` times ten to the power `k`, or `LIMIT` where that is greater.
pub(crate) fn scaled(m: u128, k: u128) -> u128
    requires { m ≤ size_limit }
    ensures { result ≡ min (m * 10 ^ k) size_limit }
{
    if m == 0 {
        return 0;
    }
    let mut n = m;
    let mut left = k;
    while left > 0 && n < LIMIT {
        n *= 10;
        left -= 1;
    }
    n.min(LIMIT)
}

/// The digits so far with one more after them.
fn with_digit(so_far: Significand, digit: u128) -> Significand
    requires limit { so_far.size ≤ size_limit }
    requires zeros { so_far.zeros < 2 ^ 100 }
    requires digit { digit < 10 }
    ensures limit { result.size ≤ size_limit }
    ensures zeros { result.zeros ≤ so_far.zeros + 1 }
    ensures holds { (n : ℕ) → IsSignificand so_far.size so_far.zeros n
        → IsSignificand result.size result.zeros (n * 10 + digit) }
{
    if digit != 0 {
        let size = scaled(so_far.size, so_far.zeros + 1);
        Significand {
            size: (size + digit).min(LIMIT),
            zeros: 0,
        }
    } else {
        Significand {
            size: so_far.size,
            zeros: so_far.zeros + 1,
        }
    }
}

/// The digits so far with more after them.
pub(crate) fn with_digits(so_far: Significand, digits: &[u8]) -> Significand
    requires limit { so_far.size ≤ size_limit }
    requires zeros { so_far.zeros < 2 ^ 99 }
    requires digits { IsTrue (all_ascii_digits digits.now) }
    ensures limit { result.size ≤ size_limit }
    ensures zeros { result.zeros ≤ so_far.zeros + length digits.now }
    ensures holds { (n : ℕ) → IsSignificand so_far.size so_far.zeros n
        → IsSignificand result.size result.zeros (digits_number_after n digits.now) }
{
    let mut kept = so_far;
    for c in digits {
        kept = with_digit(kept, u128::from(*c - b'0'));
    }
    kept
}

/// The number that the digits write, or `FAR` where it is greater.
pub(crate) fn exponent(digits: &[u8]) -> u128
    requires digits { IsTrue (all_ascii_digits digits.now) }
    ensures { result ≡ min (digits_number digits.now) FAR }
{
    let mut n: u128 = 0;
    for c in digits {
        n = (n * 10 + u128::from(*c - b'0')).min(FAR);
    }
    n
}
