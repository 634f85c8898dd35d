//! The type of decimals, and how one is made.

ghost use Rattle.std.specs.Prelude.{◌≡◌, ◌^◌, ◌≤◌, ◌<◌, pos};
ghost use Rattle.std.specs.Result.{result_ok};
ghost use Rattle.dec_fix.specs.Decimal.{signed, decimal_of, IsShort, IsDec};
ghost use Rattle.dec_fix.specs.Decimal.{computed_limit, most_computed_places};
ghost use Rattle.dec_fix.specs.Arithmetic.{whole_decimal};
ghost use Rattle.dec_fix.specs.Reading.{within_bounds};

use std::marker::Model;

/// No number of a JSON number's form is within the bounds and equal to the text.
#[derive(Clone, Copy, Debug, PartialEq, Eq)]
pub struct NotDec;

/// A decimal number `c / 10^s`, with as few places `s` as it can have: `s` is 0, or `c` is no multiple of ten. Always
/// `|c| < 10^33` and `s <= 33`.
#[derive(Clone, Copy, Debug, PartialEq, Eq)]
pub struct Dec {
    c: i128,
    s: u8,
}

impl Model for Dec {
    ghost use Rattle.dec_fix.specs.Decimal.{Decimal, IsDec};

    ghost Value = { Decimal };

    ghost view = { λ d. record { c = d.c; s = d.s } };

    ghost invariant = { λ d. IsDec (record { c = d.c; s = d.s }) };

    ghost inverse = { λ d. record { c = d.c; s = d.s } };
}

/// No number that is read has this size or more: ten to the power 30.
pub(crate) const LIMIT: u128 = 1_000_000_000_000_000_000_000_000_000_000;

/// No number that is read has more places.
const MOST_PLACES: u128 = 30;

// The number of this size, below zero where it is negative.
fn with_sign(negative: bool, size: u128) -> i128
    requires { size < 2 ^ 127 }
    ensures { result ≡ signed negative size }
{
    let n = size as i128;
    if negative { -n } else { n }
}

impl Dec {
    /// The number of this sign and size, where it is within the bounds of a number that is read.
    pub(crate) fn within(negative: bool, size: u128, places: u128) -> Result<Dec, NotDec>
        requires short { IsShort size places }
        ensures { result_ok result ≡ within_bounds negative (size, places) }
    {
        if size < LIMIT && places <= MOST_PLACES {
            let c = with_sign(negative, size);
            let s = places as u8;
            Ok(Dec { c, s })
        } else {
            Err(NotDec)
        }
    }

    /// A whole number.
    pub fn whole(n: u16) -> Dec
        ensures { result ≡ whole_decimal (pos n) }
    {
        Dec::made(false, u128::from(n), 0)
    }

    /// The number of this sign and size, where the places are as few as they can be.
    fn made(negative: bool, size: u128, s: u8) -> Dec
        requires size { size < computed_limit }
        requires places { s ≤ most_computed_places }
        requires short { IsShort size s }
        ensures { result ≡ record { c = signed negative size; s = s } }
    {
        let c = with_sign(negative, size);
        Dec { c, s }
    }

    /// The number of this sign and size.
    pub(crate) fn shortened(negative: bool, size: u128, places: u8) -> Dec
        requires size { size < computed_limit }
        requires places { places ≤ most_computed_places }
        ensures { result ≡ decimal_of negative size places }
    {
        let mut left = size;
        let mut s = places;
        while s > 0 && left % 10 == 0 {
            left /= 10;
            s -= 1;
        }
        Dec::made(negative, left, s)
    }

    /// `c` and `s`.
    pub(crate) fn parts(&self) -> (i128, u8)
        ensures c { result.0 ≡ self.now.c }
        ensures s { result.1 ≡ self.now.s }
        ensures is { IsDec self.now }
    {
        (self.c, self.s)
    }
}
