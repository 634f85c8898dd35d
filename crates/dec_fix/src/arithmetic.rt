//! Products, quotients, the order and whole numbers.

ghost use Rattle.std.specs.Prelude.{◌≡◌, ◌+◌, ◌*ℤ◌, ◌^◌, ◌≤◌, pos, ℤ, FitsSigned, IfSome};
ghost use Rattle.std.specs.Prelude.{IfNone};
ghost use Rattle.dec_fix.specs.Decimal.{IsExact, IsSameNumber, computed_limit};
ghost use Rattle.dec_fix.specs.Decimal.{most_computed_places};
ghost use Rattle.dec_fix.specs.Arithmetic.{times, over_1000, order_with, whole_decimal, whole_of};
ghost use Rattle.std.specs.Int.{w32};

use crate::decimal::Dec;
use std::cmp::Ordering;

/// Ten to the power `k`.
pub(crate) fn ten_to(k: u8) -> u128
    requires { k ≤ most_computed_places }
    ensures power { result ≡ 10 ^ k }
    ensures bound { result ≤ computed_limit }
{
    10u128.pow(u32::from(k))
}

impl Dec {
    /// The order of this number and a whole number.
    pub fn cmp_whole(&self, n: u16) -> Ordering
        ensures { result ≡ order_with self.now n }
    {
        let (c, s) = self.parts();
        if c < 0 {
            return Ordering::Less;
        }
        let other = u128::from(n) * ten_to(s);
        c.unsigned_abs().cmp(&other)
    }

    /// This number times `n`.
    pub fn times_whole(&self, n: u8) -> Dec
        requires { IsExact self.now }
        ensures is { result ≡ times self.now n }
        ensures exact { IsSameNumber result (record { c = self.now.c *ℤ pos n; s = self.now.s }) }
    {
        let (c, s) = self.parts();
        Dec::shortened(c < 0, c.unsigned_abs() * u128::from(n), s)
    }

    /// This number times 100, as for a percentage.
    pub fn times_100(&self) -> Dec
        requires { IsExact self.now }
        ensures is { result ≡ times self.now 100 }
        ensures exact { IsSameNumber result (record { c = self.now.c *ℤ pos 100; s = self.now.s }) }
    {
        let (c, s) = self.parts();
        Dec::shortened(c < 0, c.unsigned_abs() * 100, s)
    }

    /// This number times 1000, as from seconds to milliseconds.
    pub fn times_1000(&self) -> Dec
        requires { IsExact self.now }
        ensures is { result ≡ times self.now 1000 }
        ensures exact { IsSameNumber result
            (record { c = self.now.c *ℤ pos 1000; s = self.now.s }) }
    {
        let (c, s) = self.parts();
        Dec::shortened(c < 0, c.unsigned_abs() * 1000, s)
    }

    /// This number over 1000, as from milliseconds to seconds.
    pub fn over_1000(&self) -> Dec
        requires { IsExact self.now }
        ensures is { result ≡ over_1000 self.now }
        ensures exact { IsSameNumber result (record { c = self.now.c; s = self.now.s + 3 }) }
    {
        let (c, s) = self.parts();
        Dec::shortened(c < 0, c.unsigned_abs(), s + 3)
    }

    /// This number as an `i32`, or `None` exactly where it is no whole number of that range.
    pub fn whole_i32(&self) -> Option<i32>
        ensures is { result ≡ whole_of self.now }
        ensures found { IfSome result (λ n. self.now ≡ whole_decimal n) }
        ensures none { IfNone result ((n : ℤ) → FitsSigned w32 n
            → ¬ IsSameNumber self.now (whole_decimal n)) }
    {
        let (c, s) = self.parts();
        if s != 0 {
            return None;
        }
        match i32::try_from(c) {
            Ok(n) => Some(n),
            Err(_) => None,
        }
    }
}
