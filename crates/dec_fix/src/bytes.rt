//! Parts of one as bytes, and bytes as parts of one.

ghost use Rattle.std.specs.Prelude.{◌≡◌, ◌+◌, ◌*◌, ◌^◌, ◌<◌, ◌≤◌, pos, unsigned_abs};
ghost use Rattle.dec_fix.specs.Decimal.{IsExact, IsSameNumber};
ghost use Rattle.dec_fix.specs.Arithmetic.{IsFromZeroToOne, byte_of, byte_decimal, ten_thousandths};

use crate::arithmetic::ten_to;
use crate::decimal::Dec;

impl Dec {
    /// The greatest whole number not above `255 v + 1/2`, for this number `v` from 0 to 1.
    pub fn to_byte(&self) -> u8
        requires { IsFromZeroToOne self.now }
        ensures is { result ≡ byte_of self.now }
        ensures reached { 2 * result * 10 ^ self.now.s
            ≤ 510 * unsigned_abs self.now.c + 10 ^ self.now.s }
        ensures greatest { 510 * unsigned_abs self.now.c + 10 ^ self.now.s
            < 2 * (result + 1) * 10 ^ self.now.s }
    {
        let (c, s) = self.parts();
        let unit = ten_to(s);
        ((510 * c.unsigned_abs() + unit) / (2 * unit)) as u8
    }

    /// The number `c / 10000`, with `c` the greatest whole number not above `10000 b / 255 + 1/2`. Its `to_byte` is
    /// `b` again.
    pub fn from_byte(b: u8) -> Dec
        ensures is { result ≡ byte_decimal b }
        ensures rounded { IsSameNumber result (record { c = pos (ten_thousandths b); s = 4 }) }
        ensures again { byte_of result ≡ b }
        ensures part { IsFromZeroToOne result }
        ensures exact { IsExact result }
    {
        Dec::shortened(false, (20000 * u128::from(b) + 255) / 510, 4)
    }
}
