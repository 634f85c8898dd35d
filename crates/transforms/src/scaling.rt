//! Lengths in pixels.

ghost use Rattle.std.specs.Prelude.{◌≡◌, ◌*ℤ◌, pos, true, false};
ghost use Rattle.dec_fix.specs.Decimal.{IsExact, IsSameNumber};
ghost use Rattle.transforms.specs.Scaling.{scaled};

use dec_fix::Dec;

/// The length in pixels: a value in rem times the pixels of a rem, another value as it is.
pub fn scale_rem(value: &Dec, is_rem: bool, base: u8) -> Dec
    requires { IsExact value.now }
    ensures is { result ≡ scaled value.now is_rem base }
    ensures pixels { is_rem ≡ false → result ≡ value.now }
    ensures rem { is_rem ≡ true
        → IsSameNumber result (record { c = value.now.c *ℤ pos base; s = value.now.s }) }
{
    if is_rem {
        value.times_whole(base)
    } else {
        *value
    }
}
