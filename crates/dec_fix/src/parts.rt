//! The parts of a JSON number's spelling.

ghost use Rattle.std.specs.Prelude.{IsTrue};
ghost use Rattle.std.specs.Str.{all_ascii_digits};

/// The signs of a spelling, and its digits as slices of it. A part that is not there is empty.
#[derive(Clone, Copy)]
pub(crate) struct Parts<'t> {
    pub negative: bool,
    pub whole: &'t [u8],
    pub fraction: &'t [u8],
    pub exponent_negative: bool,
    pub exponent: &'t [u8],
    ghost whole_digits: { IsTrue (all_ascii_digits whole.now) },
    ghost fraction_digits: { IsTrue (all_ascii_digits fraction.now) },
    ghost exponent_digits: { IsTrue (all_ascii_digits exponent.now) },
}
