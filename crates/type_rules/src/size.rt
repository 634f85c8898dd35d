//! Lengths.

ghost use Rattle.std.specs.Prelude.{◌≡◌};
ghost use Rattle.type_rules.specs.Value.{size_in};
ghost use Rattle.type_rules.specs.Words.{size_unit_name};

use crate::fault::{ValueFault, ValueRule};
use crate::measure::measure_of;
use crate::parts::Part;
use dec_fix::Dec;
use json_span::Plain;
use std::alloc::Global;

/// The unit of a length (Format Module 2025.10, dimension).
#[derive(Clone, Copy, Debug, PartialEq, Eq)]
pub enum SizeUnit {
    Px,
    Rem,
}

/// A length.
#[derive(Clone, Copy, Debug, PartialEq, Eq)]
pub struct Size {
    pub value: Dec,
    pub unit: SizeUnit,
}

const UNITS: [(&str, SizeUnit); 2] = [("px", SizeUnit::Px), ("rem", SizeUnit::Rem)];

impl SizeUnit {
    /// The unit as `unit` spells it.
    pub fn name(self) -> &'static str
        ensures { result.now ≡ size_unit_name self }
    {
        match self {
            SizeUnit::Px => "px",
            SizeUnit::Rem => "rem",
        }
    }
}

/// An object of a number `value` and a word `unit`, `px` or `rem`, checked in this order. Where
/// `legacy` is true, also a text, as `16px`.
impl<'s> Part<'s> for Size {
    type Typed = Size;

    ghost part_in = { size_in };

    fn check(alloc: Global, plain: &Plain<'s>, legacy: bool) -> Result<Size, ValueFault<'s>> {
        let (value, unit) = measure_of(alloc, ValueRule::DimensionUnit, &UNITS, plain, legacy)?;
        Ok(Size { value, unit })
    }
}
