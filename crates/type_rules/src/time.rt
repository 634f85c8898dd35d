//! Times.

ghost use Rattle.std.specs.Prelude.{◌≡◌};
ghost use Rattle.type_rules.specs.Value.{time_in};
ghost use Rattle.type_rules.specs.Words.{time_unit_name};

use crate::fault::{ValueFault, ValueRule};
use crate::measure::measure_of;
use crate::parts::Part;
use dec_fix::Dec;
use json_span::Plain;
use std::alloc::Global;

/// The unit of a duration (Format Module 2025.10, duration).
#[derive(Clone, Copy, Debug, PartialEq, Eq)]
pub enum TimeUnit {
    Ms,
    S,
}

/// A duration.
#[derive(Clone, Copy, Debug, PartialEq, Eq)]
pub struct Time {
    pub value: Dec,
    pub unit: TimeUnit,
}

const UNITS: [(&str, TimeUnit); 2] = [("ms", TimeUnit::Ms), ("s", TimeUnit::S)];

impl TimeUnit {
    /// The unit as `unit` spells it.
    pub fn name(self) -> &'static str
        ensures { result.now ≡ time_unit_name self }
    {
        match self {
            TimeUnit::Ms => "ms",
            TimeUnit::S => "s",
        }
    }
}

/// An object of a number `value` and a word `unit`, `ms` or `s`, checked in this order. Where
/// `legacy` is true, also a text, as `200ms`.
impl<'s> Part<'s> for Time {
    type Typed = Time;

    ghost part_in = { time_in };

    fn check(alloc: Global, plain: &Plain<'s>, legacy: bool) -> Result<Time, ValueFault<'s>> {
        let (value, unit) = measure_of(alloc, ValueRule::DurationUnit, &UNITS, plain, legacy)?;
        Ok(Time { value, unit })
    }
}
