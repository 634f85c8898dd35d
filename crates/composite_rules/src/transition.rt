//! Transitions.

ghost use Rattle.composite_rules.specs.Value.{transition_in};

use json_span::Plain;
use std::alloc::Global;
use std::fmt;
use type_rules::{Curve, Part, Time, ValueFault, members_of, part_under};

/// A transition between two states (Format Module 2025.10, transition).
#[derive(Clone, Copy, PartialEq, Eq)]
pub struct Transition {
    pub duration: Time,
    pub delay: Time,
    pub timing: Curve,
}

impl fmt::Debug for Transition {
    fn fmt<W: fmt::Write>(&self, f: &mut fmt::Formatter<W>) -> fmt::Result {
        f.write_str("Transition")
    }
}

/// An object of a `duration`, a duration `delay` and a curve `timingFunction`, checked in this
/// order.
impl<'s> Part<'s> for Transition {
    type Typed = Transition;

    ghost part_in = { transition_in };

    fn check(alloc: Global, plain: &Plain<'s>, legacy: bool) -> Result<Transition, ValueFault<'s>> {
        let members = members_of(alloc, plain)?;
        let duration = part_under::<Time>(alloc, members, "duration", legacy)?;
        let delay = part_under::<Time>(alloc, members, "delay", legacy)?;
        let timing = part_under::<Curve>(alloc, members, "timingFunction", legacy)?;
        Ok(Transition {
            duration,
            delay,
            timing,
        })
    }
}
