//! Gradients.

ghost use Rattle.std.specs.Prelude.{◌≡◌, Ok, IfOk, IfErr};
ghost use Rattle.json_span.specs.PlainView.{plain_view};
ghost use Rattle.type_rules.specs.Answer.{IsBreak};
ghost use Rattle.composite_rules.specs.Value.{clamped, stop_in, gradient_in};

use dec_fix::Dec;
use json_span::Plain;
use std::alloc::Global;
use std::fmt;
use tk_io::Sequence;
use type_rules::{Color, Part, ValueFault, members_of, part_under, some_of};

/// A colour at a place of a gradient (Format Module 2025.10, gradient).
#[derive(Clone, Copy, PartialEq, Eq)]
pub struct ColorStop {
    pub color: Color,
    /// Within 0 to 1.
    pub position: Dec,
}

impl fmt::Debug for ColorStop {
    fn fmt<W: fmt::Write>(&self, f: &mut fmt::Formatter<W>) -> fmt::Result {
        f.write_str("ColorStop")
    }
}

/// One or more stops.
pub type Stops = Sequence<ColorStop>;

// The nearest number from 0 to 1.
fn clamped(position: Dec) -> Dec
    ensures { result ≡ clamped position }
{
    if position.cmp_whole(0).is_lt() {
        return Dec::whole(0);
    }
    if position.cmp_whole(1).is_gt() {
        return Dec::whole(1);
    }
    position
}

/// An object of a `color` and a number `position`, checked in this order. A position outside of 0
/// to 1 is the nearer end.
impl<'s> Part<'s> for ColorStop {
    type Typed = ColorStop;

    ghost part_in = { stop_in };

    fn check(alloc: Global, plain: &Plain<'s>, legacy: bool) -> Result<ColorStop, ValueFault<'s>> {
        let members = members_of(alloc, plain)?;
        let color = part_under::<Color>(alloc, members, "color", legacy)?;
        let position = part_under::<Dec>(alloc, members, "position", legacy)?;
        Ok(ColorStop {
            color,
            position: clamped(position),
        })
    }
}

/// The stops of the gradient that the value is: a list of one or more.
pub(crate) fn stops_of<'s>(
    alloc: Global,
    plain: &Plain<'s>,
    legacy: bool,
) -> Result<Stops, ValueFault<'s>>
    ensures ok { IfOk result (λ stops. gradient_in legacy (plain_view plain.now) ≡ Ok stops) }
    ensures broken { IfErr result (IsBreak (gradient_in legacy (plain_view plain.now))) }
{
    some_of::<ColorStop>(alloc, plain, legacy)
}
