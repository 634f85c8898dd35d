//! Cubic Bézier curves.

ghost use Rattle.std.specs.Prelude.{◌≡◌, Ok, IfOk, IfErr};
ghost use Rattle.json_span.specs.PlainView.{plain_view};
ghost use Rattle.type_rules.specs.Answer.{IsFound, IsBreak};
ghost use Rattle.type_rules.specs.Value.{four_numbers, share_at, ranged_curve, curve_in};

use crate::fault::{ValueFault, ValueRule, at_item};
use crate::forms::items_of_length;
use crate::parts::{Part, part_at};
use crate::range::{Range, ranged};
use dec_fix::Dec;
use json_span::Plain;
use std::alloc::Global;

/// A cubic Bézier curve from (0, 0) to (1, 1) by its two control points. `x1` and `x2` are within 0
/// to 1.
#[derive(Clone, Copy, Debug, PartialEq, Eq)]
pub struct Curve {
    pub x1: Dec,
    pub y1: Dec,
    pub x2: Dec,
    pub y2: Dec,
}

fn four_numbers<'s>(alloc: Global, plain: &Plain<'s>) -> Result<Curve, ValueFault<'s>>
    ensures ok { IfOk result (λ curve. four_numbers (plain_view plain.now) ≡ Ok curve) }
    ensures broken { IfErr result (IsBreak (four_numbers (plain_view plain.now))) }
{
    let items = items_of_length(alloc, 4, plain)?;
    let x1 = part_at::<Dec>(alloc, items, 0, false)?;
    let y1 = part_at::<Dec>(alloc, items, 1, false)?;
    let x2 = part_at::<Dec>(alloc, items, 2, false)?;
    let y2 = part_at::<Dec>(alloc, items, 3, false)?;
    Ok(Curve { x1, y1, x2, y2 })
}

// The i-th number, where it lies within 0 to 1.
fn share_at<'s>(alloc: Global, i: usize, number: Dec) -> Result<Dec, ValueFault<'s>>
    ensures ok { IfOk result (IsFound (share_at i number)) }
    ensures broken { IfErr result (IsBreak (share_at i number)) }
{
    at_item(
        alloc,
        i,
        ranged(alloc, ValueRule::BezierRange, Range::SHARE, number),
    )
}

fn ranged_curve<'s>(alloc: Global, curve: Curve) -> Result<Curve, ValueFault<'s>>
    ensures ok { IfOk result (λ c. ranged_curve curve ≡ Ok c) }
    ensures broken { IfErr result (IsBreak (ranged_curve curve)) }
{
    let x1 = share_at(alloc, 0, curve.x1)?;
    let x2 = share_at(alloc, 2, curve.x2)?;
    Ok(Curve {
        x1,
        y1: curve.y1,
        x2,
        y2: curve.y2,
    })
}

/// A list of exactly four numbers, of which, after the forms of all four, the first and the third
/// lie within 0 to 1.
impl<'s> Part<'s> for Curve {
    type Typed = Curve;

    ghost part_in = { λ _. curve_in };

    fn check(alloc: Global, plain: &Plain<'s>, _legacy: bool) -> Result<Curve, ValueFault<'s>> {
        let curve = four_numbers(alloc, plain)?;
        ranged_curve(alloc, curve)
    }
}
