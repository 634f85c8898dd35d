//! The ranges of numbers.

ghost use Rattle.std.specs.Prelude.{◌≡◌, Ok, IfOk, IfErr};
ghost use Rattle.type_rules.specs.Answer.{IsBreak};
ghost use Rattle.type_rules.specs.Ranges.{holds, ranged};

use crate::fault::{ValueFault, ValueRule, broken};
use dec_fix::Dec;
use std::alloc::Global;
use std::fmt;

/// A range of numbers, both ends included.
#[derive(Clone, Copy, PartialEq, Eq)]
pub enum Range {
    Free,
    AtLeast(u16),
    Within(u16, u16),
}

impl fmt::Debug for Range {
    fn fmt<W: fmt::Write>(&self, f: &mut fmt::Formatter<W>) -> fmt::Result {
        f.write_str("Range")
    }
}

impl Range {
    /// From 0 to 1.
    pub const SHARE: Range = Range::Within(0, 1);
    /// From 0 to 100.
    pub const PERCENT: Range = Range::Within(0, 100);
    /// An angle in degrees.
    pub const HUE: Range = Range::Within(0, 360);

    // Whether the number lies in the range, its ends included.
    fn holds(self, number: &Dec) -> bool
        ensures { result ≡ holds self number.now }
    {
        match self {
            Range::Free => true,
            Range::AtLeast(low) => number.cmp_whole(low).is_ge(),
            Range::Within(low, high) => {
                number.cmp_whole(low).is_ge() && number.cmp_whole(high).is_le()
            }
        }
    }
}

/// The number, where it lies in the range; else the rule is broken.
#[tactic(auto, unfolding(crate::specs::Ranges::ranged))]
pub fn ranged<'s>(
    alloc: Global,
    rule: ValueRule,
    range: Range,
    number: Dec,
) -> Result<Dec, ValueFault<'s>>
    ensures ok { IfOk result (λ n. ranged rule range number ≡ Ok n) }
    ensures broken { IfErr result (IsBreak (ranged rule range number)) }
{
    if !range.holds(&number) {
        return Err(broken(alloc, rule));
    }
    Ok(number)
}
