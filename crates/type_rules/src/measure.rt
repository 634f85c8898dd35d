//! Numbers with units.

ghost use Rattle.std.specs.Prelude.{Ok, IfOk, IfErr};
ghost use Rattle.type_rules.specs.Answer.{IsFound, IsBreak, seen};
ghost use Rattle.type_rules.specs.Value.{measure_by, measure_by_object};

use crate::fault::{ValueFault, ValueRule};
use crate::forms::members_of;
use crate::legacy::{legacy_text, measure_of_text};
use crate::parts::part_under;
use crate::words::word_under;
use dec_fix::Dec;
use json_span::Plain;
use std::alloc::Global;

// A number and its unit, of an object with `value` and `unit`.
fn measure_of_object<'s, U: Copy>(
    alloc: Global,
    rule: ValueRule,
    units: &[(&str, U)],
    plain: &Plain<'s>,
) -> Result<(Dec, U), ValueFault<'s>>
    ensures ok { IfOk result (IsFound (seen (measure_by_object rule units.now) plain.now)) }
    ensures broken { IfErr result (IsBreak (seen (measure_by_object rule units.now) plain.now)) }
{
    let members = members_of(alloc, plain)?;
    let value = part_under::<Dec>(alloc, members, "value", false)?;
    let unit = word_under(alloc, rule, units, members, "unit")?;
    Ok((value, unit))
}

/// The number and the unit that the value is: an object of a number `value` and a text `unit` out
/// of the table, checked in this order. Another text breaks the rule. Where `legacy` is true, a text
/// is read as a number that a unit of the table follows directly.
pub(crate) fn measure_of<'s, U: Copy>(
    alloc: Global,
    rule: ValueRule,
    units: &[(&str, U)],
    plain: &Plain<'s>,
    legacy: bool,
) -> Result<(Dec, U), ValueFault<'s>>
    ensures ok { IfOk result (IsFound (seen (measure_by legacy rule units.now) plain.now)) }
    ensures broken { IfErr result (IsBreak (seen (measure_by legacy rule units.now) plain.now)) }
{
    match legacy_text(plain, legacy) {
        Some(text) => measure_of_text(alloc, units, text),
        None => measure_of_object(alloc, rule, units, plain),
    }
}
