//! Lengths, times and colours that are written as texts, as `16px`, `200ms` and `#3366cc`.

ghost use Rattle.std.specs.Prelude.{◌≡◌, ◌+◌, ◌<◌, ◌≤◌, true, Ok, IfOk, IfErr, length};
ghost use Rattle.std.specs.Prelude.{option_map};
ghost use Rattle.std.specs.Char.{digit_value, is_ascii_hexdigit};
ghost use Rattle.std.specs.List.{list_all};
ghost use Rattle.json_span.specs.PlainView.{plain_view};
ghost use Rattle.type_rules.specs.Answer.{IsFound, IsBreak};
ghost use Rattle.type_rules.specs.Legacy.{legacy_text_in, number_before, split_measure};
ghost use Rattle.type_rules.specs.Legacy.{measure_by_text, byte_at, alpha_of, color_of, legacy_color};
ghost use Rattle.type_rules.specs.Words.{rows_of};

use crate::color::{Color, are_digits, in_lower_case};
use crate::fault::{ValueFault, ValueRule, broken};
use crate::space::Space;
use dec_fix::{Dec, NotDec, is_number};
use json_span::Plain;
use std::alloc::Global;

/// The text that the value is, where texts may stand for lengths, times and colours.
pub(crate) fn legacy_text<'a>(plain: &'a Plain<'_>, legacy: bool) -> Option<&'a str>
    ensures { option_map (λ text. text.now) result
        ≡ legacy_text_in legacy (plain_view plain.entry.now) }
{
    if !legacy {
        return None;
    }
    let text = plain.as_text()?;
    Some(text.as_str())
}

// The number before this unit, where the text is a JSON number that is directly followed by it.
fn number_before<'t>(text: &'t str, unit: &str) -> Option<&'t str>
    ensures { option_map (λ number. number.now) result ≡ number_before unit.now text.now }
{
    let number = text.strip_suffix(unit)?;
    if !is_number(number) {
        return None;
    }
    Some(number)
}

// The number and the unit of the table that directly follows it.
fn split_measure<'t, U: Copy>(units: &[(&str, U)], text: &'t str) -> Option<(&'t str, U)>
    ensures { option_map (λ m. (m.0.now, m.1)) result
        ≡ split_measure (rows_of units.now) text.now }
{
    for row in units {
        if let Some(number) = number_before(text, row.0) {
            return Some((number, row.1));
        }
    }
    None
}

/// The number and the unit that the text is: a JSON number that is directly followed by a unit of the table. A number
/// that is not within the bounds of those that are read breaks the rule on wide numbers, and every other text that on
/// texts.
#[tactic(auto, unfolding(crate::specs::Legacy::measure_of_text))]
pub(crate) fn measure_of_text<'s, U: Copy>(
    alloc: Global,
    units: &[(&str, U)],
    text: &str,
) -> Result<(Dec, U), ValueFault<'s>>
    ensures ok { IfOk result (IsFound (measure_by_text units.now text.now)) }
    ensures broken { IfErr result (IsBreak (measure_by_text units.now text.now)) }
{
    let Some((number, unit)) = split_measure(units, text) else {
        return Err(broken(alloc, ValueRule::LegacyText));
    };
    match Dec::read(number) {
        Ok(value) => Ok((value, unit)),
        Err(NotDec) => Err(broken(alloc, ValueRule::NumberWide)),
    }
}

// The value of a hexadecimal digit.
fn hex_value(digit: u8) -> u8
    requires { is_ascii_hexdigit digit ≡ true }
    ensures is { result ≡ digit_value digit }
    ensures small { result < 16 }
{
    match digit {
        b'0'..=b'9' => digit - b'0',
        b'A'..=b'F' => digit - b'A' + 10,
        b'a'..=b'f' => digit - b'a' + 10,
        _ => unreachable!(),
    }
}

// The number of the two hexadecimal digits from this place on.
fn byte_at(digits: &[u8], i: usize) -> u8
    requires there { i + 2 ≤ length digits.now }
    requires hexadecimal { list_all is_ascii_hexdigit digits.now ≡ true }
    ensures { result ≡ byte_at i digits.now }
{
    let high = hex_value(digits[i]);
    let low = hex_value(digits[i + 1]);
    high * 16 + low
}

// The alpha of a colour: that of the fourth byte, or 1.
fn alpha_of(digits: &[u8]) -> Dec
    requires hexadecimal { list_all is_ascii_hexdigit digits.now ≡ true }
    ensures { result ≡ alpha_of digits.now }
{
    if digits.len() != 8 {
        return Dec::whole(1);
    }
    Dec::from_byte(byte_at(digits, 6))
}

// The colour of six or eight hexadecimal digits.
fn color_of(digits: &[u8]) -> Color
    requires six { 6 ≤ length digits.now }
    requires hexadecimal { list_all is_ascii_hexdigit digits.now ≡ true }
    ensures { result ≡ color_of digits.now }
{
    let (six, _) = digits.split_at(6);
    Color {
        space: Space::Srgb,
        first: Some(Dec::from_byte(byte_at(digits, 0))),
        second: Some(Dec::from_byte(byte_at(digits, 2))),
        third: Some(Dec::from_byte(byte_at(digits, 4))),
        alpha: alpha_of(digits),
        hex: Some(in_lower_case(six)),
    }
}

/// The colour that the text is: `#` and six or eight hexadecimal digits of either case, two for each of red, green, blue
/// and the alpha, as parts of 255.
pub(crate) fn legacy_color(text: &str) -> Option<Color>
    ensures { result ≡ legacy_color text.now }
{
    let (mark, digits) = text.as_bytes().split_first()?;
    if *mark != b'#' {
        return None;
    }
    if digits.len() != 6 && digits.len() != 8 {
        return None;
    }
    if !are_digits(digits) {
        return None;
    }
    Some(color_of(digits))
}
