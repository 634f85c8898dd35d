//! Reading a JSON number exactly.

ghost use Rattle.std.specs.Prelude.{◌≡◌, ◌*◌, ◌^◌, ◌<◌, ◌≤◌, ℕ, true, false, min, option_map};
ghost use Rattle.std.specs.Prelude.{IsTrue, IfOk, IfSome, OnErr};
ghost use Rattle.std.specs.Result.{result_ok};
ghost use Rattle.std.specs.Str.{all_ascii_digits};
ghost use Rattle.dec_fix.specs.Decimal.{Decimal, IsExact, shortest, size_limit};
ghost use Rattle.dec_fix.specs.Spelling.{IsNumberText, Spells};
ghost use Rattle.dec_fix.specs.Reading.{digits_front, digits_rest, sign_at, is_whole, fraction_at};
ghost use Rattle.dec_fix.specs.Reading.{exponent_sign_at, exponent_at, split_of, within_bounds};
ghost use Rattle.dec_fix.specs.Reading.{is_number_text, size_of, places_of, number_of};
ghost use Rattle.dec_fix.specs.inner.Significand.{IsLast};
ghost use Rattle.dec_fix.specs.inner.View.{split_view};

use crate::decimal::{Dec, LIMIT, NotDec};
use crate::parts::Parts;
use crate::significand::{Significand, exponent, scaled, with_digits};

impl Dec {
    /// The number that the text equals, of any length and with any exponent: a JSON number (RFC 8259 section 6) with
    /// nothing around it. `NotDec` exactly where the text is no JSON number, or where no number with `|c| < 10^30` and
    /// `s <= 30` equals it.
    pub fn read(text: &str) -> Result<Dec, NotDec>
        ensures is { result_ok result ≡ number_of text.now }
        ensures equal { IfOk result (Spells text.now) }
        ensures bounds { IfOk result IsExact }
        ensures refused { OnErr result ((d : Decimal) → IsExact d → ¬ Spells text.now d) }
    {
        match read_parts(text.as_bytes()) {
            Some(parts) => from_parts(parts),
            None => Err(NotDec),
        }
    }
}

/// Whether the text is a JSON number (RFC 8259 section 6) with nothing around it, of any length and with any exponent.
pub fn is_number(text: &str) -> bool
    ensures is { result ≡ is_number_text text.now }
    ensures number { result ≡ true → IsNumberText text.now }
    ensures other { result ≡ false → ¬ IsNumberText text.now }
{
    read_parts(text.as_bytes()).is_some()
}

/// The number of these parts, where it is within the bounds.
fn from_parts(parts: Parts<'_>) -> Result<Dec, NotDec>
    ensures { result_ok result ≡ within_bounds parts.entry.negative
        (shortest (size_of (split_view parts.entry)) (places_of (split_view parts.entry))) }
{
    let none = Significand { size: 0, zeros: 0 };
    let kept = with_digits(with_digits(none, parts.whole), parts.fraction);
    let power = exponent(parts.exponent);
    let places = parts.fraction.len() as u128;
    if parts.exponent_negative {
        placed(parts.negative, kept.size, kept.zeros, places + power)
    } else {
        placed(parts.negative, kept.size, kept.zeros + power, places)
    }
}

/// The number `kept * 10^up / 10^down`, where it is within the bounds.
fn placed(negative: bool, kept: u128, up: u128, down: u128) -> Result<Dec, NotDec>
    requires limit { kept ≤ size_limit }
    requires last { kept < size_limit → IsLast kept }
    ensures { (size : ℕ) → kept ≡ min size size_limit → IsLast size
        → result_ok result ≡ within_bounds negative (shortest (size * 10 ^ up) down) }
{
    if kept >= LIMIT {
        Err(NotDec)
    } else if kept == 0 {
        Dec::within(negative, 0, 0)
    } else if down <= up {
        let size = scaled(kept, up - down);
        Dec::within(negative, size, 0)
    } else {
        Dec::within(negative, kept, down - up)
    }
}

/// The parts of a JSON number, or `None` where the text is no JSON number.
fn read_parts(text: &[u8]) -> Option<Parts<'_>>
    ensures { option_map split_view result ≡ split_of text.now }
{
    let (negative, rest) = split_sign(text);
    let (whole, rest) = split_digits(rest);
    if !is_whole(whole) {
        return None;
    }
    let (fraction, rest) = split_fraction(rest)?;
    let (exponent_negative, exponent) = read_exponent(rest)?;
    Some(Parts {
        negative,
        whole,
        fraction,
        exponent_negative,
        exponent,
    })
}

/// Whether a `-` stands at the start, and what follows.
fn split_sign(text: &[u8]) -> (bool, &[u8])
    ensures sign { result.0 ≡ (sign_at text.now).0 }
    ensures rest { result.1.now ≡ (sign_at text.now).1 }
{
    match text.split_first() {
        Some((first, rest)) => {
            if *first == b'-' {
                (true, rest)
            } else {
                (false, text)
            }
        }
        None => (false, text),
    }
}

/// The digits at the start, and what follows them.
fn split_digits(text: &[u8]) -> (&[u8], &[u8])
    ensures are { IsTrue (all_ascii_digits result.0.now) }
    ensures digits { result.0.now ≡ digits_front text.now }
    ensures rest { result.1.now ≡ digits_rest text.now }
{
    for (i, c) in text.iter().enumerate() {
        if !c.is_ascii_digit() {
            return text.split_at(i);
        }
    }
    text.split_at(text.len())
}

/// Whether there are digits, without a leading zero unless it stands alone.
fn is_whole(digits: &[u8]) -> bool
    ensures { result ≡ is_whole digits.now }
{
    match digits {
        [] => false,
        [_] => true,
        [first, _, ..] => *first != b'0',
    }
}

/// The digits after a point, none where there is no point, and what follows. `None` where no digit
/// follows a point.
fn split_fraction(text: &[u8]) -> Option<(&[u8], &[u8])>
    ensures parts { option_map (λ p. (p.0.now, p.1.now)) result ≡ fraction_at text.now }
    ensures are { IfSome result (λ p. IsTrue (all_ascii_digits p.0.now)) }
{
    let Some((first, behind)) = text.split_first() else {
        return Some((&text[..0], text));
    };
    if *first != b'.' {
        return Some((&text[..0], text));
    }
    let (digits, rest) = split_digits(behind);
    if digits.is_empty() {
        return None;
    }
    Some((digits, rest))
}

/// Whether the exponent is below 0, and its digits, none where there is no exponent. `None` where the text is neither
/// empty nor an exponent.
fn read_exponent(text: &[u8]) -> Option<(bool, &[u8])>
    ensures parts { option_map (λ p. (p.0, p.1.now)) result ≡ exponent_at text.now }
    ensures are { IfSome result (λ p. IsTrue (all_ascii_digits p.1.now)) }
{
    let Some((first, behind)) = text.split_first() else {
        return Some((false, text));
    };
    if *first != b'e' && *first != b'E' {
        return None;
    }
    let (negative, unsigned) = split_exponent_sign(behind);
    let (digits, rest) = split_digits(unsigned);
    if digits.is_empty() {
        return None;
    }
    if !rest.is_empty() {
        return None;
    }
    Some((negative, digits))
}

/// Whether the sign at the start is `-`, and what follows the sign.
fn split_exponent_sign(text: &[u8]) -> (bool, &[u8])
    ensures sign { result.0 ≡ (exponent_sign_at text.now).0 }
    ensures rest { result.1.now ≡ (exponent_sign_at text.now).1 }
{
    let Some((first, rest)) = text.split_first() else {
        return (false, text);
    };
    match *first {
        b'-' => (true, rest),
        b'+' => (false, rest),
        _ => (false, text),
    }
}
