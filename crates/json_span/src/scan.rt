//! The ends of blanks, numbers and words.

ghost use Rattle.std.specs.Prelude.{◌≤◌, length};
ghost use Rattle.std.specs.Str.{IsCharBoundary};
ghost use Rattle.grammar.specs.Grammar.{many, named};
ghost use Rattle.json_span.specs.Grammar.{ws, digit, digits, int, frac, exp, optional, one};
ghost use Rattle.json_span.specs.Grammar.{either_byte, number, unescaped};
ghost use Rattle.json_span.specs.inner.Scan.{ReadsTo, Scans};

use crate::bytes::{Class, has};
use lane_scan::{first_special, skip_blank};

/// The end of the blanks.
pub(crate) fn blanks_end(text: &str, at: usize) -> usize
    requires { at ≤ length text.now }
    ensures { ReadsTo ws text.now at result }
{
    skip_blank(text.as_bytes(), at)
}

/// The end of the characters of a string that stand for themselves.
pub(crate) fn plain_end(text: &str, at: usize) -> usize
    requires { at ≤ length text.now }
    ensures plain { ReadsTo (many unescaped) text.now at result }
    ensures boundary { IsCharBoundary text.now result }
{
    first_special(text.as_bytes(), at)
}

/// The end of a number (RFC 8259 section 6).
pub(crate) fn number_end(text: &str, at: usize) -> Result<usize, usize>
    requires { at ≤ length text.now }
    ensures { Scans (named number) text.now at result }
{
    let whole = minus_end(text, at);
    let fraction = whole_end(text, whole)?;
    let exponent = fraction_end(text, fraction)?;
    exponent_end(text, exponent)
}

// Where a number goes on behind the `-` that may stand here.
fn minus_end(text: &str, at: usize) -> usize
    requires { at ≤ length text.now }
    ensures { ReadsTo (optional (one 45)) text.now at result }
{
    if has(text, at, Class::One(b'-')) {
        at + 1
    } else {
        at
    }
}

// 0, or digits without a leading zero.
fn whole_end(text: &str, at: usize) -> Result<usize, usize>
    requires { at ≤ length text.now }
    ensures { Scans int text.now at result }
{
    if has(text, at, Class::One(b'0')) {
        Ok(at + 1)
    } else if has(text, at, Class::FirstDigit) {
        Ok(digits_end(text, at + 1))
    } else {
        Err(at)
    }
}

// Where a number goes on behind its fraction, if it has one; `Err` tells where it stops to be a number.
fn fraction_end(text: &str, at: usize) -> Result<usize, usize>
    requires { at ≤ length text.now }
    ensures { Scans (optional frac) text.now at result }
{
    if has(text, at, Class::One(b'.')) {
        some_digits_end(text, at + 1)
    } else {
        Ok(at)
    }
}

// Where a number ends behind its exponent, if it has one; `Err` tells where it stops to be a number.
fn exponent_end(text: &str, at: usize) -> Result<usize, usize>
    requires { at ≤ length text.now }
    ensures { Scans (optional exp) text.now at result }
{
    if has(text, at, Class::Exponent) {
        some_digits_end(text, sign_end(text, at + 1))
    } else {
        Ok(at)
    }
}

// Where an exponent goes on behind the sign that may stand here.
fn sign_end(text: &str, at: usize) -> usize
    requires { at ≤ length text.now }
    ensures { ReadsTo (optional (either_byte 43 45)) text.now at result }
{
    if has(text, at, Class::Sign) {
        at + 1
    } else {
        at
    }
}

// Where one or more digits end; `Err` tells where none stands.
fn some_digits_end(text: &str, at: usize) -> Result<usize, usize>
    requires { at ≤ length text.now }
    ensures { Scans digits text.now at result }
{
    if has(text, at, Class::Digit) {
        Ok(digits_end(text, at + 1))
    } else {
        Err(at)
    }
}

// Where none or more digits end.
fn digits_end(text: &str, at: usize) -> usize
    requires { at ≤ length text.now }
    ensures { ReadsTo (many digit) text.now at result }
{
    let mut end = at;
    while has(text, end, Class::Digit) {
        end += 1;
    }
    end
}
