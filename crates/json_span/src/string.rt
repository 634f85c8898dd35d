//! The ends of strings (RFC 8259 section 7), with an exact stop inside an escape.

ghost use Rattle.std.specs.Prelude.{◌≤◌, length};
ghost use Rattle.grammar.specs.Grammar.{many, named, seq};
ghost use Rattle.json_span.specs.Grammar.{behind_d, unicode, escape, char, one, string};
ghost use Rattle.json_span.specs.inner.Scan.{Scans};

use crate::bytes::{Class, has, row_end};
use crate::scan::plain_end;

/// The end of a string, after its closing quote.
pub(crate) fn string_end(text: &str, at: usize) -> Result<usize, usize>
    requires { at ≤ length text.now }
    ensures { Scans (named string) text.now at result }
{
    let inner = row_end(text, at, &[Class::One(b'"')])?;
    characters_end(text, inner)
}

/// The end of the characters of a string and of its closing quote.
pub(crate) fn characters_end(text: &str, at: usize) -> Result<usize, usize>
    requires { at ≤ length text.now }
    ensures { Scans (seq (many char) (one 34)) text.now at result }
{
    let mut end = plain_end(text, at);
    while has(text, end, Class::One(b'\\')) {
        let behind = escape_end(text, end + 1)?;
        end = plain_end(text, behind);
    }
    row_end(text, end, &[Class::One(b'"')])
}

// The end of an escape whose backslash stands before.
fn escape_end(text: &str, at: usize) -> Result<usize, usize>
    requires { at ≤ length text.now }
    ensures { Scans escape text.now at result }
{
    if has(text, at, Class::Short) {
        return Ok(at + 1);
    }
    let digits = row_end(text, at, &[Class::One(b'u')])?;
    unicode_end(text, digits)
}

// Four digits of no surrogate, or a high surrogate and the escape of a low one.
fn unicode_end(text: &str, at: usize) -> Result<usize, usize>
    requires { at ≤ length text.now }
    ensures { Scans unicode text.now at result }
{
    if has(text, at, Class::NotD) {
        return row_end(text, at, &[Class::NotD, Class::Hex, Class::Hex, Class::Hex]);
    }
    let second = row_end(text, at, &[Class::D])?;
    behind_d_end(text, second)
}

// The rest of an escape's digits after a first digit `d`.
fn behind_d_end(text: &str, at: usize) -> Result<usize, usize>
    requires { at ≤ length text.now }
    ensures { Scans behind_d text.now at result }
{
    if has(text, at, Class::BelowHigh) {
        row_end(text, at, &[Class::BelowHigh, Class::Hex, Class::Hex])
    } else {
        row_end(
            text,
            at,
            &[
                Class::High,
                Class::Hex,
                Class::Hex,
                Class::One(b'\\'),
                Class::One(b'u'),
                Class::D,
                Class::Low,
                Class::Hex,
                Class::Hex,
            ],
        )
    }
}
