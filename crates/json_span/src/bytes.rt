//! Classes of bytes of the grammar, and what stands at a place of a text.

ghost use Rattle.std.specs.Prelude.{◌≡◌, ◌<◌, ◌≤◌, length, drop};
ghost use Rattle.std.specs.Bool.{OnTrue};
ghost use Rattle.grammar.specs.Predict.{first, begins};
ghost use Rattle.json_span.specs.Predictive.{ahead};
ghost use Rattle.json_span.specs.inner.Scan.{rule_of, row_of, Scans};

/// A class of bytes.
#[derive(Clone, Copy)]
pub(crate) enum Class {
    One(u8),
    Digit,
    /// A digit other than 0.
    FirstDigit,
    Sign,
    /// `E` or `e`.
    Exponent,
    Hex,
    /// A hexadecimal digit other than `D` and `d`.
    NotD,
    D,
    /// The digits below those that make a surrogate after a `d`.
    BelowHigh,
    /// The digits that make a high surrogate after a `d`.
    High,
    /// The digits that make a low surrogate after a `d`.
    Low,
    /// The bytes after the backslash of a short escape.
    Short,
}

impl Class {
    // Whether the byte is one of the class.
    fn has(self, byte: u8) -> bool
        ensures { result ≡ first ahead (rule_of self) byte }
    {
        match self {
            Class::One(one) => byte == one,
            Class::Digit => byte.is_ascii_digit(),
            Class::FirstDigit => b'1' <= byte && byte <= b'9',
            Class::Sign => byte == b'+' || byte == b'-',
            Class::Exponent => byte == b'E' || byte == b'e',
            Class::Hex => byte.is_ascii_hexdigit(),
            Class::NotD => byte.is_ascii_hexdigit() && byte != b'D' && byte != b'd',
            Class::D => byte == b'D' || byte == b'd',
            Class::BelowHigh => b'0' <= byte && byte <= b'7',
            Class::High => matches!(byte, b'8' | b'9' | b'A' | b'B' | b'a' | b'b'),
            Class::Low => (b'C' <= byte && byte <= b'F') || (b'c' <= byte && byte <= b'f'),
            Class::Short => {
                matches!(byte, b'"' | b'\\' | b'/' | b'b' | b'f' | b'n' | b'r' | b't')
            }
        }
    }
}

/// Whether a byte of the class stands there.
pub(crate) fn has(text: &str, at: usize, class: Class) -> bool
    requires { at ≤ length text.now }
    ensures test { result ≡ begins (first ahead (rule_of class)) (drop at text.now) }
    ensures bound { OnTrue result (at < length text.now) }
{
    match text.as_bytes().get(at) {
        Some(byte) => class.has(*byte),
        None => false,
    }
}

/// The end of a row of bytes, one of each class.
pub(crate) fn row_end(text: &str, at: usize, classes: &[Class]) -> Result<usize, usize>
    requires { at ≤ length text.now }
    ensures { Scans (row_of classes.now) text.now at result }
{
    let mut end = at;
    for class in classes {
        if !has(text, end, *class) {
            return Err(end);
        }
        end += 1;
    }
    Ok(end)
}
