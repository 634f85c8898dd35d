//! What the escapes of a string stand for (RFC 8259 section 7).

ghost use Rattle.std.specs.Prelude.{◌≡◌, ◌+◌, ◌-◌, ◌^◌, ◌<◌, ◌≤◌, ℕ, Some, true};
ghost use Rattle.std.specs.Prelude.{length, get_or};
ghost use Rattle.std.specs.Char.{digit_value, IsScalar};
ghost use Rattle.grammar.specs.Predict.{first};
ghost use Rattle.json_span.specs.Grammar.{hex};
ghost use Rattle.json_span.specs.Predictive.{ahead};
ghost use Rattle.json_span.specs.Characters.{short_of, code_unit_of, is_high, is_low, joined_pair};
ghost use Rattle.json_span.specs.inner.Escapes.{BeginsEscape, StandsFor};

/// A character, and how many bytes its escape takes.
#[derive(Clone, Copy)]
pub(crate) struct Escaped {
    pub(crate) character: char,
    pub(crate) len: usize,
}

// The value of a hexadecimal digit.
fn hex_value(byte: u8) -> u32
    ensures value { first ahead hex byte ≡ true → result ≡ digit_value byte }
    ensures small { result < 16 }
{
    match byte {
        b'0'..=b'9' => (byte - b'0') as u32,
        b'A'..=b'F' => (byte - b'A' + 10) as u32,
        b'a'..=b'f' => (byte - b'a' + 10) as u32,
        _ => 0,
    }
}

// The number of four hexadecimal digits.
fn unit_at(text: &[u8], at: usize) -> u32
    requires { at + 4 ≤ length text.now }
    ensures value { (n : ℕ)
        → code_unit_of (get_or text.now at 0) (get_or text.now (at + 1) 0)
        (get_or text.now (at + 2) 0) (get_or text.now (at + 3) 0) ≡ Some n
        → result ≡ n }
    ensures small { result < 2 ^ 16 }
{
    let first = hex_value(text[at]);
    let second = hex_value(text[at + 1]);
    let third = hex_value(text[at + 2]);
    let fourth = hex_value(text[at + 3]);
    first * 4096 + second * 256 + third * 16 + fourth
}

// The character of a short escape.
fn short_character(byte: u8) -> u8
    ensures { (c : ℕ) → short_of byte ≡ Some c → result ≡ c }
{
    match byte {
        b'b' => 8,
        b'f' => 12,
        b'n' => 10,
        b'r' => 13,
        b't' => 9,
        _ => byte,
    }
}

// Whether a unit of UTF-16 is the first of a surrogate pair.
fn is_high(unit: u32) -> bool
    ensures { result ≡ is_high unit }
{
    0xd800 <= unit && unit < 0xdc00
}

// The character of this number; no escape of a well-formed string has the number of none.
fn character(code: u32) -> char
    ensures { IsScalar code → result ≡ code }
{
    match char::from_u32(code) {
        Some(character) => character,
        None => char::REPLACEMENT_CHARACTER,
    }
}

/// What the escape stands for with which the text begins.
pub(crate) fn read_escape(text: &[u8]) -> Escaped
    requires { BeginsEscape text.now }
    ensures stands { StandsFor text.now result.character result.len }
    ensures within { result.len ≤ length text.now }
    ensures some { 0 < result.len }
    ensures ascii { get_or text.now (result.len - 1) 0 < 128 }
{
    if text[1] != b'u' {
        return Escaped {
            character: short_character(text[1]) as char,
            len: 2,
        };
    }
    let first = unit_at(text, 2);
    if !is_high(first) {
        return Escaped {
            character: character(first),
            len: 6,
        };
    }
    let low = unit_at(text, 8);
    Escaped {
        character: pair_character(first, low),
        len: 12,
    }
}

// The character of a high and a low surrogate.
fn pair_character(high: u32, low: u32) -> char
    requires high { is_high high ≡ true }
    requires low { is_low low ≡ true }
    ensures { result ≡ joined_pair high low }
{
    character(0x10000 + (high - 0xd800) * 1024 + (low - 0xdc00))
}
