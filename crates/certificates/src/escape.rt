//! The escapes of the strings of certificates: those that `json_span` writes.

ghost use Rattle.std.specs.Prelude.{◌≡◌, ◌<◌, ◌+◌, ◌∷◌, ◌++◌, ◌/◌, ◌%◌, ℕ, List, Some, length};
ghost use Rattle.std.specs.Prelude.{MatchOption, IfSome};
ghost use Rattle.json_span.specs.Spelling.{hex_digit, byte_text};

use crate::cut::past;
use tk_io::behind;

/// The value of a hexadecimal digit, with small letters.
fn hex_value(digit: u8) -> Option<u8>
    ensures value { (n : ℕ) → n < 16 → digit ≡ hex_digit n → result ≡ Some n }
    ensures small { IfSome result (λ n. n < 16) }
    ensures ascii { IfSome result (λ n. digit < 128) }
{
    match digit {
        b'0'..=b'9' => Some(digit - b'0'),
        b'a'..=b'f' => Some(digit - 87),
        _ => None,
    }
}

/// The character whose code these two digits at the front spell, and what follows them.
fn front_code(text: &str) -> Option<(char, &str)>
    ensures found { (c : ℕ) (rest : List ℕ) → c < 32
        → text.now ≡ hex_digit (c / 16) ∷ hex_digit (c % 16) ∷ rest
        → MatchOption result ⊥ (λ p. (p.0 ≡ c) × (p.1.now ≡ rest)) }
    ensures shorter { IfSome result (λ p. length p.1.now < length text.now) }
{
    let bytes = text.as_bytes();
    if bytes.len() < 2 {
        return None;
    }
    let high = hex_value(bytes[0])?;
    let low = hex_value(bytes[1])?;
    Some((char::from(16 * high + low), &text[2..]))
}

/// What the escape behind a backslash stands for, and what follows it.
pub(crate) fn behind_backslash(text: &str) -> Option<(char, &str)>
    ensures found { (c : ℕ) (rest : List ℕ) → 92 ∷ text.now ≡ byte_text c ++ rest
        → MatchOption result ⊥ (λ p. (p.0 ≡ c) × (p.1.now ≡ rest)) }
    ensures shorter { IfSome result (λ p. length p.1.now < length text.now + 1) }
{
    if let Some(rest) = behind(text, '"') {
        return Some(('"', rest));
    }
    if let Some(rest) = behind(text, '\\') {
        return Some(('\\', rest));
    }
    let Some(digits) = past(text, "u00") else {
        return None;
    };
    front_code(digits)
}
