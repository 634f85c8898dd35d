//! Numbers, as scripts spell them.

ghost use Rattle.std.specs.Prelude.{◌≡◌, ◌≢◌, ℕ, List, ◌∷◌, ◌++◌, MatchOption};
ghost use Rattle.std.specs.Fmt.{decimal};
ghost use Rattle.edit_script.specs.Script.{IsSpelledNumber};

use crate::cut::cut_at_first;
use itoa::Buffer;

/// The number that the text spells: one to eight digits, without a leading zero but for `0` itself.
pub(crate) fn read_number(text: &str) -> Option<usize>
    ensures { MatchOption result ((n : ℕ) → IsSpelledNumber n → text.now ≢ decimal n)
        (λ n. (text.now ≡ decimal n) × IsSpelledNumber n) }
{
    match text.parse::<u32>() {
        Ok(n) => {
            if n >= 100_000_000 {
                return None;
            }
            let mut buffer = Buffer::new();
            if buffer.format(n) != text {
                return None;
            }
            Some(n as usize)
        }
        Err(_) => None,
    }
}

/// The number that stands before the first blank, and what stands after that; none where no number and blank begin the
/// text.
pub(crate) fn cut_number(text: &str) -> Option<(usize, &str)>
    ensures { MatchOption result ((n : ℕ) → (rest : List ℕ) → IsSpelledNumber n
        → text.now ≡ decimal n ++ 32 ∷ rest → ⊥)
        (λ p. (text.now ≡ decimal p.0 ++ 32 ∷ p.1.now) × IsSpelledNumber p.0) }
{
    let (digits, rest) = cut_at_first(text, ' ')?;
    Some((read_number(digits)?, rest))
}
