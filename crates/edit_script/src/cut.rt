//! Cutting texts at a byte.

ghost use Rattle.std.specs.Prelude.{◌≡◌, ◌<◌, ℕ, true, List, ◌∷◌, ◌++◌, length, MatchOption};
ghost use Rattle.edit_script.specs.inner.Cut.{lacks, IsFirstCut};

/// What stands before the first such character, which is ASCII, and what stands after it; none
/// where the text has none.
pub(crate) fn cut_at_first(text: &str, mark: char) -> Option<(&str, &str)>
    requires { mark < 128 }
    ensures { MatchOption result (lacks mark text.now ≡ true)
        (λ p. IsFirstCut mark text.now p.0.now p.1.now) }
{
    text.split_once(mark)
}

/// What stands before the newline at this place, and what stands after it; none where there is no
/// newline.
pub(crate) fn cut_at_newline(text: &str, at: usize) -> Option<(&str, &str)>
    ensures { MatchOption result ((front : List ℕ) → (back : List ℕ) → length front ≡ at
        → text.now ≡ front ++ 10 ∷ back → ⊥)
        (λ p. (length p.0.now ≡ at) × (text.now ≡ p.0.now ++ 10 ∷ p.1.now)) }
{
    if text.as_bytes().get(at) != Some(&b'\n') {
        return None;
    }
    Some((&text[..at], &text[at + 1..]))
}
