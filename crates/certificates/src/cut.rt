//! Cutting texts.

ghost use Rattle.std.specs.Prelude.{◌≡◌, ◌≢◌, ◌<◌, ◌++◌, ◌∷◌, ℕ, List, MatchOption};
ghost use Rattle.certificates.specs.inner.Fronts.{Lacks};

/// What stands before the first such character, which is ASCII, and what stands after it.
pub(crate) fn cut(text: &str, mark: char) -> Option<(&str, &str)>
    requires { mark < 128 }
    ensures { MatchOption result (Lacks mark text.now)
        (λ p. (text.now ≡ p.0.now ++ mark ∷ p.1.now) × Lacks mark p.0.now) }
{
    text.split_once(mark)
}

/// What stands after the words at the text's beginning; none where the text does not begin so.
pub(crate) fn past<'a>(text: &'a str, words: &str) -> Option<&'a str>
    ensures { MatchOption result ((rest : List ℕ) → text.entry.now ≢ words.now ++ rest)
        (λ rest. text.entry.now ≡ words.now ++ rest.now) }
{
    text.strip_prefix(words)
}
