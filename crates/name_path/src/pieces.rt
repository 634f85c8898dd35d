//! Texts by what stands around ASCII characters.

ghost use Rattle.std.specs.Prelude.{◌≡◌, ◌≢◌, ◌<◌, ◌++◌, ◌∷◌, All, MatchOption};

/// What stands before the first such character and what stands after it.
pub fn around<'a>(text: &'a str, at: char) -> Option<(&'a str, &'a str)>
    requires { at < 128 }
    ensures { MatchOption result (All (λ b. b ≢ at) text.entry.now)
        (λ parts. (text.entry.now ≡ parts.0.now ++ at ∷ parts.1.now)
        × All (λ b. b ≢ at) parts.0.now) }
{
    text.split_once(at)
}
