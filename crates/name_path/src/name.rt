//! Names of groups and tokens.

ghost use Rattle.std.specs.Prelude.{◌≢◌, ◌↔◌, All, IsTrue};
ghost use Rattle.name_path.specs.Names.{IsName};

fn holds_no_mark(text: &[u8]) -> bool
    ensures { IsTrue result ↔ All (λ b. (b ≢ 46) × (b ≢ 123) × (b ≢ 125)) text.now }
{
    text.iter().all(|b| !matches!(*b, b'.' | b'{' | b'}'))
}

/// Whether a text is a name: it is not empty, does not begin with `$` and holds no `.`, `{` or `}`.
pub fn is_name(text: &str) -> bool
    ensures { IsTrue result ↔ IsName text.now }
{
    let bytes = text.as_bytes();
    if bytes.is_empty() || bytes[0] == b'$' {
        return false;
    }
    holds_no_mark(bytes)
}
