//! Font families that are plain words.

ghost use Rattle.std.specs.Prelude.{◌≡◌, option_map};
ghost use Rattle.android_out.specs.PlatformValue.{is_plain_char, are_family_words, family_content};
ghost use Rattle.android_out.specs.inner.Written.{after_byte};
ghost use Rattle.android_out.specs.inner.View.{content_view};

use crate::content::Content;
use tk_io::Text;

fn is_plain_char(c: u8) -> bool
    ensures { result ≡ is_plain_char c }
{
    c.is_ascii_alphanumeric() || (c == b'-' || (c == b'_' || c == b'.'))
}

// Whether a word is begun after the byte; none where the byte can't stand there.
fn after_byte(begun: bool, c: u8) -> Option<bool>
    ensures { result ≡ after_byte begun c }
{
    if c == b' ' {
        return if begun { Some(false) } else { None };
    }
    if is_plain_char(c) { Some(true) } else { None }
}

// Whether the text is one or more words with single blanks between.
fn are_words(text: &[u8]) -> bool
    ensures { result ≡ are_family_words text.now }
{
    let mut begun = false;
    for c in text {
        match after_byte(begun, *c) {
            Some(next) => begun = next,
            None => return false,
        }
    }
    begun
}

/// The first family, where it is plain words.
pub(crate) fn family_content<'a>(families: &'a [Text<'_>]) -> Option<Content<'a>>
    ensures { option_map content_view result ≡ family_content families.now }
{
    let family = families.first()?;
    if are_words(family.as_str().as_bytes()) {
        Some(Content::Text(family.as_str()))
    } else {
        None
    }
}
