//! Font families that can be printed.

ghost use Rattle.std.specs.Prelude.{◌≡◌, option_map};
ghost use Rattle.ios_out.specs.PlatformValue.{family_content};
ghost use Rattle.ios_out.specs.inner.View.{content_view};

use crate::content::Content;
use tk_io::Text;
use transforms::is_printable;

/// The first family, where it can be printed.
pub(crate) fn family_content<'a>(families: &'a [Text<'_>]) -> Option<Content<'a>>
    ensures { option_map content_view result ≡ family_content families.now }
{
    let family = families.first()?;
    if is_printable(family.as_str()) {
        Some(Content::Text(family.as_str()))
    } else {
        None
    }
}
