//! Whether the blocks of themes stand so that the last one that holds on a page decides.

ghost use Rattle.std.specs.Prelude.{◌≡◌, ◌≤◌, true, ℕ, List, IsTrue, drop, length};
ghost use Rattle.std.specs.List.{AllByRecursion, list_all};
ghost use Rattle.theme_css.specs.Cascade.{is_among};
ghost use Rattle.theme_css.specs.inner.Order.{AllFollow, Follows};
ghost use Rattle.theme_css.specs.inner.Pages.{theme_view, themes_view};

use crate::blocks::Theme;
use crate::choice::are_among;

// Whether the block of a later theme asks for no fewer attributes, and for one that the page lacks.
fn follows(theme: &Theme<'_, '_, '_>, later: &Theme<'_, '_, '_>) -> bool
    ensures { (names : List (List ℕ))
        → IsTrue result → Follows (theme_view names theme.now) (theme_view names later.now) }
{
    if later.odd.len() < theme.odd.len() {
        return false;
    }
    !are_among(theme.page, later.odd.as_slice())
}

// Whether all later ones do.
fn all_follow(theme: &Theme<'_, '_, '_>, later: &[Theme<'_, '_, '_>]) -> bool
    ensures { (names : List (List ℕ)) → IsTrue result
        → AllByRecursion (Follows (theme_view names theme.now)) (themes_view names later.now) }
{
    for each in later {
        if !follows(theme, each) {
            return false;
        }
    }
    true
}

/// Whether each theme's block holds on its own page, and no later one does, nor asks for fewer attributes.
pub(crate) fn are_in_order(themes: &[Theme<'_, '_, '_>]) -> bool
    ensures { (names : List (List ℕ)) → IsTrue result → AllFollow (themes_view names themes.now) }
{
    for i in 0..themes.len() {
        let theme = &themes[i];
        if !are_among(theme.page, theme.odd.as_slice()) {
            return false;
        }
        if !all_follow(theme, &themes[i + 1..]) {
            return false;
        }
    }
    true
}
