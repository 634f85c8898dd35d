//! Laws of the definitions alone, for the layers above.

ghost use Rattle.theme_css.specs.Laws.{NoneIsOffered, OneThemeSheet, StrongestWins};

use build_plain::one_build;
use json_span::json_laws;

/// What the cascade takes for a name is said by the block with the most attributes of those that match the page and declare
/// the name, and of several with as many by the last; it takes nothing only where there is none.
pub fn cascade_laws()
    ensures wins { StrongestWins }
    ensures none { NoneIsOffered }
{}

/// Files have one sheet for all their permutations, and no other.
pub fn one_sheet()
    ensures { OneThemeSheet }
{
    one_build();
    json_laws();
}
