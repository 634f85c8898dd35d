//! A law of the definitions alone: a function that does nothing and is called for what it ensures.

ghost use Rattle.theme_cli.specs.Themed.{OneThemeStatus};

use build_plain::one_build;
use json_span::json_laws;

/// Files have one of three statuses at most: they have a sheet, or a refusal, or a name that no selector can hold.
pub fn one_theme_status()
    ensures { OneThemeStatus }
{
    one_build();
    json_laws();
}
