//! Which values CSS can spell.

ghost use Rattle.std.specs.Prelude.{◌≡◌};
ghost use Rattle.css_out.specs.PlatformValue.{are_printable, has_word, can_spell_simple, can_spell};

use composite_rules::{Stroke, Typed};
use tk_io::Text;
use transforms::is_printable;
use type_rules::Simple;

fn are_printable(families: &[Text<'_>]) -> bool
    ensures { result ≡ are_printable families.now }
{
    families.iter().all(|family| is_printable(family.as_str()))
}

fn has_word(stroke: &Stroke) -> bool
    ensures { result ≡ has_word stroke.now }
{
    match stroke {
        Stroke::Word(_) => true,
        Stroke::Dashes(_, _) => false,
    }
}

fn can_spell_simple(simple: &Simple<'_>) -> bool
    ensures { result ≡ can_spell_simple simple.now }
{
    match simple {
        Simple::FontFamily(families) => are_printable(families.as_slice()),
        Simple::Color(_)
        | Simple::Dimension(_)
        | Simple::FontWeight(_)
        | Simple::Duration(_)
        | Simple::CubicBezier(_)
        | Simple::Number(_) => true,
    }
}

/// Whether CSS can spell the value: no dashes, and no family with a character that is not printable.
pub(crate) fn can_spell(typed: &Typed<'_>) -> bool
    ensures { result ≡ can_spell typed.now }
{
    match typed {
        Typed::Simple(simple) => can_spell_simple(simple),
        Typed::StrokeStyle(stroke) => has_word(stroke),
        Typed::Border(border) => has_word(&border.style),
        Typed::Typography(typography) => are_printable(typography.family.as_slice()),
        Typed::Transition(_) | Typed::Shadow(_) | Typed::Gradient(_) => true,
    }
}
