//! The texts of a token are texts in memory.

ghost use Rattle.std.specs.Prelude.{◌≡◌, true, option_map};
ghost use Rattle.std.specs.List.{list_all};
ghost use Rattle.json_span.specs.Spelling.{are_bytes};
ghost use Rattle.json_out.specs.Properties.{extras_view};
ghost use Rattle.json_out.specs.Sheets.{AreBytes, typed_families, simple_families, reason_of};
ghost use Rattle.json_out.specs.Sheets.{text_or_none};

use crate::extras::Extras;
use composite_rules::Typed;
use name_path::Path;
use tk_io::Text;
use token_tree::Mark;
use type_rules::Simple;

// Says of a text what its type promises: its items are bytes. The calls below say it of the texts of values.
fn text_is_bytes(_text: &str)
    ensures { are_bytes _text.now ≡ true }
{}

fn texts_are_bytes(texts: &[Text<'_>])
    ensures { list_all are_bytes texts.now ≡ true }
{
    for text in texts {
        text_is_bytes(text.as_str());
    }
}

// The same of the families of a simple value.
fn simple_is_bytes(simple: &Simple<'_>)
    ensures { list_all are_bytes (simple_families simple.now) ≡ true }
{
    match simple {
        Simple::FontFamily(families) => texts_are_bytes(families.as_slice()),
        Simple::Color(_)
        | Simple::Dimension(_)
        | Simple::FontWeight(_)
        | Simple::Duration(_)
        | Simple::CubicBezier(_)
        | Simple::Number(_) => {}
    }
}

// The same of the families of any value.
fn families_are_bytes(typed: &Typed<'_>)
    ensures { list_all are_bytes (typed_families typed.now) ≡ true }
{
    match typed {
        Typed::Simple(simple) => simple_is_bytes(simple),
        Typed::Typography(typography) => texts_are_bytes(typography.family.as_slice()),
        Typed::StrokeStyle(_)
        | Typed::Border(_)
        | Typed::Transition(_)
        | Typed::Shadow(_)
        | Typed::Gradient(_) => {}
    }
}

// The same of a description.
fn description_is_bytes(description: Option<&str>)
    ensures { are_bytes (text_or_none (option_map (λ t. t.now) description.entry)) ≡ true }
{
    match description {
        Some(text) => text_is_bytes(text),
        None => {}
    }
}

// The same of the reason of a deprecation.
fn reason_is_bytes(mark: &Mark<'_>)
    ensures { are_bytes (reason_of mark.now) ≡ true }
{
    match mark {
        Mark::Because(reason) => text_is_bytes(reason.as_str()),
        Mark::No | Mark::Yes => {}
    }
}

/// The texts of a token are bytes.
pub(crate) fn are_bytes(path: &Path<'_>, typed: &Typed<'_>, extras: &Extras<'_>)
    ensures { AreBytes path.now typed.now (extras_view extras.now) }
{
    texts_are_bytes(path.as_slice());
    families_are_bytes(typed);
    description_is_bytes(extras.description);
    reason_is_bytes(&extras.mark);
}
