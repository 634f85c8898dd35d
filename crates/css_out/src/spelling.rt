//! Values without references, mark by mark.

ghost use Rattle.std.specs.Prelude.{◌≡◌, List, ◌∷◌, OnOk};
ghost use Rattle.std.specs.List.{flat_map};
ghost use Rattle.std.specs.Str.{bytes_eq};
ghost use Rattle.css_out.specs.Piece.{Mark, mark, comma};
ghost use Rattle.css_out.specs.PlatformValue.{size_marks, time_marks, number_marks, curve_marks};
ghost use Rattle.css_out.specs.PlatformValue.{has_function, function_name, space_marks};
ghost use Rattle.css_out.specs.PlatformValue.{has_percents, component_mark, component_marks};
ghost use Rattle.css_out.specs.PlatformValue.{alpha_marks, color_marks, is_generic, family_marks};
ghost use Rattle.css_out.specs.PlatformValue.{families_marks, simple_marks, stroke_marks};
ghost use Rattle.css_out.specs.PlatformValue.{inset_marks};
ghost use Rattle.css_out.specs.inner.Added.{with_piece, with_marks};

use crate::line::Line;
use composite_rules::Stroke;
use dec_fix::Dec;
use tk_io::{NoMemory, Text};
use type_rules::{Color, Curve, Families, Simple, Size, Space, Time};

/// What CSS has marks for.
pub(crate) trait Spell {
    ghost marks: { Self → List Mark };

    /// Adds the value's marks to the line.
    fn spell(&self, line: &mut Line) -> Result<(), NoMemory>
        ensures { OnOk result (line.new ≡ with_marks line.old (marks self.now)) };
}

impl Spell for Size {
    ghost marks = { size_marks };

    fn spell(&self, line: &mut Line) -> Result<(), NoMemory> {
        line.unit(&self.value, self.unit.name())
    }
}

impl Spell for Time {
    ghost marks = { time_marks };

    fn spell(&self, line: &mut Line) -> Result<(), NoMemory> {
        line.unit(&self.value, self.unit.name())
    }
}

impl Spell for Dec {
    ghost marks = { number_marks };

    fn spell(&self, line: &mut Line) -> Result<(), NoMemory> {
        line.number(self)
    }
}

/// `cubic-bezier()` (CSS Easing 1).
impl Spell for Curve {
    ghost marks = { curve_marks };

    fn spell(&self, line: &mut Line) -> Result<(), NoMemory> {
        line.opens("cubic-bezier")?;
        line.number(&self.x1)?;
        line.comma()?;
        line.number(&self.y1)?;
        line.comma()?;
        line.number(&self.x2)?;
        line.comma()?;
        line.number(&self.y2)?;
        line.closes()?;
        Ok(())
    }
}

fn has_function(space: Space) -> bool
    ensures { result ≡ has_function space }
{
    match space {
        Space::Srgb
        | Space::SrgbLinear
        | Space::DisplayP3
        | Space::A98Rgb
        | Space::ProphotoRgb
        | Space::Rec2020
        | Space::XyzD65
        | Space::XyzD50 => false,
        Space::Hsl | Space::Hwb | Space::Lab | Space::Lch | Space::Oklab | Space::Oklch => true,
    }
}

fn has_percents(space: Space) -> bool
    ensures { result ≡ has_percents space }
{
    match space {
        Space::Hsl | Space::Hwb => true,
        Space::Srgb
        | Space::SrgbLinear
        | Space::DisplayP3
        | Space::A98Rgb
        | Space::ProphotoRgb
        | Space::Rec2020
        | Space::XyzD65
        | Space::XyzD50
        | Space::Lab
        | Space::Lch
        | Space::Oklab
        | Space::Oklch => false,
    }
}

fn function_name(space: Space) -> &'static str
    ensures { result.now ≡ function_name space }
{
    if has_function(space) {
        space.name()
    } else {
        "color"
    }
}

fn spell_space(line: &mut Line, space: Space) -> Result<(), NoMemory>
    ensures { OnOk result (line.new ≡ with_marks line.old (space_marks space)) }
{
    if has_function(space) {
        return Ok(());
    }
    line.word(space.name())
}

fn spell_component(
    line: &mut Line,
    as_percent: bool,
    component: Option<Dec>,
) -> Result<(), NoMemory>
    ensures { OnOk result (line.new
        ≡ with_piece line.old (mark (component_mark as_percent component))) }
{
    let Some(number) = component else {
        return line.word("none");
    };
    if as_percent {
        line.percent(&number)
    } else {
        line.number(&number)
    }
}

fn spell_components(line: &mut Line, color: &Color) -> Result<(), NoMemory>
    ensures { OnOk result (line.new ≡ with_marks line.old (component_marks color.now)) }
{
    let as_percents = has_percents(color.space);
    spell_component(line, false, color.first)?;
    spell_component(line, as_percents, color.second)?;
    spell_component(line, as_percents, color.third)?;
    Ok(())
}

fn spell_alpha(line: &mut Line, alpha: &Dec) -> Result<(), NoMemory>
    ensures { OnOk result (line.new ≡ with_marks line.old (alpha_marks alpha.now)) }
{
    if alpha.cmp_whole(1).is_eq() {
        return Ok(());
    }
    line.slash()?;
    line.number(alpha)?;
    Ok(())
}

/// A function of the space's name, or `color()` (CSS Color 4, sections 7 to 10).
impl Spell for Color {
    ghost marks = { color_marks };

    fn spell(&self, line: &mut Line) -> Result<(), NoMemory> {
        line.opens(function_name(self.space))?;
        spell_space(line, self.space)?;
        spell_components(line, self)?;
        spell_alpha(line, &self.alpha)?;
        line.closes()?;
        Ok(())
    }
}

/// `inset`, where a shadow falls inside of its box.
pub(crate) fn spell_inset(line: &mut Line, inset: bool) -> Result<(), NoMemory>
    ensures { OnOk result (line.new ≡ with_marks line.old (inset_marks inset)) }
{
    if inset {
        return line.word("inset");
    }
    Ok(())
}

// Whether the text is the word.
fn is_word(text: &str, word: &str) -> bool
    ensures { result ≡ bytes_eq text.now word.now }
{
    text == word
}

fn is_generic(family: &str) -> bool
    ensures { result ≡ is_generic family.now }
{
    is_word(family, "serif")
        || is_word(family, "sans-serif")
        || is_word(family, "monospace")
        || is_word(family, "cursive")
        || is_word(family, "fantasy")
        || is_word(family, "system-ui")
}

fn spell_family(line: &mut Line, family: &str) -> Result<(), NoMemory>
    ensures { OnOk result (line.new ≡ with_marks line.old (family_marks family.now)) }
{
    if is_generic(family) {
        line.word(family)
    } else {
        line.string(family)
    }
}

fn spell_more_families(line: &mut Line, families: &[Text<'_>]) -> Result<(), NoMemory>
    ensures { OnOk result (line.new
        ≡ with_marks line.old (flat_map (λ y. comma ∷ family_marks y) families.now)) }
{
    for family in families {
        line.comma()?;
        spell_family(line, family.as_str())?;
    }
    Ok(())
}

/// Families with commas between, a generic one as a word and any other as a string.
impl<'s> Spell for Families<'s> {
    ghost marks = { families_marks };

    fn spell(&self, line: &mut Line) -> Result<(), NoMemory> {
        let Some((first, others)) = self.as_slice().split_first() else {
            return Ok(());
        };
        spell_family(line, first.as_str())?;
        spell_more_families(line, others)?;
        Ok(())
    }
}

impl<'s> Spell for Simple<'s> {
    ghost marks = { simple_marks };

    fn spell(&self, line: &mut Line) -> Result<(), NoMemory> {
        match self {
            Simple::Color(color) => color.spell(line),
            Simple::Dimension(size) => size.spell(line),
            Simple::FontFamily(families) => families.spell(line),
            Simple::FontWeight(weight) => weight.spell(line),
            Simple::Duration(time) => time.spell(line),
            Simple::CubicBezier(curve) => curve.spell(line),
            Simple::Number(number) => number.spell(line),
        }
    }
}

impl Spell for Stroke {
    ghost marks = { stroke_marks };

    fn spell(&self, line: &mut Line) -> Result<(), NoMemory> {
        match self {
            Stroke::Word(word) => line.word(word.name()),
            Stroke::Dashes(_, _) => Ok(()),
        }
    }
}
