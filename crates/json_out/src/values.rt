//! The JSON values of typed values.

ghost use Rattle.std.specs.Prelude.{◌≡◌, ◌∷◌, ◌++◌, codes, OnOk};
ghost use Rattle.json_span.specs.Plain.{plain_string, plain_members_of};
ghost use Rattle.json_span.specs.Spelling.{string_text};
ghost use Rattle.type_rules.specs.Words.{size_unit_name, time_unit_name, space_name};
ghost use Rattle.composite_rules.specs.Words.{stroke_word_name, cap_name};
ghost use Rattle.json_out.specs.PlatformValue.{component_json, hex_members, size_json, time_json};
ghost use Rattle.json_out.specs.PlatformValue.{curve_json, color_json, stroke_json, border_json};
ghost use Rattle.json_out.specs.PlatformValue.{transition_json, shadow_json, stop_json};
ghost use Rattle.json_out.specs.PlatformValue.{typography_json, simple_json, typed_json};
ghost use Rattle.json_out.specs.Spelling.{value_text, more_members_text};

use crate::spelling::{Spell, list_behind, spell_behind, spell_list, spell_word};
use composite_rules::{
    Border, Cap, ColorStop, ShadowItem, Stroke, StrokeWord, Transition, Typed, Typography,
};
use dec_fix::Dec;
use json_span::write_string_bytes;
use tk_io::{Bytes, NoMemory};
use type_rules::{Color, Curve, Simple, Size, SizeUnit, Space, Time, TimeUnit};

impl Spell for Space {
    ghost json = { λ space. plain_string (space_name space) };

    fn spell(&self, out: &mut Bytes) -> Result<(), NoMemory> {
        spell_word(out, self.name())
    }
}

impl Spell for StrokeWord {
    ghost json = { λ word. plain_string (stroke_word_name word) };

    fn spell(&self, out: &mut Bytes) -> Result<(), NoMemory> {
        spell_word(out, self.name())
    }
}

impl Spell for Cap {
    ghost json = { λ cap. plain_string (cap_name cap) };

    fn spell(&self, out: &mut Bytes) -> Result<(), NoMemory> {
        spell_word(out, self.name())
    }
}

// The member of a size's unit, and the end of the size.
fn size_end(unit: SizeUnit) -> &'static [u8]
    ensures { result.now
        ≡ codes ", \"unit\": " ++ (string_text (size_unit_name unit) ++ codes "}") }
{
    match unit {
        SizeUnit::Px => b", \"unit\": \"px\"}",
        SizeUnit::Rem => b", \"unit\": \"rem\"}",
    }
}

impl Spell for Size {
    ghost json = { size_json };

    fn spell(&self, out: &mut Bytes) -> Result<(), NoMemory> {
        spell_behind(out, b"{\"value\": ", &self.value)?;
        out.append(size_end(self.unit))?;
        Ok(())
    }
}

// The member of a time's unit, and the end of the time.
fn time_end(unit: TimeUnit) -> &'static [u8]
    ensures { result.now
        ≡ codes ", \"unit\": " ++ (string_text (time_unit_name unit) ++ codes "}") }
{
    match unit {
        TimeUnit::Ms => b", \"unit\": \"ms\"}",
        TimeUnit::S => b", \"unit\": \"s\"}",
    }
}

impl Spell for Time {
    ghost json = { time_json };

    fn spell(&self, out: &mut Bytes) -> Result<(), NoMemory> {
        spell_behind(out, b"{\"value\": ", &self.value)?;
        out.append(time_end(self.unit))?;
        Ok(())
    }
}

impl Spell for Curve {
    ghost json = { curve_json };

    fn spell(&self, out: &mut Bytes) -> Result<(), NoMemory> {
        spell_behind(out, b"[", &self.x1)?;
        spell_behind(out, b", ", &self.y1)?;
        spell_behind(out, b", ", &self.x2)?;
        spell_behind(out, b", ", &self.y2)?;
        out.append(b"]")?;
        Ok(())
    }
}

fn spell_component(out: &mut Bytes, before: &[u8], component: &Option<Dec>) -> Result<(), NoMemory>
    ensures { OnOk result (out.new
        ≡ out.old ++ (before.now ++ value_text (component_json component.now))) }
{
    match component {
        Some(number) => spell_behind(out, before, number),
        None => {
            out.append(before)?;
            out.append(b"\"none\"")?;
            Ok(())
        }
    }
}

fn spell_digits(out: &mut Bytes, digits: &[u8; 6]) -> Result<(), NoMemory>
    ensures { OnOk result (out.new ≡ out.old ++ value_text (plain_string (35 ∷ digits.now))) }
{
    let mut text = out.fresh();
    text.append(b"#")?;
    text.append(digits)?;
    write_string_bytes(text.as_slice(), out)?;
    Ok(())
}

// The digits, where they are given, and the end of the colour.
fn spell_end(out: &mut Bytes, hex: &Option<[u8; 6]>) -> Result<(), NoMemory>
    ensures { OnOk result (out.new
        ≡ out.old ++ more_members_text (plain_members_of (hex_members hex.now))) }
{
    match hex {
        Some(digits) => {
            out.append(b", \"hex\": ")?;
            spell_digits(out, digits)?;
            out.append(b"}")?;
            Ok(())
        }
        None => out.append(b"}"),
    }
}

impl Spell for Color {
    ghost json = { color_json };

    fn spell(&self, out: &mut Bytes) -> Result<(), NoMemory> {
        spell_behind(out, b"{\"colorSpace\": ", &self.space)?;
        spell_component(out, b", \"components\": [", &self.first)?;
        spell_component(out, b", ", &self.second)?;
        spell_component(out, b", ", &self.third)?;
        spell_behind(out, b"], \"alpha\": ", &self.alpha)?;
        spell_end(out, &self.hex)?;
        Ok(())
    }
}

impl<'s> Spell for Simple<'s> {
    ghost json = { simple_json };

    fn spell(&self, out: &mut Bytes) -> Result<(), NoMemory> {
        match self {
            Simple::Color(color) => color.spell(out),
            Simple::Dimension(size) => size.spell(out),
            Simple::FontFamily(families) => spell_list(out, families.as_slice()),
            Simple::FontWeight(weight) => weight.spell(out),
            Simple::Duration(time) => time.spell(out),
            Simple::CubicBezier(curve) => curve.spell(out),
            Simple::Number(number) => number.spell(out),
        }
    }
}

impl Spell for Stroke {
    ghost json = { stroke_json };

    fn spell(&self, out: &mut Bytes) -> Result<(), NoMemory> {
        match self {
            Stroke::Word(word) => word.spell(out),
            Stroke::Dashes(lengths, cap) => {
                list_behind(out, b"{\"dashArray\": ", lengths.as_slice())?;
                spell_behind(out, b", \"lineCap\": ", cap)?;
                out.append(b"}")?;
                Ok(())
            }
        }
    }
}

impl Spell for Border {
    ghost json = { border_json };

    fn spell(&self, out: &mut Bytes) -> Result<(), NoMemory> {
        spell_behind(out, b"{\"color\": ", &self.color)?;
        spell_behind(out, b", \"width\": ", &self.width)?;
        spell_behind(out, b", \"style\": ", &self.style)?;
        out.append(b"}")?;
        Ok(())
    }
}

impl Spell for Transition {
    ghost json = { transition_json };

    fn spell(&self, out: &mut Bytes) -> Result<(), NoMemory> {
        spell_behind(out, b"{\"duration\": ", &self.duration)?;
        spell_behind(out, b", \"delay\": ", &self.delay)?;
        spell_behind(out, b", \"timingFunction\": ", &self.timing)?;
        out.append(b"}")?;
        Ok(())
    }
}

impl Spell for ShadowItem {
    ghost json = { shadow_json };

    fn spell(&self, out: &mut Bytes) -> Result<(), NoMemory> {
        spell_behind(out, b"{\"color\": ", &self.color)?;
        spell_behind(out, b", \"offsetX\": ", &self.offset_x)?;
        spell_behind(out, b", \"offsetY\": ", &self.offset_y)?;
        spell_behind(out, b", \"blur\": ", &self.blur)?;
        spell_behind(out, b", \"spread\": ", &self.spread)?;
        spell_behind(out, b", \"inset\": ", &self.inset)?;
        out.append(b"}")?;
        Ok(())
    }
}

impl Spell for ColorStop {
    ghost json = { stop_json };

    fn spell(&self, out: &mut Bytes) -> Result<(), NoMemory> {
        spell_behind(out, b"{\"color\": ", &self.color)?;
        spell_behind(out, b", \"position\": ", &self.position)?;
        out.append(b"}")?;
        Ok(())
    }
}

impl<'s> Spell for Typography<'s> {
    ghost json = { typography_json };

    fn spell(&self, out: &mut Bytes) -> Result<(), NoMemory> {
        list_behind(out, b"{\"fontFamily\": ", self.family.as_slice())?;
        spell_behind(out, b", \"fontSize\": ", &self.size)?;
        spell_behind(out, b", \"fontWeight\": ", &self.weight)?;
        spell_behind(out, b", \"letterSpacing\": ", &self.spacing)?;
        spell_behind(out, b", \"lineHeight\": ", &self.line_height)?;
        out.append(b"}")?;
        Ok(())
    }
}

impl<'s> Spell for Typed<'s> {
    ghost json = { typed_json };

    fn spell(&self, out: &mut Bytes) -> Result<(), NoMemory> {
        match self {
            Typed::Simple(simple) => simple.spell(out),
            Typed::StrokeStyle(stroke) => stroke.spell(out),
            Typed::Border(border) => border.spell(out),
            Typed::Transition(transition) => transition.spell(out),
            Typed::Shadow(items) => spell_list(out, items.as_slice()),
            Typed::Gradient(stops) => spell_list(out, stops.as_slice()),
            Typed::Typography(typography) => typography.spell(out),
        }
    }
}
