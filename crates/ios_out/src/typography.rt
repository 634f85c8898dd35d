//! The five constants of a typography.

ghost use Rattle.std.specs.Prelude.{◌≡◌, ◌∷◌, [], ◌++◌, OnOk, IfOk};
ghost use Rattle.composite_rules.specs.Sound.{IsTypography};
ghost use Rattle.ios_out.specs.Constant.{number};
ghost use Rattle.ios_out.specs.PlatformValue.{five_values};
ghost use Rattle.ios_out.specs.Spelling.{line_text};
ghost use Rattle.ios_out.specs.inner.View.{type_view, content_view};
ghost use Rattle.ios_out.specs.inner.Written.{IsFragment};

use crate::content::{Content, NumberType, points};
use crate::line::append_number_line;
use composite_rules::Typography;
use dec_fix::Dec;
use std::alloc::Global;
use tk_io::{Bytes, NoMemory, Sequence};
use transforms::{Config, Names, name_with_ending};

// Adds the constant of the name with this ending.
fn add(
    alloc: Global,
    names: &mut Sequence<Bytes>,
    draft: &mut Bytes,
    name: &[u8],
    ending: &str,
    content: &Content<'_>,
) -> Result<(), NoMemory>
    ensures names { OnOk result (names.new
        ≡ names.old ++ (name.now ++ ending.now) ∷ []) }
    ensures body { OnOk result (draft.new
        ≡ draft.old ++ line_text (name.now ++ ending.now, content_view content.now)) }
{
    let name = name_with_ending(alloc, name, ending)?;
    content.append_line(name.as_slice(), draft)?;
    names.push(name)?;
    Ok(())
}

// Adds the constant of the name with this ending, a number of a type.
fn add_number(
    alloc: Global,
    names: &mut Sequence<Bytes>,
    draft: &mut Bytes,
    name: &[u8],
    ending: &str,
    number_type: NumberType,
    value: &Dec,
) -> Result<(), NoMemory>
    ensures names { OnOk result (names.new
        ≡ names.old ++ (name.now ++ ending.now) ∷ []) }
    ensures body { OnOk result (draft.new
        ≡ draft.old
        ++ line_text (name.now ++ ending.now, number (type_view number_type) value.now)) }
{
    let name = name_with_ending(alloc, name, ending)?;
    append_number_line(draft, name.as_slice(), number_type, value)?;
    names.push(name)?;
    Ok(())
}

/// The five names, and their constants in the draft; the family is the one that is given.
pub(crate) fn typography_fragment<'a>(
    alloc: Global,
    draft: &mut Bytes,
    cfg: &Config,
    name: &[u8],
    value: &Typography<'_>,
    family: &Content<'_>,
) -> Result<Names<'a>, NoMemory>
    requires { IsTypography value.now }
    ensures { IfOk result (λ names. IsFragment name.now
        (five_values cfg.now name.now value.now (content_view family.now))
        (record { names = names; body = draft.new })) }
{
    let mut names = Sequence::new(alloc);
    draft.truncate(0);
    let size = points(cfg, &value.size);
    let spacing = points(cfg, &value.spacing);
    let lengths = NumberType::CgFloat;
    let numbers = NumberType::Double;
    add(alloc, &mut names, draft, name, "_font_family", family)?;
    add_number(alloc, &mut names, draft, name, "_font_size", lengths, &size)?;
    add_number(
        alloc,
        &mut names,
        draft,
        name,
        "_font_weight",
        numbers,
        &value.weight,
    )?;
    add_number(
        alloc,
        &mut names,
        draft,
        name,
        "_letter_spacing",
        lengths,
        &spacing,
    )?;
    add_number(
        alloc,
        &mut names,
        draft,
        name,
        "_line_height",
        numbers,
        &value.line_height,
    )?;
    Ok(Names::several(names))
}
