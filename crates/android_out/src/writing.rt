//! The fragment of a token.

ghost use Rattle.std.specs.Prelude.{◌≡◌, ◌<◌, ◌^◌, true, [], ◌∷◌, IfOk, OnOk, OnErr};
ghost use Rattle.transforms.specs.PlatformName.{is_identifier};
ghost use Rattle.transforms.specs.View.{frame_view};
ghost use Rattle.composite_rules.specs.Sound.{IsTyped, IsTypography};
ghost use Rattle.android_out.specs.Element.{value_names};
ghost use Rattle.android_out.specs.PlatformValue.{unless_omitted, family_content, whole_content};
ghost use Rattle.android_out.specs.PlatformValue.{android_values};
ghost use Rattle.android_out.specs.Reading.{Block};
ghost use Rattle.android_out.specs.Sheets.{android_frame};
ghost use Rattle.android_out.specs.Spelling.{body_text};
ghost use Rattle.android_out.specs.inner.View.{content_view};
ghost use Rattle.android_out.specs.inner.Written.{IsFragment};

use crate::content::{Content, simple_content, whole_content};
use crate::family::family_content;
use crate::typography::typography_fragment;
use composite_rules::{Typed, Typography};
use std::alloc::Global;
use tk_io::{Bytes, NoMemory};
use transforms::{Config, Frame, Names};

/// What stands around the fragments of a resource file.
pub const FRAME: Frame = Frame {
    head: b"<?xml version=\"1.0\" encoding=\"utf-8\"?>\n<resources>\n",
    glue: b"",
    last: b"",
    tail: b"</resources>\n",
};

/// The frame, in which files are read.
pub fn frame() -> Frame
    ensures { frame_view result ≡ android_frame }
{
    FRAME
}

// The comment of a token without elements.
fn omitted<'a>(draft: &mut Bytes, name: &[u8]) -> Result<Names<'a>, NoMemory>
    ensures { IfOk result (λ names. IsFragment name.now []
        (record { names = names; body = draft.new })) }
{
    draft.truncate(0);
    draft.append(b"  <!-- omitted ")?;
    draft.append(name)?;
    draft.append(b" -->\n")?;
    Ok(Names::none())
}

// Makes the one line of what Android can have.
fn one_line<'a>(
    draft: &mut Bytes,
    name: &'a [u8],
    content: &Content<'_>,
) -> Result<Names<'a>, NoMemory>
    ensures { IfOk result (λ names. IsFragment name.now ((name.now, content_view content.now) ∷ [])
        (record { names = names; body = draft.new })) }
{
    draft.truncate(0);
    content.append_line(name, draft)?;
    Ok(Names::one(name))
}

// Makes the five lines of a typography, or the comment where Android can't have one of its values.
fn five_lines<'a>(
    alloc: Global,
    draft: &mut Bytes,
    cfg: &Config,
    name: &[u8],
    value: &Typography<'_>,
) -> Result<Names<'a>, NoMemory>
    requires { IsTypography value.now }
    ensures { IfOk result (λ names. IsFragment name.now
        (unless_omitted cfg.now name.now value.now
        (family_content value.now.family) (whole_content value.now.weight))
        (record { names = names; body = draft.new })) }
{
    let Some(family) = family_content(value.family.as_slice()) else {
        return omitted(draft, name);
    };
    let Some(weight) = whole_content(&value.weight) else {
        return omitted(draft, name);
    };
    typography_fragment(alloc, draft, cfg, name, value, &family, &weight)
}

// The pixels of a rem are held in a byte.
fn has_base(cfg: &Config)
    ensures { cfg.now.rem_base < 2 ^ 8 }
{
    let _base = cfg.rem_base;
}

// Makes the lines of a value, whatever its kind is.
fn written<'a>(
    alloc: Global,
    draft: &mut Bytes,
    cfg: &Config,
    name: &'a [u8],
    typed: &Typed<'_>,
) -> Result<Names<'a>, NoMemory>
    requires { IsTyped typed.now }
    ensures { IfOk result (λ names. IsFragment name.now
        (android_values cfg.now name.now typed.now)
        (record { names = names; body = draft.new })) }
{
    match typed {
        Typed::Simple(simple) => match simple_content(cfg, simple) {
            Some(content) => one_line(draft, name, &content),
            None => omitted(draft, name),
        },
        Typed::Typography(value) => five_lines(alloc, draft, cfg, name, value),
        Typed::StrokeStyle(_)
        | Typed::Border(_)
        | Typed::Transition(_)
        | Typed::Shadow(_)
        | Typed::Gradient(_) => omitted(draft, name),
    }
}

/// The names of a token of this name in a resource file (values resources of Android), and its elements in the draft. A
/// value of which Android has no such resource gives no name and a comment: a colour without bytes, a duration that is no
/// whole number of milliseconds within 32 bits, a weight that is not whole, a family that is not plain words, and the kinds
/// without elements.
///
/// The draft holds these lines alone afterwards, whatever it held; on `NoMemory` it is empty. One element has the name that is lent. The value is one
/// that a token can have. The lines are read as the elements of the names where the token's name is an identifier.
pub fn fragment<'a>(
    alloc: Global,
    draft: &mut Bytes,
    name: &'a [u8],
    typed: &Typed<'_>,
    cfg: &Config,
) -> Result<Names<'a>, NoMemory>
    requires typed { IsTyped typed.now }
    ensures names { IfOk result (λ names. names
        ≡ value_names (android_values cfg.now name.now typed.now)) }
    ensures body { OnOk result (draft.new
        ≡ body_text name.now (android_values cfg.now name.now typed.now)) }
    ensures base { cfg.now.rem_base < 2 ^ 8 }
    ensures reads { is_identifier name.now ≡ true
        → OnOk result (Block draft.new (android_values cfg.now name.now typed.now)) }
    ensures cleared { OnErr result (draft.new ≡ []) }
{
    has_base(cfg);
    match written(alloc, draft, cfg, name, typed) {
        Ok(names) => Ok(names),
        Err(NoMemory) => {
            draft.truncate(0);
            Err(NoMemory)
        }
    }
}
