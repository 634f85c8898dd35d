//! The fragment of a token.

ghost use Rattle.std.specs.Prelude.{◌≡◌, ◌<◌, ◌^◌, true, [], ◌∷◌, IfOk, OnOk, OnErr};
ghost use Rattle.transforms.specs.PlatformName.{is_identifier};
ghost use Rattle.transforms.specs.View.{frame_view};
ghost use Rattle.composite_rules.specs.Sound.{IsTyped, IsTypography};
ghost use Rattle.ios_out.specs.Constant.{value_names};
ghost use Rattle.ios_out.specs.PlatformValue.{unless_omitted, family_content, swift_values};
ghost use Rattle.ios_out.specs.Reading.{Block};
ghost use Rattle.ios_out.specs.Sheets.{swift_frame};
ghost use Rattle.ios_out.specs.Spelling.{body_text};
ghost use Rattle.ios_out.specs.inner.View.{content_view};
ghost use Rattle.ios_out.specs.inner.Written.{IsFragment};

use crate::content::{Content, simple_content};
use crate::family::family_content;
use crate::typography::typography_fragment;
use composite_rules::{Typed, Typography};
use std::alloc::Global;
use tk_io::{Bytes, NoMemory};
use transforms::{Config, Frame, Names};

/// What stands around the fragments of a file: an enum without cases, which holds the constants.
pub const FRAME: Frame = Frame {
    head: b"import UIKit\n\npublic enum Tokens {\n",
    glue: b"",
    last: b"",
    tail: b"}\n",
};

/// The frame, in which files are read.
pub fn frame() -> Frame
    ensures { frame_view result ≡ swift_frame }
{
    FRAME
}

// The comment of a token without constants.
fn omitted<'a>(draft: &mut Bytes, name: &[u8]) -> Result<Names<'a>, NoMemory>
    ensures { IfOk result (λ names. IsFragment name.now []
        (record { names = names; body = draft.new })) }
{
    draft.truncate(0);
    draft.append(b"  // omitted ")?;
    draft.append(name)?;
    draft.append(b"\n")?;
    Ok(Names::none())
}

// Makes the one line of what Swift can have.
fn one_line<'a>(
    draft: &mut Bytes,
    name: &'a [u8],
    content: &Content<'_>,
) -> Result<Names<'a>, NoMemory>
    ensures { IfOk result (λ names. IsFragment name.now ((name.now, content_view content.now) ∷ [])
        (record { names = names; body = draft.new })) }
{
    draft.truncate(0);
    content.append_line(name, draft)?;
    Ok(Names::one(name))
}

// Makes the five lines of a typography, or the comment where Swift can't have one of its values.
fn five_lines<'a>(
    alloc: Global,
    draft: &mut Bytes,
    cfg: &Config,
    name: &[u8],
    value: &Typography<'_>,
) -> Result<Names<'a>, NoMemory>
    requires { IsTypography value.now }
    ensures { IfOk result (λ names. IsFragment name.now
        (unless_omitted cfg.now name.now value.now (family_content value.now.family))
        (record { names = names; body = draft.new })) }
{
    let Some(family) = family_content(value.family.as_slice()) else {
        return omitted(draft, name);
    };
    typography_fragment(alloc, draft, cfg, name, value, &family)
}

// The points of a rem are held in a byte.
fn has_base(cfg: &Config)
    ensures { cfg.now.rem_base < 2 ^ 8 }
{
    let _base = cfg.rem_base;
}

// Makes the lines of a value, whatever its kind is.
fn written<'a>(
    alloc: Global,
    draft: &mut Bytes,
    cfg: &Config,
    name: &'a [u8],
    typed: &Typed<'_>,
) -> Result<Names<'a>, NoMemory>
    requires { IsTyped typed.now }
    ensures { IfOk result (λ names. IsFragment name.now
        (swift_values cfg.now name.now typed.now)
        (record { names = names; body = draft.new })) }
{
    match typed {
        Typed::Simple(simple) => match simple_content(cfg, simple) {
            Some(content) => one_line(draft, name, &content),
            None => omitted(draft, name),
        },
        Typed::Typography(value) => five_lines(alloc, draft, cfg, name, value),
        Typed::StrokeStyle(_)
        | Typed::Border(_)
        | Typed::Transition(_)
        | Typed::Shadow(_)
        | Typed::Gradient(_) => omitted(draft, name),
    }
}

/// The names of a token of this name in Swift, and its constants in the draft, each `public static let` on a line of its own:
/// lengths in points as `CGFloat`, durations in seconds as `TimeInterval`, numbers and weights as `Double`, the first family as
/// `String`, colours as `UIColor` and curves as `CAMediaTimingFunction`. A value of which Swift has no such constant gives no name
/// and a comment: a colour that is neither in sRGB nor Display P3 with all components and has no `hex`, a family that can't be
/// printed, and all kinds but the eight with constants.
///
/// The draft holds these lines alone afterwards, whatever it held; on `NoMemory` it is empty. One constant has the name that is lent. The value is one that a
/// token can have. The lines are read as the constants of the names where the token's name is an identifier.
pub fn fragment<'a>(
    alloc: Global,
    draft: &mut Bytes,
    name: &'a [u8],
    typed: &Typed<'_>,
    cfg: &Config,
) -> Result<Names<'a>, NoMemory>
    requires typed { IsTyped typed.now }
    ensures names { IfOk result (λ names. names
        ≡ value_names (swift_values cfg.now name.now typed.now)) }
    ensures body { OnOk result (draft.new
        ≡ body_text name.now (swift_values cfg.now name.now typed.now)) }
    ensures base { cfg.now.rem_base < 2 ^ 8 }
    ensures reads { is_identifier name.now ≡ true
        → OnOk result (Block draft.new (swift_values cfg.now name.now typed.now)) }
    ensures cleared { OnErr result (draft.new ≡ []) }
{
    has_base(cfg);
    match written(alloc, draft, cfg, name, typed) {
        Ok(names) => Ok(names),
        Err(NoMemory) => {
            draft.truncate(0);
            Err(NoMemory)
        }
    }
}
