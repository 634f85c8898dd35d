//! The five elements of a typography.

ghost use Rattle.std.specs.Prelude.{◌≡◌, ◌∷◌, [], ◌++◌, OnOk, IfOk};
ghost use Rattle.composite_rules.specs.Sound.{IsTypography};
ghost use Rattle.android_out.specs.PlatformValue.{five_values};
ghost use Rattle.android_out.specs.Spelling.{line_text};
ghost use Rattle.android_out.specs.inner.View.{content_view};
ghost use Rattle.android_out.specs.inner.Written.{IsFragment};

use crate::content::{Content, DimenUnit, size_content};
use composite_rules::Typography;
use std::alloc::Global;
use tk_io::{Bytes, NoMemory, Sequence};
use transforms::{Config, Names, name_with_ending};

// Adds the element of the name with this ending.
fn add(
    alloc: Global,
    names: &mut Sequence<Bytes>,
    draft: &mut Bytes,
    name: &[u8],
    ending: &str,
    content: &Content<'_>,
) -> Result<(), NoMemory>
    ensures names { OnOk result (names.new
        ≡ names.old ++ (name.now ++ ending.now) ∷ []) }
    ensures body { OnOk result (draft.new
        ≡ draft.old ++ line_text (name.now ++ ending.now, content_view content.now)) }
{
    let name = name_with_ending(alloc, name, ending)?;
    content.append_line(name.as_slice(), draft)?;
    names.push(name)?;
    Ok(())
}

/// The five names, and their elements in the draft; the family and the weight are those that are given.
pub(crate) fn typography_fragment<'a>(
    alloc: Global,
    draft: &mut Bytes,
    cfg: &Config,
    name: &[u8],
    value: &Typography<'_>,
    family: &Content<'_>,
    weight: &Content<'_>,
) -> Result<Names<'a>, NoMemory>
    requires { IsTypography value.now }
    ensures { IfOk result (λ names. IsFragment name.now
        (five_values cfg.now name.now value.now
        (content_view family.now) (content_view weight.now))
        (record { names = names; body = draft.new })) }
{
    let mut names = Sequence::new(alloc);
    draft.truncate(0);
    let size = size_content(cfg, DimenUnit::Sp, &value.size);
    let spacing = size_content(cfg, DimenUnit::Dp, &value.spacing);
    let height = Content::Item(value.line_height);
    add(alloc, &mut names, draft, name, "_font_family", family)?;
    add(alloc, &mut names, draft, name, "_font_size", &size)?;
    add(alloc, &mut names, draft, name, "_font_weight", weight)?;
    add(alloc, &mut names, draft, name, "_letter_spacing", &spacing)?;
    add(alloc, &mut names, draft, name, "_line_height", &height)?;
    Ok(Names::several(names))
}
