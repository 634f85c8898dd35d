//! The fragment of a token.

ghost use Rattle.std.specs.Prelude.{◌≡◌, [], ◌∷◌, ◌++◌, option_map, codes, OnOk, OnErr};
ghost use Rattle.std.specs.List.{flat_map};
ghost use Rattle.tk_io.specs.Characters.{full_stop};
ghost use Rattle.json_span.specs.Spelling.{inside_text, string_text};
ghost use Rattle.name_path.specs.Kinds.{kind_name};
ghost use Rattle.name_path.specs.Reference.{path_text};
ghost use Rattle.transforms.specs.View.{frame_view};
ghost use Rattle.composite_rules.specs.Sound.{IsTyped};
ghost use Rattle.json_out.specs.Properties.{extras_view, mark_json};
ghost use Rattle.json_out.specs.Spelling.{value_text, given_text, extras_text};
ghost use Rattle.json_out.specs.Spelling.{fragment_text};
ghost use Rattle.json_out.specs.Sheets.{json_frame, AreBytes, IsReadAsMember};

use crate::extras::Extras;
use crate::spelling::{Spell, spell_behind};
use crate::texts::are_bytes;
use composite_rules::Typed;
use json_span::{write_string, write_string_inside};
use name_path::{Kind, Path};
use tk_io::{Bytes, NoMemory, Text};
use token_tree::Mark;
use transforms::Frame;

/// What stands around and between the fragments of a file: one object, of which they are the members (RFC 8259 section 4).
pub const FRAME: Frame = Frame {
    head: b"{\n",
    glue: b",\n",
    last: b"\n",
    tail: b"}\n",
};

/// The frame, in which files are read.
pub fn frame() -> Frame
    ensures { frame_view result ≡ json_frame }
{
    FRAME
}

fn append_description(out: &mut Bytes, description: Option<&str>) -> Result<(), NoMemory>
    ensures { OnOk result (out.new
        ≡ out.old ++ given_text (codes "$description")
        (option_map string_text (option_map (λ t. t.now) description.entry))) }
{
    match description {
        Some(text) => {
            out.append(b", \"$description\": ")?;
            write_string(text, out)?;
            Ok(())
        }
        None => Ok(()),
    }
}

fn append_extensions(out: &mut Bytes, extensions: Option<&str>) -> Result<(), NoMemory>
    ensures { OnOk result (out.new
        ≡ out.old ++ given_text (codes "$extensions") (option_map (λ t. t.now) extensions.entry)) }
{
    match extensions {
        Some(text) => {
            out.append(b", \"$extensions\": ")?;
            out.append(text.as_bytes())?;
            Ok(())
        }
        None => Ok(()),
    }
}

fn append_mark(out: &mut Bytes, mark: &Mark<'_>) -> Result<(), NoMemory>
    ensures { OnOk result (out.new
        ≡ out.old ++ given_text (codes "$deprecated")
        (option_map value_text (mark_json mark.now))) }
{
    match mark {
        Mark::No => Ok(()),
        Mark::Yes => out.append(b", \"$deprecated\": true"),
        Mark::Because(reason) => spell_behind(out, b", \"$deprecated\": ", reason),
    }
}

// Appends what is said of a token beside its value: description, extensions, deprecation.
fn append_extras(out: &mut Bytes, extras: &Extras<'_>) -> Result<(), NoMemory>
    ensures { OnOk result (out.new ≡ out.old ++ extras_text (extras_view extras.now)) }
{
    append_description(out, extras.description)?;
    append_extensions(out, extras.extensions)?;
    append_mark(out, &extras.mark)?;
    Ok(())
}

// The insides of the names' strings, each after a point.
fn append_behind_points(out: &mut Bytes, names: &[Text<'_>]) -> Result<(), NoMemory>
    ensures { OnOk result (out.new
        ≡ out.old ++ flat_map (λ name. full_stop ∷ inside_text name) names.now) }
{
    for name in names {
        out.append(b".")?;
        write_string_inside(name.as_str(), out)?;
    }
    Ok(())
}

// The inside of the string of the path's names, joined by points.
fn append_path(out: &mut Bytes, path: &Path<'_>) -> Result<(), NoMemory>
    ensures { OnOk result (out.new ≡ out.old ++ inside_text (path_text path.now)) }
{
    let Some((first, others)) = path.as_slice().split_first() else {
        return Ok(());
    };
    write_string_inside(first.as_str(), out)?;
    append_behind_points(out, others)?;
    Ok(())
}

// What stands between a path and a value of this kind.
fn before_value(kind: Kind) -> &'static [u8]
    ensures { result.now
        ≡ codes "\": {\"$type\": \"" ++ (kind_name kind ++ codes "\", \"$value\": ") }
{
    match kind {
        Kind::Color => b"\": {\"$type\": \"color\", \"$value\": ",
        Kind::Dimension => b"\": {\"$type\": \"dimension\", \"$value\": ",
        Kind::FontFamily => b"\": {\"$type\": \"fontFamily\", \"$value\": ",
        Kind::FontWeight => b"\": {\"$type\": \"fontWeight\", \"$value\": ",
        Kind::Duration => b"\": {\"$type\": \"duration\", \"$value\": ",
        Kind::CubicBezier => b"\": {\"$type\": \"cubicBezier\", \"$value\": ",
        Kind::Number => b"\": {\"$type\": \"number\", \"$value\": ",
        Kind::StrokeStyle => b"\": {\"$type\": \"strokeStyle\", \"$value\": ",
        Kind::Border => b"\": {\"$type\": \"border\", \"$value\": ",
        Kind::Transition => b"\": {\"$type\": \"transition\", \"$value\": ",
        Kind::Shadow => b"\": {\"$type\": \"shadow\", \"$value\": ",
        Kind::Gradient => b"\": {\"$type\": \"gradient\", \"$value\": ",
        Kind::Typography => b"\": {\"$type\": \"typography\", \"$value\": ",
    }
}

// Appends a token's member.
fn append_member(
    out: &mut Bytes,
    path: &Path<'_>,
    typed: &Typed<'_>,
    extras: &Extras<'_>,
) -> Result<(), NoMemory>
    ensures { OnOk result (out.new
        ≡ out.old ++ fragment_text path.now typed.now (extras_view extras.now)) }
{
    out.append(b"  \"")?;
    append_path(out, path)?;
    out.append(before_value(typed.kind()))?;
    typed.spell(out)?;
    append_extras(out, extras)?;
    out.append(b"}")?;
    Ok(())
}

// Makes a token's member in the draft, in place of what stood there.
fn write_member(
    draft: &mut Bytes,
    path: &Path<'_>,
    typed: &Typed<'_>,
    extras: &Extras<'_>,
) -> Result<(), NoMemory>
    ensures { OnOk result (draft.new ≡ fragment_text path.now typed.now (extras_view extras.now)) }
{
    draft.truncate(0);
    append_member(draft, path, typed, extras)?;
    Ok(())
}

/// Leaves in the draft the member of a token in a JSON file: its path's names, joined by `.`, and an object of its type and
/// its value with all parts, and after them what is given of a description, extensions and a mark of deprecation. The
/// extensions stand as they are given, byte by byte. A member declares no name of a platform, so none is handed back.
///
/// The draft holds the member and nothing else, whatever it held before; on `NoMemory` it is empty. The text is read as this member and nothing else,
/// where the value is one that a token can have and the extensions are the text of a JSON value.
pub fn fragment(
    draft: &mut Bytes,
    path: &Path<'_>,
    typed: &Typed<'_>,
    extras: &Extras<'_>,
) -> Result<(), NoMemory>
    ensures bytes { AreBytes path.now typed.now (extras_view extras.now) }
    ensures body { OnOk result (draft.new
        ≡ fragment_text path.now typed.now (extras_view extras.now)) }
    ensures reads { IsTyped typed.now
        → OnOk result (IsReadAsMember path.now typed.now (extras_view extras.now) draft.new) }
    ensures cleared { OnErr result (draft.new ≡ []) }
{
    are_bytes(path, typed, extras);
    match write_member(draft, path, typed, extras) {
        Ok(()) => Ok(()),
        Err(NoMemory) => {
            *draft = draft.fresh();
            Err(NoMemory)
        }
    }
}
