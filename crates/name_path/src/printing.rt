//! The texts of paths and places.

ghost use Rattle.std.specs.Prelude.{◌≡◌, ◌++◌, ◌∷◌, OnOk, OnErr};
ghost use Rattle.std.specs.List.{flat_map};
ghost use Rattle.tk_io.specs.Writing.{Extends};
ghost use Rattle.name_path.specs.Reference.{escaped_step, path_text, pointer_text, place_text};

use crate::escapes::append_escaped;
use crate::{Path, Place};
use tk_io::{Bytes, NoMemory, Text};

fn append_behind_points(names: &[Text<'_>], out: &mut Bytes) -> Result<(), NoMemory>
    ensures ok { OnOk result (out.new ≡ out.old ++ flat_map (λ name. 46 ∷ name) names.now) }
    ensures err { OnErr result (Extends out.old out.new) }
{
    for name in names {
        out.append(b".")?;
        out.append(name.as_str().as_bytes())?;
    }
    Ok(())
}

fn append_path(names: &[Text<'_>], out: &mut Bytes) -> Result<(), NoMemory>
    ensures ok { OnOk result (out.new ≡ out.old ++ path_text names.now) }
    ensures err { OnErr result (Extends out.old out.new) }
{
    let Some((first, rest)) = names.split_first() else {
        return Ok(());
    };
    out.append(first.as_str().as_bytes())?;
    append_behind_points(rest, out)
}

fn append_steps(steps: &[Text<'_>], out: &mut Bytes) -> Result<(), NoMemory>
    ensures ok { OnOk result
        (out.new ≡ out.old ++ flat_map (λ step. 47 ∷ escaped_step step) steps.now) }
    ensures err { OnErr result (Extends out.old out.new) }
{
    for step in steps {
        out.append(b"/")?;
        append_escaped(step.as_str(), out)?;
    }
    Ok(())
}

fn append_pointer(steps: &[Text<'_>], out: &mut Bytes) -> Result<(), NoMemory>
    ensures ok { OnOk result (out.new ≡ out.old ++ pointer_text steps.now) }
    ensures err { OnErr result (Extends out.old out.new) }
{
    out.append(b"#")?;
    append_steps(steps, out)
}

fn append_place(place: &Place<'_>, out: &mut Bytes) -> Result<(), NoMemory>
    ensures ok { OnOk result (out.new ≡ out.old ++ place_text place.now) }
    ensures err { OnErr result (Extends out.old out.new) }
{
    append_pointer(place.token.as_slice(), out)?;
    out.append(b"/$value")?;
    append_steps(place.trail.as_slice(), out)
}

/// Appends the names joined by `.`. Where memory runs out nothing is appended.
pub fn print_path(path: &Path<'_>, out: &mut Bytes) -> Result<(), NoMemory>
    ensures ok { OnOk result (out.new ≡ out.old ++ path_text path.now) }
    ensures err { OnErr result (out.new ≡ out.old) }
{
    let start = out.len();
    let appended = append_path(path.as_slice(), out);
    out.all_or_nothing(start, appended)
}

/// Appends the pointer to a group: `#`, and each name after a `/`. Where memory runs out nothing is appended.
pub fn print_group(path: &Path<'_>, out: &mut Bytes) -> Result<(), NoMemory>
    ensures ok { OnOk result (out.new ≡ out.old ++ pointer_text path.now) }
    ensures err { OnErr result (out.new ≡ out.old) }
{
    let start = out.len();
    let appended = append_pointer(path.as_slice(), out);
    out.all_or_nothing(start, appended)
}

/// Appends the pointer to a place: `#`, each name after a `/`, `/$value`, and each step after a `/`. Where memory runs
/// out nothing is appended.
pub fn print_place(place: &Place<'_>, out: &mut Bytes) -> Result<(), NoMemory>
    ensures ok { OnOk result (out.new ≡ out.old ++ place_text place.now) }
    ensures err { OnErr result (out.new ≡ out.old) }
{
    let start = out.len();
    let appended = append_place(place, out);
    out.all_or_nothing(start, appended)
}
