//! The text of a list of breaks.

ghost use Rattle.std.specs.Prelude.{◌≡◌, ◌++◌, IfOk, OnOk, codes, flat_map};
ghost use Rattle.refusals.specs.Refusal.{quoted_line};
ghost use Rattle.all_breaks.specs.Told.{entry_text, listing_text, told_break};
ghost use Rattle.all_breaks.specs.inner.Listing.{text_at};

use crate::told::{Names, Told};
use json_span::write_string_bytes;
use std::alloc::Global;
use tk_io::{Bytes, NoMemory, Text};

// The line of a permutation.
fn append_name(out: &mut Bytes, name: &Text<'_>) -> Result<(), NoMemory>
    ensures { OnOk result (out.new ≡ out.old ++ quoted_line (codes "in ") name.now) }
{
    out.append(b"in ")?;
    write_string_bytes(name.as_str().as_bytes(), out)?;
    out.append(b"\n")
}

// The lines of the permutations.
fn append_names(out: &mut Bytes, names: &Names<'_>) -> Result<(), NoMemory>
    ensures { OnOk result (out.new ≡ out.old ++ flat_map (quoted_line (codes "in ")) names.now) }
{
    for name in names.as_slice() {
        append_name(out, name)?;
    }
    Ok(())
}

// The lines of a break, behind those of its permutations.
fn append_entry(out: &mut Bytes, text: &[u8], names: &Names<'_>) -> Result<(), NoMemory>
    ensures { OnOk result (out.new ≡ out.old ++ entry_text (told_break text.now names.now)) }
{
    append_names(out, names)?;
    out.append(text)
}

// The i-th break, behind an empty line where it is not the first.
fn append_at(out: &mut Bytes, told: &Told<'_>, i: usize) -> Result<(), NoMemory>
    ensures { OnOk result (out.new ≡ out.old ++ text_at told.now i) }
{
    let Some((text, names)) = told.at(i) else {
        return Ok(());
    };
    if i > 0 {
        out.append(b"\n")?;
    }
    append_entry(out, text, names)
}

/// The text of the breaks, each as a refusal tells it: a line for each of its permutations, with its name, and the lines of
/// the break. An empty line stands between two of them.
pub fn listing(alloc: Global, told: &Told<'_>) -> Result<Bytes, NoMemory>
    ensures { IfOk result (λ b. b ≡ listing_text told.now) }
{
    let mut out = Bytes::new(alloc);
    for i in 0..told.len() {
        append_at(&mut out, told, i)?;
    }
    Ok(out)
}
