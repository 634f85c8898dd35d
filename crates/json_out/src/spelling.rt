//! JSON values in one buffer.

ghost use Rattle.std.specs.Prelude.{◌≡◌, true, [], ◌++◌, codes, map, OnOk};
ghost use Rattle.std.specs.List.{flat_map};
ghost use Rattle.json_span.specs.Plain.{plain_boolean, plain_number, plain_string};
ghost use Rattle.json_span.specs.Spelling.{are_plain, string_text};
ghost use Rattle.json_out.specs.PlatformValue.{Json, array_json};
ghost use Rattle.json_out.specs.Spelling.{value_text};

use dec_fix::Dec;
use json_span::write_string;
use tk_io::{Bytes, NoMemory, Text};

/// What has a JSON value.
pub(crate) trait Spell {
    ghost json: { Self → Json };

    /// Appends the value.
    fn spell(&self, out: &mut Bytes) -> Result<(), NoMemory>
        ensures { OnOk result (out.new ≡ out.old ++ value_text (json self.now)) };
}

impl Spell for Dec {
    ghost json = { plain_number };

    fn spell(&self, out: &mut Bytes) -> Result<(), NoMemory> {
        self.write(out)
    }
}

impl Spell for bool {
    ghost json = { plain_boolean };

    fn spell(&self, out: &mut Bytes) -> Result<(), NoMemory> {
        if *self {
            return out.append(b"true");
        }
        out.append(b"false")
    }
}

impl<'s> Spell for Text<'s> {
    ghost json = { plain_string };

    fn spell(&self, out: &mut Bytes) -> Result<(), NoMemory> {
        write_string(self.as_str(), out)
    }
}

/// A word whose characters stand for themselves in a string.
pub(crate) fn spell_word(out: &mut Bytes, word: &str) -> Result<(), NoMemory>
    requires { are_plain word.now ≡ true }
    ensures { OnOk result (out.new ≡ out.old ++ string_text word.now) }
{
    out.append(b"\"")?;
    out.append(word.as_bytes())?;
    out.append(b"\"")?;
    Ok(())
}

/// The value after these bytes.
pub(crate) fn spell_behind<T: Spell>(
    out: &mut Bytes,
    before: &[u8],
    value: &T,
) -> Result<(), NoMemory>
    ensures { OnOk result (out.new ≡ out.old ++ (before.now ++ value_text (T.json value.now))) }
{
    out.append(before)?;
    value.spell(out)?;
    Ok(())
}

// The items, each after a comma.
fn spell_others<T: Spell>(out: &mut Bytes, items: &[T]) -> Result<(), NoMemory>
    ensures { OnOk result (out.new
        ≡ out.old ++ flat_map (λ x. codes ", " ++ value_text (T.json x)) items.now) }
{
    for item in items {
        out.append(b", ")?;
        item.spell(out)?;
    }
    Ok(())
}

/// The array of the items.
pub(crate) fn spell_list<T: Spell>(out: &mut Bytes, items: &[T]) -> Result<(), NoMemory>
    ensures { OnOk result (out.new ≡ out.old ++ value_text (array_json (map T.json items.now))) }
{
    let Some((first, others)) = items.split_first() else {
        return out.append(b"[]");
    };
    spell_behind(out, b"[", first)?;
    spell_others(out, others)?;
    out.append(b"]")?;
    Ok(())
}

/// The array of the items after these bytes.
pub(crate) fn list_behind<T: Spell>(
    out: &mut Bytes,
    before: &[u8],
    items: &[T],
) -> Result<(), NoMemory>
    ensures { OnOk result (out.new
        ≡ out.old ++ (before.now ++ value_text (array_json (map T.json items.now)))) }
{
    out.append(before)?;
    spell_list(out, items)?;
    Ok(())
}
