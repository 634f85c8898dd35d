//! Texts between quotes.

ghost use Rattle.std.specs.Prelude.{◌≡◌, ◌++◌, OnOk, OnErr};
ghost use Rattle.std.specs.List.{flat_map};
ghost use Rattle.tk_io.specs.Writing.{Extends};
ghost use Rattle.transforms.specs.Quoted.{is_printable_char, is_printable, escaped_character};

use tk_io::{Bytes, NoMemory};

fn is_printable_char(c: char) -> bool
    ensures { result ≡ is_printable_char c }
{
    let n = c as u32;
    n >= 32 && !(n == 127 || (n == 65534 || n == 65535))
}

/// Whether each character of the text can be printed: from U+0020 on, and not U+007F, U+FFFE or U+FFFF.
pub fn is_printable(text: &str) -> bool
    ensures { result ≡ is_printable text.now }
{
    text.chars().all(|c| is_printable_char(c))
}

fn append_escape(out: &mut Bytes, c: u8) -> Result<(), NoMemory>
    ensures ok { OnOk result (out.new ≡ out.old ++ escaped_character c) }
    ensures err { OnErr result (out.new ≡ out.old) }
{
    if c == b'"' || c == b'\\' {
        return out.append(&[b'\\', c]);
    }
    out.append(&[c])
}

/// Appends the text as it stands between quotes: with a `\` before each `"` and `\`; of a refusal a part may stay.
pub fn append_escaped(out: &mut Bytes, text: &[u8]) -> Result<(), NoMemory>
    ensures ok { OnOk result (out.new ≡ out.old ++ flat_map escaped_character text.now) }
    ensures err { OnErr result (Extends out.old out.new) }
{
    for c in text {
        append_escape(out, *c)?;
    }
    Ok(())
}
