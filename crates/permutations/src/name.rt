//! The names of permutations, piece by piece.

ghost use Rattle.std.specs.Prelude.{◌≡◌, ◌++◌, ◌∷◌, [], ◌<◌, ◌/◌, ◌%◌, OnOk};
ghost use Rattle.std.specs.List.{list_all};
ghost use Rattle.std.specs.String.{string_bytes};
ghost use Rattle.tk_io.specs.Characters.{percent_sign};
ghost use Rattle.permutations.specs.Name.{is_unescaped, upper_digit, escaped_byte, escaped_name};

use tk_io::NoMemory;

// Whether the name of a permutation has this byte as it is.
fn is_unescaped(byte: u8) -> bool
    ensures { result ≡ is_unescaped byte }
{
    byte.is_ascii_alphanumeric() || byte == b'_' || byte == b'-'
}

// Whether the name of a permutation has all these bytes as they are.
fn are_unescaped(name: &[u8]) -> bool
    ensures { result ≡ list_all is_unescaped name.now }
{
    name.iter().all(|byte| is_unescaped(*byte))
}

fn upper_digit(d: u8) -> char
    requires { d < 16 }
    ensures ascii { result < 128 }
    ensures digit { result ≡ upper_digit d }
{
    char::from(if d < 10 { b'0' + d } else { b'A' - 10 + d })
}

fn append_escape(byte: u8, out: &mut String) -> Result<(), NoMemory>
    ensures { OnOk result (string_bytes out.new
        ≡ string_bytes out.old
        ++ percent_sign ∷ upper_digit (byte / 16) ∷ upper_digit (byte % 16) ∷ []) }
{
    out.push('%')?;
    out.push(upper_digit(byte / 16))?;
    out.push(upper_digit(byte % 16))?;
    Ok(())
}

fn append_byte(byte: u8, out: &mut String) -> Result<(), NoMemory>
    ensures { OnOk result (string_bytes out.new ≡ string_bytes out.old ++ escaped_byte byte) }
{
    if is_unescaped(byte) {
        out.push(char::from(byte))?;
        return Ok(());
    }
    append_escape(byte, out)
}

fn append_bytes(name: &[u8], out: &mut String) -> Result<(), NoMemory>
    ensures { OnOk result (string_bytes out.new ≡ string_bytes out.old ++ escaped_name name.now) }
{
    for byte in name {
        append_byte(*byte, out)?;
    }
    Ok(())
}

/// Appends the name, with `%` and two digits in place of each byte that a file's name does not take as it is.
pub(crate) fn append_escaped(name: &str, out: &mut String) -> Result<(), NoMemory>
    ensures { OnOk result (string_bytes out.new ≡ string_bytes out.old ++ escaped_name name.now) }
{
    if are_unescaped(name.as_bytes()) {
        out.push_str(name)?;
        return Ok(());
    }
    append_bytes(name.as_bytes(), out)
}
