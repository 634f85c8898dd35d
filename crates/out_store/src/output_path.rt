//! Which paths outputs have.

ghost use Rattle.std.specs.Prelude.{◌≡◌};
ghost use Rattle.std.specs.Bool.{Decides};
ghost use Rattle.std.specs.List.{list_all};
ghost use Rattle.out_store.specs.Paths.{IsFileOf, IsOutputPath, is_name, is_name_byte};

// Whether the byte may stand in a permutation's name.
fn is_name_byte(b: u8) -> bool
    ensures { result ≡ is_name_byte b }
{
    b.is_ascii_alphanumeric() || b == b'_' || b == b'-' || b == b'%' || b == b'=' || b == b'+'
}

// Whether all bytes may.
fn has_name_bytes(name: &[u8]) -> bool
    ensures { result ≡ list_all is_name_byte name.now }
{
    name.iter().all(|b| is_name_byte(*b))
}

// Whether the bytes can be a permutation's name.
fn is_name(name: &[u8]) -> bool
    ensures { result ≡ is_name name.now }
{
    !name.is_empty() && has_name_bytes(name)
}

// Whether the path is that of this file of a permutation.
fn is_file_of(path: &[u8], file: &[u8]) -> bool
    ensures { Decides result (IsFileOf file.now path.now) }
{
    match path.strip_suffix(file) {
        Some(name) => is_name(name),
        None => false,
    }
}

/// Whether an output can have this path: `REFUSED`, or a permutation's name, `/` and `Tokens.swift`, `tokens.css`,
/// `tokens.json`, `tokens.xml` or `REFUSED`. A name is one or more ASCII letters, digits, `_`, `-`, `%`, `=` and `+`.
pub fn is_output_path(path: &[u8]) -> bool
    ensures { Decides result (IsOutputPath path.now) }
{
    if path == b"REFUSED".as_slice() {
        return true;
    }
    if is_file_of(path, b"/Tokens.swift") {
        return true;
    }
    if is_file_of(path, b"/tokens.css") {
        return true;
    }
    if is_file_of(path, b"/tokens.json") {
        return true;
    }
    if is_file_of(path, b"/tokens.xml") {
        return true;
    }
    is_file_of(path, b"/REFUSED")
}
