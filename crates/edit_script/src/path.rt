//! Paths of files.

ghost use Rattle.std.specs.Prelude.{◌≡◌, ◌==◌};
ghost use Rattle.std.specs.List.{list_all, slice_split};
ghost use Rattle.edit_script.specs.Script.{is_dots, is_path, is_path_byte, is_segment};

use crate::cut::cut_at_first;

/// The most bytes of a path.
pub(crate) const LONGEST_PATH: usize = 200;

/// Whether the text is 1 to 200 bytes of segments joined by `/`, each of one or more ASCII letters, digits, `.`, `_` and
/// `-`, and none of them `.` or `..`.
pub fn is_path(path: &str) -> bool
    ensures { result ≡ is_path path.now }
{
    path.len() <= LONGEST_PATH && has_segments(path)
}

fn has_segments(path: &str) -> bool
    ensures { result ≡ list_all is_segment (slice_split (λ b. b == 47) path.now) }
{
    let mut rest = path;
    while let Some((segment, after)) = cut_at_first(rest, '/') {
        if !is_segment(segment) {
            return false;
        }
        rest = after;
    }
    is_segment(rest)
}

fn is_segment(segment: &str) -> bool
    ensures { result ≡ is_segment segment.now }
{
    if is_dots(segment) {
        return false;
    }
    !segment.is_empty() && has_path_bytes(segment)
}

fn has_path_bytes(segment: &str) -> bool
    ensures { result ≡ list_all is_path_byte segment.now }
{
    segment.bytes().all(is_path_byte)
}

fn is_dots(segment: &str) -> bool
    ensures { result ≡ is_dots segment.now }
{
    segment == "." || segment == ".."
}

fn is_path_byte(byte: u8) -> bool
    ensures { result ≡ is_path_byte byte }
{
    byte.is_ascii_alphanumeric() || byte == b'.' || byte == b'_' || byte == b'-'
}
