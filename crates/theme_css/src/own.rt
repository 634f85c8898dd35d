//! The lines of a permutation's own sheet.

ghost use Rattle.std.specs.Prelude.{◌≡◌, ◌≤◌, ◌<◌, ◌++◌, true, codes, IfOk, IfSome, IsTrue, fold};
ghost use Rattle.std.specs.Prelude.{ℕ, List, length, take};
ghost use Rattle.std.specs.List.{list_all};
ghost use Rattle.std.specs.Str.{bytes_eq};
ghost use Rattle.css_out.specs.Reading.{foot, head, in_name};
ghost use Rattle.css_out.specs.Spelling.{omitted_text};
ghost use Rattle.theme_css.specs.Cascade.{Declaration, initial};
ghost use Rattle.theme_css.specs.Sheet.{Declares, IsLine, IsValue, Lines, behind_plain, is_over, is_plain};
ghost use Rattle.theme_css.specs.Sheet.{line_text, next_standing};
ghost use Rattle.theme_css.specs.declared.own.Standing.TheVariants.{Plain};
ghost use Rattle.theme_css.specs.inner.Pages.{line_view, lines_view, ReadsOn};

use std::alloc::Global;
use tk_io::NoMemory;

/// A line that declares: a name, and the text of its value.
#[derive(Clone, Copy)]
pub(crate) struct Line<'o> {
    pub(crate) name: &'o [u8],
    pub(crate) value: &'o [u8],
}

/// Where a byte of a value stands.
#[derive(Clone, Copy)]
pub(crate) enum Standing {
    /// In no string.
    Plain,
    /// In no string, behind a `/`.
    Slashed,
    /// In a string.
    Quoted,
    /// In a string, behind a `\`.
    Escaped,
    /// Behind the value: a `;` ended it, or a comment began.
    Over,
}

// What stands behind a byte that stands in no string.
fn behind_plain(byte: u8) -> Standing
    ensures { result ≡ behind_plain byte }
{
    match byte {
        b';' => Standing::Over,
        b'"' => Standing::Quoted,
        b'/' => Standing::Slashed,
        _ => Standing::Plain,
    }
}

// Where the next byte stands.
fn behind(standing: Standing, byte: u8) -> Standing
    ensures { result ≡ next_standing standing byte }
{
    match standing {
        Standing::Plain => behind_plain(byte),
        Standing::Slashed => match byte {
            b'*' => Standing::Over,
            _ => behind_plain(byte),
        },
        Standing::Quoted => match byte {
            b'"' => Standing::Plain,
            b'\\' => Standing::Escaped,
            _ => Standing::Quoted,
        },
        Standing::Escaped => Standing::Quoted,
        Standing::Over => Standing::Over,
    }
}

fn is_over(standing: Standing) -> bool
    ensures { result ≡ is_over standing }
{
    match standing {
        Standing::Over => true,
        _ => false,
    }
}

// How long the value is with which the text begins; none where neither a `;` nor a comment ends it.
fn value_len(text: &[u8]) -> Option<usize>
    ensures { IfSome result (λ len. (len ≤ length text.now)
        × (is_plain (fold next_standing Plain (take len text.now)) ≡ true)) }
{
    let mut standing = Standing::Plain;
    for i in 0..text.len() {
        let next = behind(standing, text[i]);
        if is_over(next) {
            return Some(i);
        }
        standing = next;
    }
    None
}

fn in_name(byte: u8) -> bool
    ensures { result ≡ in_name byte }
{
    byte.is_ascii_alphanumeric() || byte == b'_' || byte == b'-'
}

// How long the name is with which the text begins.
fn name_len(text: &[u8]) -> usize
    ensures within { result ≤ length text.now }
    ensures name { list_all in_name (take result text.now) ≡ true }
{
    for i in 0..text.len() {
        if !in_name(text[i]) {
            return i;
        }
    }
    text.len()
}

// What stands behind the bytes, where the text begins with them.
fn after<'o>(text: &'o [u8], front: &[u8]) -> Option<&'o [u8]>
    ensures { IfSome result (λ rest. text.entry.now ≡ front.now ++ rest.now) }
{
    text.strip_prefix(front)
}

// What stands before the bytes, where the text ends with them.
fn before<'o>(text: &'o [u8], end: &[u8]) -> Option<&'o [u8]>
    ensures { IfSome result (λ rest. text.entry.now ≡ rest.now ++ end.now) }
{
    text.strip_suffix(end)
}

// A name with which the text begins, and what stands behind it.
fn split_name<'o>(text: &'o [u8]) -> (&'o [u8], &'o [u8])
    ensures whole { text.entry.now ≡ result.0.now ++ result.1.now }
    ensures name { list_all in_name result.0.now ≡ true }
{
    text.split_at(name_len(text))
}

/// Whether the text of a value says that a name has none.
pub(crate) fn is_initial(value: &[u8]) -> bool
    ensures { result ≡ bytes_eq value.now initial }
{
    value == b"initial".as_slice()
}

// A value with which the text begins, and what stands behind it; none of a value that says `initial`.
fn split_value<'o>(text: &'o [u8]) -> Option<(&'o [u8], &'o [u8])>
    ensures { IfSome result (λ parts. (text.entry.now ≡ parts.0.now ++ parts.1.now)
        × IsValue parts.0.now) }
{
    let len = value_len(text)?;
    let (value, behind) = text.split_at(len);
    if is_initial(value) {
        return None;
    }
    Some((value, behind))
}

// A declaration with which the text begins, and what stands behind its line.
fn declared_line<'o>(text: &'o [u8]) -> Option<(Line<'o>, &'o [u8])>
    ensures whole { IfSome result
        (λ r. text.entry.now ≡ line_text (line_view r.0) ++ r.1.now) }
    ensures line { IfSome result (λ r. IsLine (line_view r.0)) }
{
    let inside = after(text, b"  ")?;
    let (name, behind) = split_name(inside);
    let valued = after(behind, b": ")?;
    let (value, end) = split_value(valued)?;
    let rest = after(end, b";\n")?;
    Some((Line { name, value }, rest))
}

// What stands behind the line of a token that is omitted, where the text begins with one.
fn omitted_line<'o>(text: &'o [u8]) -> Option<&'o [u8]>
    ensures { IfSome result (λ rest. (name : List ℕ) × (list_all in_name name ≡ true)
        × (text.entry.now ≡ omitted_text name ++ rest.now)) }
{
    let named = after(text, b"  /* omitted ")?;
    let (_, behind) = split_name(named);
    after(behind, b" */\n")
}

// Adds the line with which the text begins, and hands back what stands behind it.
fn next_line<'o>(text: &'o [u8], lines: &mut Vec<Line<'o>>) -> Result<&'o [u8], NoMemory>
    ensures shorter { IfOk result (λ rest. length rest.now < length text.entry.now) }
    ensures reads { IfOk result (λ rest. ReadsOn text.entry.now rest.now
        (lines_view lines.old.items) (lines_view lines.new.items)) }
{
    match declared_line(text) {
        Some((line, rest)) => {
            lines.push(line)?;
            Ok(rest)
        }
        None => match omitted_line(text) {
            Some(rest) => Ok(rest),
            None => Err(NoMemory),
        },
    }
}

// What stands between the head and the foot of a sheet.
fn inside<'o>(sheet: &'o [u8]) -> Option<&'o [u8]>
    ensures { IfSome result (λ text. sheet.entry.now ≡ head ++ (text.now ++ foot)) }
{
    let behind = after(sheet, b":root {\n")?;
    before(behind, b"}\n")
}

/// What a permutation's own sheet declares, in its order.
///
/// # Errors
/// `NoMemory`. It is answered too of a sheet that does not read line by line; none of an output is such a sheet.
pub(crate) fn own_lines<'o>(alloc: Global, sheet: &'o [u8]) -> Result<Vec<Line<'o>>, NoMemory>
    ensures { IfOk result (λ lines. Declares sheet.entry.now (lines_view lines.items)) }
{
    let mut lines = Vec::new(alloc);
    let Some(mut rest) = inside(sheet) else {
        return Err(NoMemory);
    };
    while !rest.is_empty() {
        rest = next_line(rest, &mut lines)?;
    }
    Ok(lines)
}
