//! What is printed of a refusal. Where memory runs out while a line is appended, a part of it may stay.

ghost use Rattle.std.specs.Prelude.{◌≡◌, ◌+◌, ◌++◌, ◌∷◌, [], IfOk, OnOk, OnErr, codes, take, flat_map};
ghost use Rattle.std.specs.Fmt.{decimal};
ghost use Rattle.tk_io.specs.Writing.{Extends};
ghost use Rattle.name_path.specs.Reference.{path_text, place_text, pointer_text};
ghost use Rattle.refusals.specs.Refusal.{rule_name, line_of, column_of, refusal_text, file_text, report, report_text, quoted_line, platform_name, detail_line, lost_group, ring_group, counted, of_token, at_place, ring_place, other_token, on_platform, of_key, ring_set};

use crate::rule::Rule;
use file_plan::Files;
use group_inherit::FileSpan;
use itoa::Buffer;
use json_span::write_string_bytes;
use lane_scan::{count_newlines, last_newline};
use name_path::{Path, Paths, Place, Ring, Trail, print_group, print_path, print_place};
use std::alloc::Global;
use tk_io::{Bytes, NoMemory, Text};
use transforms::Platform;

// What stands before the place.
fn before(bytes: &[u8], start: usize) -> &[u8]
    ensures { result.now ≡ take start bytes.now }
{
    if start < bytes.len() {
        &bytes[..start]
    } else {
        bytes
    }
}

// The line and the column of a place, counted from 1; columns are bytes.
fn line_of(bytes: &[u8], start: usize) -> usize
    ensures { result ≡ line_of bytes.now start }
{
    count_newlines(before(bytes, start)) + 1
}

fn column_of(bytes: &[u8], start: usize) -> usize
    ensures { result ≡ column_of bytes.now start }
{
    let front = before(bytes, start);
    match last_newline(front) {
        Some(i) => front.len() - i,
        None => front.len() + 1,
    }
}

// Appends a number in decimal digits.
fn append_number(out: &mut Bytes, n: usize) -> Result<(), NoMemory>
    ensures { OnOk result (out.new ≡ out.old ++ decimal n) }
{
    let mut buffer = Buffer::new();
    out.append(buffer.format(n).as_bytes())
}

// The first two lines.
fn append_rule(out: &mut Bytes, rule: Rule, file: &str) -> Result<(), NoMemory>
    ensures { OnOk result (out.new ≡ out.old
        ++ (codes "rule " ++ rule_name rule ++ codes "\nfile " ++ file.now)) }
{
    out.append(b"rule ")?;
    out.append(rule.name())?;
    out.append(b"\nfile ")?;
    out.append(file.as_bytes())?;
    Ok(())
}

// The third line.
fn append_line_and_column(out: &mut Bytes, text: &str, start: usize) -> Result<(), NoMemory>
    ensures { OnOk result (out.new ≡ out.old ++ (codes "\nline " ++ decimal (line_of text.now start)
        ++ codes " column " ++ decimal (column_of text.now start))) }
{
    out.append(b"\nline ")?;
    append_number(out, line_of(text.as_bytes(), start))?;
    out.append(b" column ")?;
    append_number(out, column_of(text.as_bytes(), start))?;
    Ok(())
}

// The last line.
fn append_span(out: &mut Bytes, start: usize, end: usize) -> Result<(), NoMemory>
    ensures { OnOk result (out.new ≡ out.old
        ++ (codes "\nbytes " ++ decimal start ++ codes " " ++ decimal end ++ codes "\n")) }
{
    out.append(b"\nbytes ")?;
    append_number(out, start)?;
    out.append(b" ")?;
    append_number(out, end)?;
    out.append(b"\n")?;
    Ok(())
}

// The rule, the file's name, and the line, column and bytes of a span in the file's text.
fn refusal_text(
    alloc: Global,
    rule: Rule,
    file: &str,
    text: &str,
    start: usize,
    end: usize,
) -> Result<Bytes, NoMemory>
    ensures { IfOk result (λ b. b ≡ refusal_text rule file.now text.now start end) }
{
    let mut out = Bytes::new(alloc);
    append_rule(&mut out, rule, file)?;
    append_line_and_column(&mut out, text, start)?;
    append_span(&mut out, start, end)?;
    Ok(out)
}

/// The text of a file; of an absent one it is empty.
pub fn file_text<'s>(files: &Files<'s>, file: &str) -> &'s str
    ensures { result.now ≡ file_text files.now file.now }
{
    files.get(file).unwrap_or("")
}

/// What is printed of a rule that is broken at a span of a file, of which nothing else is said so far.
pub fn refuse(
    alloc: Global,
    files: &Files<'_>,
    rule: Rule,
    file: &str,
    start: usize,
    end: usize,
) -> Result<Bytes, NoMemory>
    ensures { IfOk result (λ b. b ≡ report_text files.now (report rule file.now start end [])) }
{
    refusal_text(alloc, rule, file, file_text(files, file), start, end)
}

/// The same of a span with its file.
pub fn refuse_span(
    alloc: Global,
    files: &Files<'_>,
    rule: Rule,
    span: &FileSpan<'_>,
) -> Result<Bytes, NoMemory>
    ensures { IfOk result (λ b. b
        ≡ report_text files.now (report rule span.now.file span.now.start span.now.end [])) }
{
    refuse(alloc, files, rule, span.file, span.start, span.end)
}

// A word, and a text as a JSON string.
fn append_quoted(out: &mut Bytes, word: &[u8], text: &[u8]) -> Result<(), NoMemory>
    ensures ok { OnOk result (out.new ≡ out.old ++ quoted_line word.now text.now) }
    ensures err { OnErr result (Extends out.old out.new) }
{
    out.append(word)?;
    write_string_bytes(text, out)?;
    out.append(b"\n")
}

// A word, and the pointer to a group.
fn append_group(out: &mut Bytes, word: &[u8], group: &Path<'_>) -> Result<(), NoMemory>
    ensures ok { OnOk result (out.new ≡ out.old ++ quoted_line word.now (pointer_text group.now)) }
    ensures err { OnErr result (Extends out.old out.new) }
{
    let mut pointer = out.fresh();
    print_group(group, &mut pointer)?;
    append_quoted(out, word, pointer.as_slice())
}

// A word, and the path of a token.
fn append_path(out: &mut Bytes, word: &[u8], path: &Path<'_>) -> Result<(), NoMemory>
    ensures ok { OnOk result (out.new ≡ out.old ++ quoted_line word.now (path_text path.now)) }
    ensures err { OnErr result (Extends out.old out.new) }
{
    let mut text = out.fresh();
    print_path(path, &mut text)?;
    append_quoted(out, word, text.as_slice())
}

// A word, and the pointer to a place.
fn append_pointer(out: &mut Bytes, word: &[u8], place: &Place<'_>) -> Result<(), NoMemory>
    ensures ok { OnOk result (out.new ≡ out.old ++ quoted_line word.now (place_text place.now)) }
    ensures err { OnErr result (Extends out.old out.new) }
{
    let mut pointer = out.fresh();
    print_place(place, &mut pointer)?;
    append_quoted(out, word, pointer.as_slice())
}

/// The line of the group that names a lost target.
pub fn append_lost_group(out: &mut Bytes, group: &Path<'_>) -> Result<(), NoMemory>
    ensures ok { OnOk result (out.new ≡ out.old ++ detail_line (lost_group group.now)) }
    ensures err { OnErr result (Extends out.old out.new) }
{
    append_group(out, b"place ", group)
}

/// A line for each group of a ring.
pub fn append_ring_groups(out: &mut Bytes, ring: &Paths<'_>) -> Result<(), NoMemory>
    ensures ok { OnOk result (out.new ≡ out.old
        ++ flat_map (λ group. detail_line (ring_group group)) ring.now) }
    ensures err { OnErr result (Extends out.old out.new) }
{
    for group in ring.as_slice() {
        append_group(out, b"ring ", group)?;
    }
    Ok(())
}

/// The line of a count.
pub fn append_count(out: &mut Bytes, count: u64) -> Result<(), NoMemory>
    ensures ok { OnOk result (out.new ≡ out.old ++ detail_line (counted count)) }
    ensures err { OnErr result (Extends out.old out.new) }
{
    let mut buffer = Buffer::new();
    out.append(b"count ")?;
    out.append(buffer.format(count).as_bytes())?;
    out.append(b"\n")
}

/// The line of the token whose verdict it is.
pub fn append_token(out: &mut Bytes, path: &Path<'_>) -> Result<(), NoMemory>
    ensures ok { OnOk result (out.new ≡ out.old ++ detail_line (of_token path.now)) }
    ensures err { OnErr result (Extends out.old out.new) }
{
    append_path(out, b"token ", path)
}

/// The line of the place where a rule is broken.
pub fn append_place(out: &mut Bytes, place: &Place<'_>) -> Result<(), NoMemory>
    ensures ok { OnOk result (out.new ≡ out.old ++ detail_line (at_place place.now)) }
    ensures err { OnErr result (Extends out.old out.new) }
{
    append_pointer(out, b"place ", place)
}

/// A line for each place of a ring.
pub fn append_ring_places(out: &mut Bytes, ring: &Ring<'_>) -> Result<(), NoMemory>
    ensures ok { OnOk result (out.new ≡ out.old
        ++ flat_map (λ place. detail_line (ring_place place)) ring.now) }
    ensures err { OnErr result (Extends out.old out.new) }
{
    for place in ring.as_slice() {
        append_pointer(out, b"ring ", place)?;
    }
    Ok(())
}

/// The line of the earlier token that has the name.
pub fn append_other(out: &mut Bytes, path: &Path<'_>) -> Result<(), NoMemory>
    ensures ok { OnOk result (out.new ≡ out.old ++ detail_line (other_token path.now)) }
    ensures err { OnErr result (Extends out.old out.new) }
{
    append_path(out, b"other ", path)
}

fn platform_name(platform: Platform) -> &'static [u8]
    ensures { result.now ≡ platform_name platform }
{
    match platform {
        Platform::Css => b"css",
        Platform::Android => b"android",
        Platform::Swift => b"swift",
    }
}

/// The line of the platform on which two tokens have one name.
pub fn append_platform(out: &mut Bytes, platform: Platform) -> Result<(), NoMemory>
    ensures ok { OnOk result (out.new ≡ out.old ++ detail_line (on_platform platform)) }
    ensures err { OnErr result (Extends out.old out.new) }
{
    out.append(b"platform ")?;
    out.append(platform_name(platform))?;
    out.append(b"\n")
}

/// The line of a refused key.
pub fn append_key(out: &mut Bytes, key: &[u8]) -> Result<(), NoMemory>
    ensures ok { OnOk result (out.new ≡ out.old ++ detail_line (of_key key.now)) }
    ensures err { OnErr result (Extends out.old out.new) }
{
    append_quoted(out, b"key ", key)
}

// Where a set stands in a resolver document.
fn set_path<'t>(alloc: Global, name: &'t str) -> Result<Path<'t>, NoMemory>
    ensures { IfOk result (λ path. path ≡ codes "sets" ∷ name.entry.now ∷ []) }
{
    let mut path = Path::new(alloc);
    path.push(Text::of("sets"))?;
    path.push(Text::of(name))?;
    Ok(path)
}

// The line of a set of a ring.
fn append_set(alloc: Global, out: &mut Bytes, name: &Text<'_>) -> Result<(), NoMemory>
    ensures ok { OnOk result (out.new ≡ out.old ++ detail_line (ring_set name.now)) }
    ensures err { OnErr result (Extends out.old out.new) }
{
    let path = set_path(alloc, name.as_str())?;
    append_group(out, b"ring ", &path)?;
    Ok(())
}

/// A line for each set of a ring.
pub fn append_ring_sets(alloc: Global, out: &mut Bytes, ring: &Trail<'_>) -> Result<(), NoMemory>
    ensures ok { OnOk result (out.new ≡ out.old
        ++ flat_map (λ name. detail_line (ring_set name)) ring.now) }
    ensures err { OnErr result (Extends out.old out.new) }
{
    for name in ring.as_slice() {
        append_set(alloc, out, name)?;
    }
    Ok(())
}
