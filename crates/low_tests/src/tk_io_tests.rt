//! Each call once on its happy path, and reading and writing where calls fail or take little.

use crate::checks::{check, check_at};
use std::alloc::Global;
use tk_io::{
    Bytes, CleanSource, MemSink, MemSource, NoMemory, NullSink, Outputs, ReadStop, Sequence,
    Source, StdSink, StdSource, Text, TextMap, behind, is_in, is_same, read_all, write_all,
};

// Whether a source is read, up to the limit, as these bytes.
fn reads_as(
    alloc: Global,
    src: &mut impl Source,
    limit: u32,
    expected: &[u8],
) -> Result<bool, ReadStop> {
    match read_all(alloc, src, limit as u64) {
        Ok(bytes) => Ok(bytes.as_slice() == expected),
        Err(stop) => Err(stop),
    }
}

// Whether reading five bytes up to the limit comes to this.
fn reads_five(alloc: Global, limit: u32, answer: Result<bool, ReadStop>) -> bool {
    let mut src = MemSource::new(b"abcde", &[]);
    reads_as(alloc, &mut src, limit, b"abcde") == answer
}

// Whether reading four bytes, where these calls fail, comes to this.
fn reads_four(alloc: Global, fails: &[u64], answer: Result<bool, ReadStop>) -> bool {
    let mut src = MemSource::new(b"abcd", fails);
    reads_as(alloc, &mut src, 4, b"abcd") == answer
}

fn reads_clean(alloc: Global) -> bool {
    let mut clean = CleanSource::new(b"ab");
    reads_as(alloc, &mut clean, 4, b"ab") == Ok(true)
}

// What reading five bytes up to a limit comes to.
const LIMITS: &[(u32, Result<bool, ReadStop>)] = &[
    (4, Err(ReadStop::TooLong)),
    (5, Ok(true)),
    (6, Ok(true)),
];

#[test]
fn reads_up_to_the_limit(rt: HostRuntime) {
    for (limit, answer) in LIMITS {
        check_at(
            &rt,
            reads_five(rt.alloc(), *limit, *answer),
            *limit as usize,
        );
    }
    assert!(rt; reads_four(rt.alloc(), &[], Ok(true)));
    assert!(rt; reads_four(rt.alloc(), &[1], Err(ReadStop::ReadFault)));
    assert!(rt; reads_clean(rt.alloc()));
}

// Whether a sink takes the pieces, all of them or not, and then holds what is expected.
fn takes(fails: &[u64], most: usize, room: &mut [u8], expected: &[u8], whole: bool) -> bool {
    let mut out = MemSink::new(fails, most.max(1), room);
    let done = write_all(&mut out, b"abc").is_ok()
        && write_all(&mut out, b"").is_ok()
        && write_all(&mut out, b"de").is_ok();
    done == whole && out.written() == expected
}

#[test]
fn writes_whole_pieces_and_single_bytes_alike(rt: HostRuntime) {
    assert!(rt; takes(&[], 1, &mut [0; 9], b"abcde", true));
    assert!(rt; takes(&[], 9, &mut [0; 9], b"abcde", true));
    assert!(rt; takes(&[3], 1, &mut [0; 9], b"ab", false));
    assert!(rt; takes(&[2], 9, &mut [0; 9], b"abc", false));
    assert!(rt; takes(&[], 9, &mut [0; 4], b"abcd", false));
    assert!(rt; write_all(&mut NullSink::new(), b"abc").is_ok());
}

// Whether a writer gets each piece that its sink is given.
fn hands_on(alloc: Global) -> bool {
    let mut held = Vec::new(alloc);
    let mut out = StdSink::new(&mut held);
    let done = write_all(&mut out, b"abc").is_ok() && write_all(&mut out, b"de").is_ok();
    drop(out);
    done && held.as_slice() == b"abcde".as_slice()
}

fn takes_over(alloc: Global) -> bool {
    let mut src = StdSource::new(b"abcde".as_slice());
    reads_as(alloc, &mut src, 5, b"abcde") == Ok(true)
}

#[test]
fn readers_and_writers_are_sources_and_sinks(rt: HostRuntime) {
    assert!(rt; takes_over(rt.alloc()));
    assert!(rt; hands_on(rt.alloc()));
    let mut input = StdSource::new(rt.stdin());
    assert!(rt; read_all(rt.alloc(), &mut input, 1000).is_ok());
    let mut output = StdSink::new(rt.stdout());
    assert!(rt; write_all(&mut output, b"\n").is_ok());
}

const HELD: &[(u8, bool)] = &[
    (0, false),
    (1, true),
    (2, false),
    (4, true),
    (9, true),
    (10, false),
];

#[test]
fn a_list_in_order_is_looked_through(rt: HostRuntime) {
    for (item, held) in HELD {
        check_at(
            &rt,
            is_in([1u8, 4, 9].as_slice(), item) == *held,
            *item as usize,
        );
    }
    assert!(rt; !is_in([].as_slice(), &1u8));
}

// As many bytes as are looked at one by one, and one more.
const LONG: &str = "a name of thirty-three characters";

// Texts, and whether they are the same.
const PAIRS: &[(&str, &str, bool)] = &[
    ("", "", true),
    ("a", "a", true),
    ("a", "b", false),
    ("ab", "a", false),
    ("ab", "bb", false),
    ("ab", "aa", false),
    (LONG, "a name of thirty-three characters", true),
    (LONG, "a name of thirty-three characterS", false),
];

#[test]
fn texts_are_compared(rt: HostRuntime) {
    for (i, (left, right, same)) in PAIRS.iter().enumerate() {
        check_at(&rt, is_same(left, right) == *same, i);
        let order = Text::of(left).cmp(&Text::of(right));
        check_at(&rt, order == left.cmp(right), i);
    }
}

fn hold_two_pieces(bytes: &mut Bytes) -> bool {
    bytes.append(b"ab").is_ok()
        && bytes.as_slice() == b"ab".as_slice()
        && bytes.fresh().is_empty()
        && bytes.append(b"cd").is_ok()
        && bytes.all_or_nothing(2, Ok(())).is_ok()
}

// Whether four bytes are cut to three and, behind a refusal, to one.
fn are_cut_off(bytes: &mut Bytes) -> bool {
    bytes.truncate(3);
    bytes.as_slice() == b"abc".as_slice()
        && bytes.all_or_nothing(1, Err(NoMemory)).is_err()
        && bytes.as_slice() == b"a".as_slice()
}

#[test]
fn bytes_hold_what_was_put(rt: HostRuntime) {
    let mut bytes = Bytes::new(rt.alloc());
    assert!(rt; hold_two_pieces(&mut bytes) && are_cut_off(&mut bytes));
}

// Whether a copy is the same text.
fn is_copied(text: &Text<'_>, expected: &str) -> bool {
    match text.copy() {
        Ok(copy) => copy.as_str() == expected && copy == Text::of(expected),
        Err(_) => false,
    }
}

fn copies(alloc: Global, text: &str) -> bool {
    match Text::owned(alloc, text) {
        Ok(owned) => is_copied(&owned, text),
        Err(_) => false,
    }
}

fn texts_stand_in_order() -> bool {
    Text::of("a") < Text::of("ab") && Text::default() < Text::of("a")
}

#[test]
fn texts_are_copied_and_stand_in_order(rt: HostRuntime) {
    assert!(rt; copies(rt.alloc(), "ab"));
    assert!(rt; texts_stand_in_order());
}

fn holds_one(list: &mut Sequence<u8>) -> bool {
    list.is_empty()
        && list.push(7).is_ok()
        && list.len() == 1
        && list.at(0) == Some(&7)
        && list.at(1).is_none()
        && list.as_slice() == [7].as_slice()
}

#[test]
fn lists_hold_what_was_put(rt: HostRuntime) {
    assert!(rt; holds_one(&mut Sequence::new(rt.alloc())));
}

// Whether these are the pieces, with `|` after each.
fn are_pieces(pieces: &[Text<'_>], cut: &str) -> bool {
    let mut rest = cut;
    for piece in pieces {
        let Some(after) = rest.strip_prefix(piece.as_str()) else {
            return false;
        };
        let Some(after) = after.strip_prefix('|') else {
            return false;
        };
        rest = after;
    }
    rest.is_empty()
}

// Whether the text between the brackets has these pieces between its commas; none where there are no brackets.
fn has_pieces(alloc: Global, text: &Text<'_>, cut: &str) -> bool {
    let Ok(found) = text.inside(alloc, '[', ']') else {
        return false;
    };
    let Some(inside) = found else {
        return cut.is_empty();
    };
    match inside.split(alloc, ',') {
        Ok(pieces) => are_pieces(pieces.as_slice(), cut),
        Err(_) => false,
    }
}

// The text, owned.
fn owned(alloc: Global, text: &str) -> Result<Text<'static>, NoMemory> {
    Text::from_string(String::from_str(alloc, text)?)
}

// Whether a text has these pieces, borrowed and owned alike.
fn is_cut(alloc: Global, text: &str, cut: &str) -> bool {
    match owned(alloc, text) {
        Ok(again) => has_pieces(alloc, &Text::of(text), cut) && has_pieces(alloc, &again, cut),
        Err(_) => false,
    }
}

const CUT: &[(&str, &str)] = &[
    ("[a,b]", "a|b|"),
    ("[]", "|"),
    ("[ä,,]", "ä|||"),
    ("[a", ""),
    ("a]", ""),
    ("[", ""),
];

#[test]
fn texts_are_cut_into_pieces(rt: HostRuntime) {
    for (text, cut) in CUT {
        check(&rt, is_cut(rt.alloc(), text, cut), text);
    }
    assert!(rt; behind("#a", '#') == Some("a") && behind("a", '#').is_none());
}

fn is_put(outputs: &mut Outputs, alloc: Global, path: &str, body: &str) -> bool {
    let mut bytes = Bytes::new(alloc);
    bytes.append(body.as_bytes()).is_ok() && outputs.insert(path, bytes).is_ok()
}

// Whether these are "o/x" with "c" and "p" with "b".
fn are_two(outputs: &Outputs) -> bool {
    outputs.at(0) == Some(("o/x", b"c".as_slice()))
        && outputs.get("p") == Some(b"b".as_slice())
        && outputs.at(2).is_none()
        && outputs.len() == 2
        && outputs.entries().len() == 2
}

fn keep_the_last(outputs: &mut Outputs, alloc: Global) -> bool {
    outputs.is_empty()
        && is_put(outputs, alloc, "p", "a")
        && is_put(outputs, alloc, "p", "b")
        && is_put(outputs, alloc, "o/x", "c")
}

#[test]
fn outputs_keep_the_last_body_in_byte_order(rt: HostRuntime) {
    let mut outputs = Outputs::new(rt.alloc());
    assert!(rt; keep_the_last(&mut outputs, rt.alloc()) && are_two(&outputs));
}

// Whether these are the entries, in this order.
fn entries_are(map: &TextMap<u8>, entries: &[(&str, u8)]) -> bool {
    for (i, (key, value)) in entries.iter().enumerate() {
        if map.at(i) != Some((*key, value)) {
            return false;
        }
    }
    map.len() == entries.len() && map.is_empty() == entries.is_empty()
}

fn are_put(map: &mut TextMap<u8>, entries: &[(&str, u8)]) -> bool {
    for (key, value) in entries {
        if map.put(key, *value).is_err() {
            return false;
        }
    }
    true
}

fn loses_one(map: &mut TextMap<u8>) -> bool {
    let put = are_put(map, &[("a", 1), ("a", 2)]) && map.get("a") == Some(&2);
    map.del("b");
    let kept = entries_are(map, &[("a", 2)]);
    map.del("a");
    put && kept && entries_are(map, &[]) && map.at(0).is_none()
}

fn loses_one_of_more(map: &mut TextMap<u8>) -> bool {
    let put = are_put(map, &[("m", 1), ("z", 2), ("b", 3), ("n", 4), ("b", 5)]);
    map.del("m");
    put && entries_are(map, &[("b", 5), ("n", 4), ("z", 2)])
}

#[test]
fn maps_keep_and_lose_values(rt: HostRuntime) {
    let mut map: TextMap<u8> = TextMap::new(rt.alloc());
    assert!(rt; loses_one(&mut map) && loses_one_of_more(&mut map));
}
