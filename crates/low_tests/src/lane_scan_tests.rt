//! The scans over tables of texts, and against plain loops at every length from 0 to 130 and every start; runs of every such
//! length beside themselves and beside others.

use crate::checks::check_at;
use lane_scan::{are_same, count_newlines, first_special, last_newline, skip_blank};
use std::alloc::Global;

const LONGEST: usize = 130;

fn a_quote_is_found() -> bool {
    let mut quoted = [b'x'; 100];
    quoted[77] = b'"';
    first_special(&quoted, 0) == 77
        && first_special(&quoted, 78) == 100
        && last_newline(&quoted).is_none()
}

fn each_seventh_is_found() -> bool {
    let mut sevens = [b'x'; 1000];
    for i in 0..1000 {
        if i % 7 == 0 {
            sevens[i] = b'\n';
        }
    }
    count_newlines(&sevens) == 143 && last_newline(&sevens) == Some(994)
}

fn many_are_found(alloc: Global) -> bool {
    let Ok(newlines) = vec![in alloc; b'\n'; 100_000] else {
        return false;
    };
    count_newlines(newlines.as_slice()) == 100_000 && skip_blank(newlines.as_slice(), 0) == 100_000
}

#[test]
fn outside_examples(rt: HostRuntime) {
    assert!(rt; a_quote_is_found());
    assert!(rt; each_seventh_is_found());
    assert!(rt; many_are_found(rt.alloc()));
    assert!(rt; skip_blank(b" \t\n\r\x0c ", 0) == 4);
}

// So many bytes with another one at the end of each step.
fn marked(fill: u8, mark: u8, step: usize) -> [u8; LONGEST] {
    let mut text = [fill; LONGEST];
    for i in 0..LONGEST {
        if step > 0 && i % step == step - 1 {
            text[i] = mark;
        }
    }
    text
}

fn same_at_each_start(bytes: &[u8]) -> bool {
    for from in 0..bytes.len() + 1 {
        let special = first_special(bytes, from) == plain_special(bytes, from);
        if !special || skip_blank(bytes, from) != plain_blank(bytes, from) {
            return false;
        }
    }
    true
}

fn same_at_each_length(text: &[u8]) -> bool {
    for length in 0..LONGEST + 1 {
        let bytes = text.get(..length).unwrap_or(text);
        let newlines = count_newlines(bytes) as u64 == plain_count(bytes);
        if !newlines || last_newline(bytes) != plain_last(bytes) || !same_at_each_start(bytes) {
            return false;
        }
    }
    true
}

const FILLS: &[(u8, u8)] = &[
    (b'x', b'"'),
    (b'x', b'\\'),
    (b'x', 0x1f),
    (b'x', b'\n'),
    (b' ', b'x'),
    (b'\t', 0x0c),
    (b'\r', b'\n'),
    (b'\n', b'\r'),
];

const STEPS: &[usize] = &[1, 3, 31, 32, 33, 64, 97, 131];

#[test]
fn same_as_plain_loops(rt: HostRuntime) {
    for (fill, mark) in FILLS {
        for step in STEPS {
            check_at(
                &rt,
                same_at_each_length(&marked(*fill, *mark, *step)),
                *step,
            );
        }
    }
}

// Whether a run of this length is the same as itself, and is not once any one of its bytes is another.
fn same_but_for_one(length: usize) -> bool {
    let run = [b'x'; LONGEST];
    let ours = run.get(..length).unwrap_or(&run);
    for i in 0..length.min(LONGEST) {
        let mut other = [b'x'; LONGEST];
        other[i] = b'y';
        if are_same(ours, other.get(..length).unwrap_or(&other)) {
            return false;
        }
    }
    are_same(ours, ours) && (length == LONGEST || !are_same(ours, &run))
}

#[test]
fn runs_are_the_same_to_the_last_byte(rt: HostRuntime) {
    for length in 0..LONGEST + 1 {
        check_at(&rt, same_but_for_one(length), length);
    }
}

fn plain_special(bytes: &[u8], from: usize) -> usize {
    for i in from..bytes.len() {
        if bytes[i] == b'"' || bytes[i] == b'\\' || bytes[i] < 0x20 {
            return i;
        }
    }
    bytes.len()
}

fn plain_blank(bytes: &[u8], from: usize) -> usize {
    for i in from..bytes.len() {
        if bytes[i] != b' ' && bytes[i] != b'\t' && bytes[i] != b'\n' && bytes[i] != b'\r' {
            return i;
        }
    }
    bytes.len()
}

fn plain_count(bytes: &[u8]) -> u64 {
    let mut total = 0u64;
    for byte in bytes {
        if *byte == b'\n' {
            total = total.saturating_add(1);
        }
    }
    total
}

fn plain_last(bytes: &[u8]) -> Option<usize> {
    let mut last = None;
    for i in 0..bytes.len() {
        if bytes[i] == b'\n' {
            last = Some(i);
        }
    }
    last
}
