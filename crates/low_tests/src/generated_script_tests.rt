//! Generated scripts: lines, lengths and sums that an independent program gives.

use crate::checks::check_at;
use edit_script::{Event, Events, read_script};
use generated_script::{MOST_TOKENS, gen_script};
use std::alloc::Global;
use std::str;
use tk_io::Bytes;

// The lines of the least script up to its first edit, but for the text of `resolver.json`.
const LEAST: &[&str] = &[
    "tokc-script 1",
    "put resolver.json 383",
    "",
    "put core.json 67",
    r#"{"t":{"$type":"dimension","n0":{"$value":{"value":0,"unit":"px"}}}}"#,
    "put light.json 39",
    r#"{"theme":{"$type":"number","$value":1}}"#,
    "put dark.json 39",
    r#"{"theme":{"$type":"number","$value":2}}"#,
    "put cozy.json 38",
    r#"{"dens":{"$type":"number","$value":1}}"#,
    "put compact.json 38",
    r#"{"dens":{"$type":"number","$value":2}}"#,
    "commit",
    "put core.json 69",
    r#"{"t":{"$type":"dimension","n0":{"$value":{"value":101,"unit":"px"}}}}"#,
];

// The script of the numbers, with ample memory.
fn script_of(alloc: Global, seed: u32, size: u32) -> Option<Bytes> {
    if size < 1 || size > MOST_TOKENS {
        return None;
    }
    gen_script(alloc, seed, size).ok()
}

// Whether the text begins with these lines; an empty one stands for any.
fn begins_with(bytes: &[u8], lines: &[&str]) -> bool {
    let Ok(text) = str::from_utf8(bytes) else {
        return false;
    };
    for (line, expected) in text.split('\n').zip(lines.iter()) {
        if !expected.is_empty() && line != *expected {
            return false;
        }
    }
    true
}

fn the_least_has_its_lines(alloc: Global) -> bool {
    match script_of(alloc, 0, 1) {
        Some(script) => begins_with(script.as_slice(), LEAST),
        None => false,
    }
}

#[test]
fn the_least_script_has_these_lines(rt: HostRuntime) {
    assert!(rt; the_least_has_its_lines(rt.alloc()));
}

// A sum of all bytes by their places.
fn sum_of(bytes: &[u8]) -> u32 {
    let mut sum = 0u32;
    for byte in bytes {
        sum = sum.wrapping_mul(31).wrapping_add(u32::from(*byte));
    }
    sum
}

// A seed, a size, the script's length, and the sum of its bytes.
const SCRIPTS: &[(u32, u32, usize, u32)] = &[
    (0, 1, 2_622, 4_112_134_094),
    (1, 10, 7_368, 3_560_029_607),
    (1, 11, 8_269, 4_102_748_453),
    (7, 500, 316_735, 4_289_633_549),
    (4_294_967_295, 3_999, 2_669_472, 2_542_561_616),
    (7, 4_000, 2_670_121, 3_087_250_120),
];

// Whether the script has this length and this sum of its bytes.
fn has_sum(alloc: Global, seed: u32, size: u32, len: usize, sum: u32) -> bool {
    match script_of(alloc, seed, size) {
        Some(script) => script.len() == len && sum_of(script.as_slice()) == sum,
        None => false,
    }
}

#[test]
fn scripts_are_those_of_the_independent_program(rt: HostRuntime) {
    for (seed, size, len, sum) in SCRIPTS {
        check_at(
            &rt,
            has_sum(rt.alloc(), *seed, *size, *len, *sum),
            *size as usize,
        );
    }
}

// Whether there are so many events, and two of them are commits.
fn are_events(events: &Events<'_>, many: usize, commit: usize, last: usize) -> bool {
    events.len() == many
        && events.at(commit) == Some(&Event::Commit)
        && events.at(last) == Some(&Event::Commit)
}

fn is_read(alloc: Global, bytes: &[u8]) -> bool {
    let Ok(text) = str::from_utf8(bytes) else {
        return false;
    };
    match read_script(alloc, text) {
        Ok(events) => are_events(&events, 47, 6, 46),
        Err(_) => false,
    }
}

fn a_generated_script_is_read(alloc: Global) -> bool {
    match script_of(alloc, 1, 11) {
        Some(script) => is_read(alloc, script.as_slice()),
        None => false,
    }
}

#[test]
fn a_script_has_26_puts_and_21_commits(rt: HostRuntime) {
    assert!(rt; a_generated_script_is_read(rt.alloc()));
}
