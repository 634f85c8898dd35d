//! The scans of `lane_scan`, and beside them the plain loops.

use crate::plain;
use lane_scan::{count_newlines, first_special, last_newline, skip_blank};
use std::alloc::{AllocError, Global};

/// Bytes in the text.
const LENGTH: usize = 1 << 20;

#[derive(Clone, Copy)]
enum Scan {
    Special,
    Blank,
    Count,
    Last,
}

fn scan_named(word: &str) -> Option<Scan> {
    match word {
        "special" => Some(Scan::Special),
        "blank" => Some(Scan::Blank),
        "count" => Some(Scan::Count),
        "last" => Some(Scan::Last),
        _ => None,
    }
}

// A text that the scan has to read whole.
fn text_for(alloc: Global, scan: Scan) -> Result<Vec<u8>, AllocError> {
    let mut text = match scan {
        Scan::Blank => vec![in alloc; b' '; LENGTH]?,
        _ => vec![in alloc; b'x'; LENGTH]?,
    };
    if matches!(scan, Scan::Count) {
        for (i, byte) in text.iter_mut().enumerate() {
            if i % 40 == 0 {
                *byte = b'\n';
            }
        }
    }
    Ok(text)
}

fn answer_by_lanes(scan: Scan, bytes: &[u8]) -> usize {
    match scan {
        Scan::Special => first_special(bytes, 0),
        Scan::Blank => skip_blank(bytes, 0),
        Scan::Count => count_newlines(bytes),
        Scan::Last => last_newline(bytes).unwrap_or(0),
    }
}

fn answer_by_loops(scan: Scan, bytes: &[u8]) -> usize {
    match scan {
        Scan::Special => plain::first_special(bytes),
        Scan::Blank => plain::skip_blank(bytes),
        Scan::Count => plain::count_newlines(bytes),
        Scan::Last => plain::last_newline(bytes).unwrap_or(0),
    }
}

// Each round begins at another place, so that no round's answer stands for another's.
fn sum_of(scan: Scan, by_lanes: bool, text: &[u8], rounds: u32) -> u64 {
    let mut sum = 0u64;
    for round in 0..rounds {
        let rest = text.get(round as usize % 64..).unwrap_or(text);
        let answer = if by_lanes {
            answer_by_lanes(scan, rest)
        } else {
            answer_by_loops(scan, rest)
        };
        sum = sum.wrapping_add(answer as u64);
    }
    sum
}

/// The sum of the answers of so many scans, by lanes or by plain loops; none where no scan has this name.
pub(crate) fn sum_of_scans(alloc: Global, name: &str, by_lanes: bool, rounds: u32) -> Option<u64> {
    let Some(scan) = scan_named(name) else {
        return None;
    };
    let Ok(text) = text_for(alloc, scan) else {
        return None;
    };
    Some(sum_of(scan, by_lanes, text.as_slice(), rounds))
}
