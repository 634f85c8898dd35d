//! The reading of a JSON text, again and again.

ghost use Rattle.std.specs.Prelude.{◌≡◌, ◌<◌};

use json_span::read;
use std::alloc::Global;
use std::marker::Brand;
use std::str;
use std::sync::ledger::{Blank, Ledger};
use tk_io::Steps;

// Where the value of the text ends; none where it is not read.
fn end_of<L: Ledger>(alloc: Global, text: &str, parses: &mut Steps<L>) -> Option<usize> {
    match read(alloc, text, parses) {
        Ok(root) => Some(root.end()),
        Err(_) => None,
    }
}

// The counter is made here: a call that picks a ledger has no text in its signature.
fn counted<L: Ledger>(alloc: Global, bytes: &[u8], rounds: u32, page: Blank) -> Option<u64>
    requires page { (page.name ≡ L.name) × (page.parts ≡ L.parts) × (0 < L.parts) }
{
    let mut parses: Steps<L> = Steps::new(page);
    let Ok(text) = str::from_utf8(bytes) else {
        return None;
    };
    let mut sum = 0u64;
    for _ in 0..rounds {
        let Some(end) = end_of(alloc, text, &mut parses) else {
            return None;
        };
        sum = sum.wrapping_add(end as u64);
    }
    Some(sum)
}

/// The sum of the offsets at which the value of the text ends, over so many rounds; none where it is no JSON text.
pub(crate) fn sum_of_ends(alloc: Global, bytes: &[u8], rounds: u32) -> Option<u64> {
    counted::<Brand>(alloc, bytes, rounds, Blank::new(1))
}
