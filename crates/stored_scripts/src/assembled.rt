//! The parts of many tokens, kept and put together.

ghost use Rattle.std.specs.Prelude.{◌≡◌, ◌<◌};

use build_plain::{assemble, parts_of};
use file_plan::Files;
use itoa::Buffer;
use std::alloc::Global;
use std::marker::Brand;
use std::str;
use std::sync::ledger::{Blank, Ledger};
use tk_io::{Bytes, NoMemory, Outputs, Steps};

/// The tokens are lengths of as many pixels as their numbers say, from the first number to the last.
const FIRST: usize = 10_000;

const LAST: usize = 25_999;

/// The outputs of these tokens, and how many bytes each has, by an independent compiler's rules.
const OUTPUTS: [(&str, usize); 4] = [
    ("default/Tokens.swift", 768_037),
    ("default/tokens.css", 368_010),
    ("default/tokens.json", 1_280_003),
    ("default/tokens.xml", 656_064),
];

// Appends the member of a token whose name and value have these digits.
fn append_token(text: &mut Bytes, digits: &[u8]) -> Result<(), NoMemory> {
    text.append(br#","t"#)?;
    text.append(digits)?;
    text.append(br#"":{"$value":{"value":"#)?;
    text.append(digits)?;
    text.append(br#","unit":"px"}}"#)
}

fn text(alloc: Global) -> Result<Bytes, NoMemory> {
    let mut text = Bytes::new(alloc);
    text.append(br#"{"g":{"$type":"dimension""#)?;
    for number in FIRST..=LAST {
        let mut buffer = Buffer::new();
        append_token(&mut text, buffer.format(number).as_bytes())?;
    }
    text.append(b"}}")?;
    Ok(text)
}

// Whether these are the outputs that are wanted.
fn are_wanted(outputs: &Outputs) -> bool {
    for (path, len) in OUTPUTS {
        let Some(body) = outputs.get(path) else {
            return false;
        };
        if body.len() != len {
            return false;
        }
    }
    outputs.len() == OUTPUTS.len()
}

fn assembled<L: Ledger, M: Ledger, N: Ledger>(
    alloc: Global,
    files: &Files<'_>,
    parses: &mut Steps<L>,
    merges: &mut Steps<M>,
    evals: &mut Steps<N>,
) -> Result<Outputs, NoMemory> {
    let parts = parts_of(alloc, files, parses, merges, evals)?;
    assemble(alloc, files, &parts)
}

fn counted<L: Ledger, M: Ledger, N: Ledger>(
    alloc: Global,
    files: &Files<'_>,
    parses: Blank,
    merges: Blank,
    evals: Blank,
) -> Result<bool, NoMemory>
    requires parses { (parses.name ≡ L.name) × (parses.parts ≡ L.parts) × (0 < L.parts) }
    requires merges { (merges.name ≡ M.name) × (merges.parts ≡ M.parts) × (0 < M.parts) }
    requires evals { (evals.name ≡ N.name) × (evals.parts ≡ N.parts) × (0 < N.parts) }
{
    let mut parses: Steps<L> = Steps::new(parses);
    let mut merges: Steps<M> = Steps::new(merges);
    let mut evals: Steps<N> = Steps::new(evals);
    let assembled = assembled(alloc, files, &mut parses, &mut merges, &mut evals)?;
    Ok(are_wanted(&assembled))
}

/// Whether the tokens, put together from their parts, come to the outputs that are wanted. That these are those of a build, the
/// contracts of both calls say.
pub fn are_assembled(alloc: Global) -> Result<bool, NoMemory> {
    let bytes = text(alloc)?;
    let Ok(text) = str::from_utf8(bytes.as_slice()) else {
        return Ok(false);
    };
    let mut files = Files::new(alloc);
    files.put("tokens.json", text)?;
    counted::<Brand, Brand, Brand>(alloc, &files, Blank::new(1), Blank::new(1), Blank::new(1))
}
