//! One file that is committed twice, one commit behind the other.

ghost use Rattle.std.specs.Prelude.{◌≡◌, ◌<◌};

use rebuild_core::{Commit, Engine, Twice, two_commits};
use std::alloc::Global;
use std::marker::Brand;
use std::sync::ledger::{Blank, Ledger};
use tk_io::{NoMemory, Outputs, Steps};

/// The file, which has one token.
const TEXT: &str = r#"{"space":{"$type":"dimension","s":{"$value":{"value":4,"unit":"px"}}}}"#;

/// Its outputs, by hand.
const OUTPUTS: [(&str, &str); 4] = [
    (
        "default/Tokens.swift",
        "import UIKit\n\npublic enum Tokens {\n  public static let space_s: CGFloat = 4.0\n}\n",
    ),
    ("default/tokens.css", ":root {\n  --space-s: 4px;\n}\n"),
    (
        "default/tokens.json",
        "{\n  \"space.s\": {\"$type\": \"dimension\", \"$value\": {\"value\": 4, \"unit\": \"px\"}}\n}\n",
    ),
    (
        "default/tokens.xml",
        "<?xml version=\"1.0\" encoding=\"utf-8\"?>\n<resources>\n  <dimen name=\"space_s\">4dp</dimen>\n</resources>\n",
    ),
];

// Whether these are the outputs of the file.
fn are_wanted(outputs: &Outputs) -> bool {
    for (path, text) in OUTPUTS {
        let Some(body) = outputs.get(path) else {
            return false;
        };
        if body != text.as_bytes() {
            return false;
        }
    }
    outputs.len() == OUTPUTS.len()
}

// Whether a commit read, merged and evaluated so many.
fn did(commit: &Commit, each: u64) -> bool {
    let counts = commit.counts;
    counts.parsed == each && counts.merged == each && counts.evaluated == each
}

// Whether the first commit did all, and the second nothing. No output was held before the first, and those of the file before
// the second.
fn are_both_wanted(both: &Twice) -> bool {
    match both {
        (Ok(first), Ok(second)) => {
            did(first, 1) && first.before.is_empty() && did(second, 0) && are_wanted(&second.before)
        }
        _ => false,
    }
}

fn committed<L: Ledger, M: Ledger, N: Ledger>(
    alloc: Global,
    engine: &mut Engine<'_>,
    parses: &mut Steps<L>,
    merges: &mut Steps<M>,
    evals: &mut Steps<N>,
) -> Result<bool, NoMemory> {
    let both = two_commits(alloc, engine, "tokens.json", TEXT, parses, merges, evals)?;
    Ok(are_both_wanted(&both))
}

fn counted<L: Ledger, M: Ledger, N: Ledger>(
    alloc: Global,
    engine: &mut Engine<'_>,
    parses: Blank,
    merges: Blank,
    evals: Blank,
) -> Result<bool, NoMemory>
    requires parses { (parses.name ≡ L.name) × (parses.parts ≡ L.parts) × (0 < L.parts) }
    requires merges { (merges.name ≡ M.name) × (merges.parts ≡ M.parts) × (0 < M.parts) }
    requires evals { (evals.name ≡ N.name) × (evals.parts ≡ N.parts) × (0 < N.parts) }
{
    let mut parses: Steps<L> = Steps::new(parses);
    let mut merges: Steps<M> = Steps::new(merges);
    let mut evals: Steps<N> = Steps::new(evals);
    committed(alloc, engine, &mut parses, &mut merges, &mut evals)
}

fn committed_by(alloc: Global, engine: &mut Engine<'_>) -> Result<bool, NoMemory> {
    counted::<Brand, Brand, Brand>(alloc, engine, Blank::new(1), Blank::new(1), Blank::new(1))
}

/// Whether two commits of one file come to the outputs and the counts that are wanted.
pub fn are_committed(alloc: Global) -> Result<bool, NoMemory> {
    let mut engine = Engine::new(alloc);
    let is_wanted = committed_by(alloc, &mut engine)?;
    Ok(is_wanted && are_wanted(engine.held()))
}
