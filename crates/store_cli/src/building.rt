//! The outputs of a script's files.

ghost use Rattle.std.specs.Prelude.{◌≡◌, ◌<◌, ℕ, List, true, Err, IfOk};
ghost use Rattle.std.specs.FinMap as map;
ghost use Rattle.build_plain.specs.Out.{Builds};
ghost use Rattle.edit_script.specs.Files.{EveryFits, IsUnfit};
ghost use Rattle.out_store.specs.Paths.{IsOutputPath};
ghost use Rattle.store_cli.specs.Stored.{BuildsAfter};

use crate::laws::outputs_fit;
use build_plain::{Earlier, build, resolver_is_utf8};
use bumpalo::Bump;
use edit_script::Events;
use file_plan::{Files, LoadStop};
use std::alloc::Global;
use std::marker::Brand;
use std::sync::ledger::{Blank, Ledger};
use tk_io::{NoMemory, Outputs, Steps};

// The counters are made here: a call that picks a ledger has no text in its signature.
fn counted<'s, L: Ledger, M: Ledger, N: Ledger>(
    alloc: Global,
    files: &Files<'s>,
    parses: Blank,
    merges: Blank,
    evals: Blank,
) -> Result<Outputs, NoMemory>
    requires parses { (parses.name ≡ L.name) × (parses.parts ≡ L.parts) × (0 < L.parts) }
    requires merges { (merges.name ≡ M.name) × (merges.parts ≡ M.parts) × (0 < M.parts) }
    requires evals { (evals.name ≡ N.name) × (evals.parts ≡ N.parts) × (0 < N.parts) }
    ensures { IfOk result (λ outputs. Builds files.now outputs) }
{
    let mut earlier = Earlier::new();
    let mut parses: Steps<L> = Steps::new(parses);
    let mut merges: Steps<M> = Steps::new(merges);
    let mut evals: Steps<N> = Steps::new(evals);
    build(
        alloc,
        files,
        &mut earlier,
        &mut parses,
        &mut merges,
        &mut evals,
    )
}

// The outputs of the files, from nothing.
fn build_anew(alloc: Global, files: &Files<'_>) -> Result<Outputs, NoMemory>
    ensures { IfOk result (λ outputs. Builds files.now outputs) }
{
    counted::<Brand, Brand, Brand>(alloc, files, Blank::new(1), Blank::new(1), Blank::new(1))
}

/// The outputs of the files after all events, which stand at paths that a store can hold. Patched texts are made in the
/// arena.
///
/// # Errors
/// `Unfit` exactly where an event does not fit what stands before it, with the number of the first; `NoMemory`.
pub(crate) fn outputs_after<'s>(
    alloc: Global,
    events: &Events<'s>,
    arena: &'s Bump,
) -> Result<Outputs, LoadStop>
    ensures built { IfOk result (λ outputs. BuildsAfter events.now outputs) }
    ensures fits { IfOk result (λ _. EveryFits events.now) }
    ensures unfit { (number : ℕ) → result ≡ Err (LoadStop.Unfit number)
        → IsUnfit events.now number }
    ensures fit { IfOk result (λ outputs. (path : List ℕ)
        → map.contains_key outputs path ≡ true → IsOutputPath path) }
{
    outputs_fit();
    let files = Files::load(alloc, events, arena)?;
    resolver_is_utf8(&files);
    Ok(build_anew(alloc, &files)?)
}
