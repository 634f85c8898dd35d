//! The breaks of a script's files.

ghost use Rattle.std.specs.Prelude.{◌≡◌, ◌<◌, ℕ, Err, IfOk};
ghost use Rattle.all_breaks.specs.All.{AllTold};
ghost use Rattle.edit_script.specs.Files.{IsUnfit};
ghost use Rattle.check_cli.specs.Checked.{TellsAfter};

use all_breaks::{Told, all_breaks};
use bumpalo::Bump;
use edit_script::Events;
use file_plan::{Files, LoadStop};
use std::alloc::Global;
use std::marker::Brand;
use std::sync::ledger::{Blank, Ledger};
use tk_io::{NoMemory, Steps};

// The counters are made here: a call that picks a ledger has no text in its signature.
fn counted<'s, L: Ledger, M: Ledger, N: Ledger>(
    alloc: Global,
    files: &Files<'s>,
    parses: Blank,
    merges: Blank,
    evals: Blank,
) -> Result<Told<'s>, NoMemory>
    requires parses { (parses.name ≡ L.name) × (parses.parts ≡ L.parts) × (0 < L.parts) }
    requires merges { (merges.name ≡ M.name) × (merges.parts ≡ M.parts) × (0 < M.parts) }
    requires evals { (evals.name ≡ N.name) × (evals.parts ≡ N.parts) × (0 < N.parts) }
    ensures { IfOk result (λ told. AllTold files.now told) }
{
    let mut parses: Steps<L> = Steps::new(parses);
    let mut merges: Steps<M> = Steps::new(merges);
    let mut evals: Steps<N> = Steps::new(evals);
    all_breaks(alloc, files, &mut parses, &mut merges, &mut evals)
}

// The breaks of the files.
fn breaks_of<'s>(alloc: Global, files: &Files<'s>) -> Result<Told<'s>, NoMemory>
    ensures { IfOk result (λ told. AllTold files.now told) }
{
    counted::<Brand, Brand, Brand>(alloc, files, Blank::new(1), Blank::new(1), Blank::new(1))
}

/// The breaks of the files after all events. Patched texts are made in the arena.
///
/// # Errors
/// `Unfit` exactly where an event does not fit what stands before it, with the number of the first; `NoMemory`.
pub(crate) fn breaks_after<'s>(
    alloc: Global,
    events: &Events<'s>,
    arena: &'s Bump,
) -> Result<Told<'s>, LoadStop>
    ensures told { IfOk result (λ told. TellsAfter events.now told) }
    ensures unfit { (number : ℕ) → result ≡ Err (LoadStop.Unfit number)
        → IsUnfit events.now number }
{
    let files = Files::load(alloc, events, arena)?;
    Ok(breaks_of(alloc, &files)?)
}
