//! Commits of an engine.

ghost use Rattle.std.specs.Prelude.{◌≡◌, ◌<◌, Some, IfOk, OnOk};
ghost use Rattle.build_plain.specs.Out.{Builds};
ghost use Rattle.rebuild_core.specs.Engine.{committed, counts_view};
ghost use Rattle.rebuild_core.specs.Work.{IsWorkFrom};

use rebuild_core::{Commit, Engine};
use std::alloc::Global;
use std::marker::Brand;
use std::sync::ledger::{Blank, Ledger};
use tk_io::{NoMemory, Steps};

// The counters are made here: a call that picks a ledger has no text in its signature.
fn counted<'s, L: Ledger, M: Ledger, N: Ledger>(
    alloc: Global,
    engine: &mut Engine<'s>,
    parses: Blank,
    merges: Blank,
    evals: Blank,
) -> Result<Commit, NoMemory>
    requires parses { (parses.name ≡ L.name) × (parses.parts ≡ L.parts) × (0 < L.parts) }
    requires merges { (merges.name ≡ M.name) × (merges.parts ≡ M.parts) × (0 < M.parts) }
    requires evals { (evals.name ≡ N.name) × (evals.parts ≡ N.parts) × (0 < N.parts) }
    ensures held { OnOk result (Builds engine.old.files engine.new.held) }
    ensures kept { OnOk result
        (engine.new ≡ committed engine.old.files engine.new.held) }
    ensures before { IfOk result (λ done. done.before ≡ engine.old.held) }
    ensures counts { IfOk result (λ done.
        IsWorkFrom engine.old.kept engine.old.files (counts_view done.counts)) }
{
    let mut parses: Steps<L> = Steps::new(parses);
    let mut merges: Steps<M> = Steps::new(merges);
    let mut evals: Steps<N> = Steps::new(evals);
    engine.commit(alloc, &mut parses, &mut merges, &mut evals)
}

/// Builds the files of the engine: from here on their outputs are held, and the answer has what was held before, and how
/// much was done.
///
/// # Errors
/// `NoMemory`.
pub fn commit_files<'s>(alloc: Global, engine: &mut Engine<'s>) -> Result<Commit, NoMemory>
    ensures held { OnOk result (Builds engine.old.files engine.new.held) }
    ensures kept { OnOk result
        (engine.new ≡ committed engine.old.files engine.new.held) }
    ensures before { IfOk result (λ done. done.before ≡ engine.old.held) }
    ensures counts { IfOk result (λ done.
        IsWorkFrom engine.old.kept engine.old.files (counts_view done.counts)) }
{
    counted::<Brand, Brand, Brand>(alloc, engine, Blank::new(1), Blank::new(1), Blank::new(1))
}
