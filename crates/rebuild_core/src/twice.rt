//! Two commits of one engine, one behind the other.

ghost use Rattle.std.specs.Prelude.{◌≡◌, None, Some, IfOk, OnOk, OnErr};
ghost use Rattle.std.specs.FinMap as map;
ghost use Rattle.build_plain.specs.Out.{Builds};
ghost use Rattle.build_plain.specs.Work.{work};
ghost use Rattle.rebuild_core.specs.Engine.{counts_view};
ghost use Rattle.rebuild_core.specs.Work.{IsWorkFrom};

use crate::commit::Commit;
use crate::engine::Engine;
use crate::laws::work_laws;
use std::alloc::Global;
use std::sync::ledger::Ledger;
use tk_io::{NoMemory, Steps};

/// What two commits answer, the first and the second.
pub type Twice = (Result<Commit, NoMemory>, Result<Commit, NoMemory>);

/// Adds the file, or replaces its text, and commits twice. The second commit has nothing to do where the first ended well;
/// where the first found no memory, all is done anew, since nothing was kept.
///
/// # Errors
/// `NoMemory` where the file found none. Nothing changes then. What each commit answers stands in the pair; whatever it is,
/// the files are those with the new one.
pub fn two_commits<'s, L: Ledger, M: Ledger, N: Ledger>(
    alloc: Global,
    engine: &mut Engine<'s>,
    path: &'s str,
    text: &'s str,
    parses: &mut Steps<L>,
    merges: &mut Steps<M>,
    evals: &mut Steps<N>,
) -> Result<Twice, NoMemory>
    ensures put { OnErr result (engine.new ≡ engine.old) }
    ensures uncounted { OnErr result (work parses.new merges.new evals.new
        ≡ work parses.old merges.old evals.old) }
    ensures files { OnOk result
        (engine.new.files ≡ map.insert engine.old.files path.entry.now text.entry.now) }
    // Where the first ends well, it did what leads from what was kept to the files.
    ensures first { IfOk result (λ both. IfOk both.0 (λ done. IsWorkFrom engine.old.kept
        (map.insert engine.old.files path.entry.now text.entry.now) (counts_view done.counts))) }
    // Where the second ends well, the outputs of the files are held, and the files are kept.
    ensures second { IfOk result (λ both. OnOk both.1
        (Builds (map.insert engine.old.files path.entry.now text.entry.now) engine.new.held)) }
    ensures kept { IfOk result (λ both. OnOk both.1
        (engine.new.kept ≡ Some (map.insert engine.old.files path.entry.now text.entry.now))) }
    // It did nothing where the first ended well, and all where nothing was kept.
    ensures nothing { IfOk result (λ both. OnOk both.0
        (IfOk both.1 (λ done. counts_view done.counts ≡ work 0 0 0))) }
    ensures anew { IfOk result (λ both. OnErr both.0 (IfOk both.1 (λ done. IsWorkFrom None
        (map.insert engine.old.files path.entry.now text.entry.now) (counts_view done.counts)))) }
    // Where it is refused nothing is kept, and what is held is what the first commit left.
    ensures refused { IfOk result (λ both. OnErr both.1 (engine.new.kept ≡ None)) }
    ensures held { IfOk result (λ both. OnErr both.1 (OnOk both.0
        (Builds (map.insert engine.old.files path.entry.now text.entry.now) engine.new.held))) }
    ensures unheld { IfOk result (λ both. OnErr both.1 (OnErr both.0
        (engine.new.held ≡ engine.old.held))) }
{
    work_laws();
    engine.put(path, text)?;
    let first = engine.commit(alloc, parses, merges, evals);
    let second = engine.commit(alloc, parses, merges, evals);
    Ok((first, second))
}
