//! All breaks of files.

ghost use Rattle.std.specs.Prelude.{IfOk, OnOk};
ghost use Rattle.build_plain.specs.Work.{IsWork, RiseBy, RiseWithin, work};
ghost use Rattle.all_breaks.specs.All.{AllTold};

use crate::told::Told;
use build_plain::{Earlier, make};
use file_plan::Files;
use std::alloc::Global;
use std::sync::ledger::Ledger;
use tk_io::{NoMemory, Steps};

/// All breaks of the files. Where `tokc.toml` or `resolver.json` is refused, that is the one break. Else they are, for each
/// permutation, of each source that breaks a rule the first, or else the one of its merged tree, or else each of its tokens
/// in path order, or else each pair of tokens that have one name. Breaks that read the same are told once, with the names of
/// their permutations in the order of the plan.
///
/// Each file in use is read once, which is one step of `parses`; a merged tree that is made flat is one of `merges`, and
/// each token of a flat tree one of `evals`.
///
/// # Errors
/// `NoMemory`. Less may have been done then.
pub fn all_breaks<'s, L: Ledger, M: Ledger, N: Ledger>(
    alloc: Global,
    files: &Files<'s>,
    parses: &mut Steps<L>,
    merges: &mut Steps<M>,
    evals: &mut Steps<N>,
) -> Result<Told<'s>, NoMemory>
    ensures ok { IfOk result (AllTold files.now) }
    ensures work { OnOk result (RiseBy (IsWork files.now)
        (work parses.old merges.old evals.old) (work parses.new merges.new evals.new)) }
    // Where memory runs out, less may have been done.
    ensures at_most { RiseWithin (IsWork files.now)
        (work parses.old merges.old evals.old) (work parses.new merges.new evals.new) }
{
    let mut earlier = Earlier::new();
    make(alloc, files, &mut earlier, parses, merges, evals)
}
