//! Keeping the parts of files that are built from nothing.

ghost use Rattle.std.specs.Prelude.{◌≡◌, IfOk, OnOk};
ghost use Rattle.std.specs.FinMap as map;
ghost use Rattle.build_plain.specs.Parts.{ArePartsOf, ArePartsUnder};
ghost use Rattle.build_plain.specs.Work.{IsWork, RiseBy, RiseWithin, work};
ghost use Rattle.build_plain.specs.inner.Keeping.{KeepsNothing, Keeping, Keeps};
ghost use Rattle.build_plain.specs.Outcomes.{cells_in, merge_in};

use crate::making::{Made, make};
use crate::outcome::Outcome;
use crate::parts::{CellMap, Parts};
use file_plan::{Files, PlanPerm, PlanRefusal, Trees};
use source_trees::{Merge, Merges, Shapes};
use std::alloc::Global;
use std::sync::ledger::Ledger;
use tk_io::{NoMemory, Steps};
use token_cells::Earlier;
use transforms::{Config, ConfigFault};

// Trees alone: nothing is kept of a permutation.
fn bare_parts<'s>(alloc: Global, trees: Trees<'s>) -> Parts<'s>
    ensures trees { result.trees ≡ trees.entry }
    ensures merges { result.merges ≡ map.empty }
    ensures cells { result.cells ≡ map.empty }
{
    Parts {
        trees,
        merges: Merges::new(alloc),
        cells: CellMap::new(alloc),
    }
}

// Keeps what a permutation comes to under its name.
fn keep_outcome<'s>(name: &str, outcome: Outcome<'s>, parts: &mut Parts<'s>) -> Result<(), NoMemory>
    ensures { KeepsNothing parts.old name.now → OnOk result
        (Keeps name.now (merge_in outcome.entry) (cells_in outcome.entry) parts.old parts.new) }
{
    match outcome {
        Outcome::Tokens(tree) => {
            let (flat, cells) = tree.into_parts();
            parts.cells.put(name, cells)?;
            parts.merges.put(name, Merge::Flat(flat))
        }
        Outcome::TreeBreak(fault) => parts.merges.put(name, Merge::Broken(fault)),
        Outcome::SourceBreak(_) => Ok(()),
    }
}

/// Parts, in which what each permutation comes to is kept.
impl<'s> Made<'s> for Parts<'s> {
    ghost is_made = { ArePartsUnder };

    ghost is_making = { Keeping };

    fn unconfigured(
        alloc: Global,
        _files: &Files<'s>,
        fault: &ConfigFault,
    ) -> Result<Parts<'s>, NoMemory> {
        match fault {
            ConfigFault::NoMemory => Err(NoMemory),
            _ => Ok(bare_parts(alloc, Trees::new(alloc))),
        }
    }

    fn unplanned(
        alloc: Global,
        _files: &Files<'s>,
        trees: Trees<'s>,
        refusal: &PlanRefusal<'_>,
    ) -> Result<Parts<'s>, NoMemory> {
        match refusal {
            PlanRefusal::NoMemory => Err(NoMemory),
            _ => Ok(bare_parts(alloc, trees)),
        }
    }

    fn start(alloc: Global, trees: Trees<'s>) -> Parts<'s> {
        bare_parts(alloc, trees)
    }

    fn add(
        &mut self,
        _alloc: Global,
        _files: &Files<'s>,
        _cfg: &Config,
        _shapes: &Shapes<'s>,
        perm: &PlanPerm<'s>,
        outcome: Outcome<'s>,
        _earlier: &mut Earlier<'s>,
    ) -> Result<(), NoMemory> {
        keep_outcome(perm.name.as_str(), outcome, self)
    }
}

/// The parts of the files, as [`assemble`](crate::assemble) takes them: the trees of the files in use, what the sources of
/// each permutation come to, and what its tokens come to. Of a permutation one of whose sources breaks a rule nothing is
/// kept; where `resolver.json` is refused its tree alone, and where `tokc.toml` is refused nothing.
///
/// Each file in use is read once, which is one step of `parses`; a merged tree that is made flat is one of `merges`, and
/// each token of a flat tree one of `evals`.
///
/// # Errors
/// `NoMemory`. Less may have been done then.
pub fn parts_of<'s, L: Ledger, M: Ledger, N: Ledger>(
    alloc: Global,
    files: &Files<'s>,
    parses: &mut Steps<L>,
    merges: &mut Steps<M>,
    evals: &mut Steps<N>,
) -> Result<Parts<'s>, NoMemory>
    ensures ok { IfOk result (ArePartsOf files.now) }
    ensures work { OnOk result (RiseBy (IsWork files.now)
        (work parses.old merges.old evals.old) (work parses.new merges.new evals.new)) }
    // Where memory runs out, less may have been done.
    ensures at_most { RiseWithin (IsWork files.now)
        (work parses.old merges.old evals.old) (work parses.new merges.new evals.new) }
{
    let mut earlier = Earlier::new();
    make(alloc, files, &mut earlier, parses, merges, evals)
}
