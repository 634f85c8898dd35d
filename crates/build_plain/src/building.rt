//! Building the outputs of files from nothing.

ghost use Rattle.std.specs.Prelude.{IfOk, OnOk};
ghost use Rattle.file_plan.specs.View.{plan_perm_view};
ghost use Rattle.build_plain.specs.Out.{Builds, BuildsUnder, GivesOf};
ghost use Rattle.build_plain.specs.Work.{IsWork, RiseBy, RiseWithin, work};
ghost use Rattle.build_plain.specs.Outcomes.{HoldsCells, IsOutcome};
ghost use Rattle.build_plain.specs.inner.Outcomes.{Given};

use crate::config::refused_config;
use crate::making::{Made, make};
use crate::outcome::Outcome;
use crate::permutation::{put_source_break, put_tokens, put_tree_break};
use crate::planning::refused_plan;
use crate::sources::{first_file, home_of};
use file_plan::{Files, PlanPerm, PlanRefusal, Trees};
use source_trees::Shapes;
use std::alloc::Global;
use std::sync::ledger::Ledger;
use tk_io::{NoMemory, Outputs, Steps};
use token_cells::Earlier;
use transforms::{Config, ConfigFault};

/// Puts the outputs of a permutation beside others, by what it comes to: its four files, or its refusal.
pub fn put_outcome<'s>(
    alloc: Global,
    files: &Files<'s>,
    cfg: &Config,
    perm: &PlanPerm<'s>,
    outcome: &Outcome<'s>,
    outputs: &mut Outputs,
) -> Result<(), NoMemory>
    requires { IsOutcome cfg.now files.now (plan_perm_view perm.now) outcome.now }
    ensures { OnOk result (GivesOf cfg.now files.now
        (plan_perm_view perm.now) outputs.old outputs.new) }
{
    let name = perm.name.as_str();
    match outcome {
        Outcome::Tokens(tree) => {
            put_tokens(alloc, files, name, tree.tokens(), tree.cells(), outputs)
        }
        Outcome::TreeBreak(fault) => {
            let home = home_of(files);
            let first = first_file(&home, perm.sources.as_slice());
            put_tree_break(alloc, files, name, first, fault, outputs)
        }
        Outcome::SourceBreak(found) => put_source_break(alloc, files, name, found, outputs),
    }
}

/// Keeps the tokens of a permutation, which those of the next one may share.
///
/// # Errors
/// `NoMemory`. Nothing is kept then.
pub fn keep_tokens<'s>(
    alloc: Global,
    cfg: &Config,
    outcome: Outcome<'s>,
    earlier: &mut Earlier<'s>,
) -> Result<(), NoMemory>
    requires { HoldsCells cfg.now outcome }
{
    match outcome {
        Outcome::Tokens(tree) => earlier.keep(alloc, cfg, tree),
        Outcome::TreeBreak(_) => Ok(()),
        Outcome::SourceBreak(_) => Ok(()),
    }
}

/// Outputs, to which those of each permutation are added.
impl<'s> Made<'s> for Outputs {
    ghost is_made = { BuildsUnder };

    ghost is_making = { Given };

    fn unconfigured(
        alloc: Global,
        files: &Files<'s>,
        fault: &ConfigFault,
    ) -> Result<Outputs, NoMemory> {
        refused_config(alloc, files, fault)
    }

    fn unplanned(
        alloc: Global,
        files: &Files<'s>,
        _trees: Trees<'s>,
        refusal: &PlanRefusal<'_>,
    ) -> Result<Outputs, NoMemory> {
        refused_plan(alloc, files, refusal)
    }

    fn start(alloc: Global, _trees: Trees<'s>) -> Outputs {
        Outputs::new(alloc)
    }

    fn add(
        &mut self,
        alloc: Global,
        files: &Files<'s>,
        cfg: &Config,
        _shapes: &Shapes<'s>,
        perm: &PlanPerm<'s>,
        outcome: Outcome<'s>,
        earlier: &mut Earlier<'s>,
    ) -> Result<(), NoMemory> {
        put_outcome(alloc, files, cfg, perm, &outcome, self)?;
        keep_tokens(alloc, cfg, outcome, earlier)
    }
}

/// The outputs of the files. A permutation `P` has `P/Tokens.swift`, `P/tokens.css`, `P/tokens.json` and `P/tokens.xml`, or
/// `P/REFUSED` with the first rule that is broken: by its sources in their order, by their merged tree, by a token, the first
/// in path order, or by two tokens that have one name. Files without `resolver.json` have one permutation, `default`, of
/// `tokens.json`. Where `tokc.toml` or `resolver.json` is refused, the one output is `REFUSED`.
///
/// Each file in use is read once, which is one step of `parses`; a merged tree that is made flat is one of `merges`, and
/// each token of a flat tree one of `evals`. Tokens that stand as they stood in the tree of the last permutation are
/// taken from what is kept of it, whatever files were built before.
///
/// # Errors
/// `NoMemory`. Less may have been done then.
pub fn build<'s, L: Ledger, M: Ledger, N: Ledger>(
    alloc: Global,
    files: &Files<'s>,
    earlier: &mut Earlier<'s>,
    parses: &mut Steps<L>,
    merges: &mut Steps<M>,
    evals: &mut Steps<N>,
) -> Result<Outputs, NoMemory>
    ensures ok { IfOk result (Builds files.now) }
    ensures work { OnOk result (RiseBy (IsWork files.now)
        (work parses.old merges.old evals.old) (work parses.new merges.new evals.new)) }
    // Where memory runs out, less may have been done.
    ensures at_most { RiseWithin (IsWork files.now)
        (work parses.old merges.old evals.old) (work parses.new merges.new evals.new) }
{
    make(alloc, files, earlier, parses, merges, evals)
}
