//! Making something of files, by the outcomes of their permutations, one after another.

ghost use Rattle.std.specs.Prelude.{◌≡◌, ◌≢◌, ◌+◌, ◌≤◌, [], ◌∷◌, List, Result, Ok, Err, IfOk, OnOk, true, is_some, map as each};
ghost use Rattle.std.specs.FinMap as map;
ghost use Rattle.ring.specs.Lists.{AreApart};
ghost use Rattle.tk_io.specs.FilesData.{FilesData};
ghost use Rattle.permutations.specs.Permutation.{Permutation};
ghost use Rattle.file_plan.specs.InUse.{resolver_path, resolver_in, files_in_use};
ghost use Rattle.file_plan.specs.Plan.{Plans, planned, text_count};
ghost use Rattle.file_plan.specs.Trees.{AreTreesIn};
ghost use Rattle.file_plan.specs.View.{IsPlanRefusal, plan_perm_view, plan_sources_view, plan_view};
ghost use Rattle.source_trees.specs.Merging.{AllInlineStand, AreKnown};
ghost use Rattle.transforms.specs.Config.{Settings};
ghost use Rattle.transforms.specs.declared.config.ConfigFault.{ConfigFault};
ghost use Rattle.transforms.specs.declared.config.ConfigFault.TheVariants.{NoMemory as OutOfMemory};
ghost use Rattle.refusals.specs.Planning.{break_of};
ghost use Rattle.build_plain.specs.Out.{settings_of};
ghost use Rattle.build_plain.specs.Work.{IsWork, PermsWork, RiseBy, RiseWithin, WorkUnder, work};
ghost use Rattle.build_plain.specs.inner.Making.{AllKnown, AllStand};
ghost use Rattle.build_plain.specs.Outcomes.{IsOutcome};
ghost use Rattle.build_plain.specs.Breaks.{home_of};

use crate::config::config_of;
use crate::outcome::{Outcome, perm_outcome};
use crate::sources::RESOLVER;
use file_plan::{
    Files, PlanPerm, PlanRefusal, Trees, file_plan_laws, in_use_laws, plan_of, read_tree,
};
use source_trees::{Shapes, read_named, shapes_known, shapes_of};
use std::alloc::Global;
use std::sync::ledger::Ledger;
use tk_io::{NoMemory, Steps};
use token_cells::Earlier;
use transforms::{Config, ConfigFault};

/// What is made of files: `is_made` says of which, by what their configuration says, and `is_making` of which permutations
/// of a plan that is under way, and which of them are still to come.
pub trait Made<'s>: Drop {
    ghost is_made: { FilesData → Result Settings ConfigFault → Self → Type 0 };

    ghost is_making: { Settings → FilesData → List Permutation → List Permutation → Self → Type 0 };

    /// Of files whose configuration is refused.
    fn unconfigured(alloc: Global, files: &Files<'s>, fault: &ConfigFault) -> Result<Self, NoMemory>
        ensures ok { IfOk result (is_made files.now (Err fault.now)) }
        ensures broken { OnOk result (fault.now ≢ OutOfMemory) };

    /// Of files whose plan is refused.
    fn unplanned(
        alloc: Global,
        files: &Files<'s>,
        trees: Trees<'s>,
        refusal: &PlanRefusal<'_>,
    ) -> Result<Self, NoMemory>
        requires refused { IsPlanRefusal (Plans (map.get files.now resolver_path)) refusal.now }
        requires trees { AreTreesIn (resolver_in files.now) trees }
        ensures ok { (settings : Settings) → IfOk result (is_made files.now (Ok settings)) }
        ensures broken { OnOk result (is_some (break_of refusal.now) ≡ true) };

    /// Before the first permutation of a plan, of which these are the trees.
    fn start(alloc: Global, trees: Trees<'s>) -> Self
        ensures begins { (settings : Settings) (files : FilesData) (perms : List Permutation)
            → AreTreesIn (files_in_use files perms) trees.entry
            → AreApart (each (λ p. p.name) perms)
            → is_making settings files perms perms result }
        // Where none is still to come, it is made of the plan.
        ensures ends { (settings : Settings) (files : FilesData) (perms : List Permutation)
            → (made : Self) → Plans (map.get files resolver_path) (planned perms)
            → is_making settings files perms [] made → is_made files (Ok settings) made };

    /// Adds what a permutation comes to, by the shapes of the files that its sources name. Its tree may be kept for the next
    /// one.
    fn add(
        &mut self,
        alloc: Global,
        files: &Files<'s>,
        cfg: &Config,
        shapes: &Shapes<'s>,
        perm: &PlanPerm<'s>,
        outcome: Outcome<'s>,
        earlier: &mut Earlier<'s>,
    ) -> Result<(), NoMemory>
        requires outcome { IsOutcome cfg.now files.now (plan_perm_view perm.now) outcome }
        requires stand { AllInlineStand (home_of files.now).text
            (plan_sources_view perm.now.sources) }
        requires known { AreKnown files.now shapes.now (plan_sources_view perm.now.sources) }
        ensures { (all others : List Permutation)
            → is_making cfg.now files.now all (plan_perm_view perm.now ∷ others) self.old
            → OnOk result (is_making cfg.now files.now all others self.new) };
}

// Made of the permutations of a plan, of which these are the trees.
fn make_perms<'s, T: Made<'s>, M: Ledger, N: Ledger>(
    alloc: Global,
    files: &Files<'s>,
    cfg: &Config,
    shapes: &Shapes<'s>,
    plan: &[PlanPerm<'s>],
    trees: Trees<'s>,
    earlier: &mut Earlier<'s>,
    merges: &mut Steps<M>,
    evals: &mut Steps<N>,
) -> Result<T, NoMemory>
    requires plan { Plans (map.get files.now resolver_path) (planned (plan_view plan.now)) }
    requires stand { AllStand files.now (plan_view plan.now) }
    requires known { AllKnown files.now shapes.now (plan_view plan.now) }
    requires apart { AreApart (each (λ p. p.name) (plan_view plan.now)) }
    requires trees { AreTreesIn (files_in_use files.now (plan_view plan.now)) trees }
    ensures ok { IfOk result (T.is_made files.now (Ok cfg.now)) }
    ensures work { OnOk result (RiseBy (PermsWork files.now (plan_view plan.now))
        (work 0 merges.old evals.old) (work 0 merges.new evals.new)) }
    ensures at_most { RiseWithin (PermsWork files.now (plan_view plan.now))
        (work 0 merges.old evals.old) (work 0 merges.new evals.new) }
{
    let mut made = T::start(alloc, trees);
    for perm in plan {
        let outcome = perm_outcome(alloc, files, cfg, shapes, perm, earlier, merges, evals)?;
        made.add(alloc, files, cfg, shapes, perm, outcome, earlier)?;
    }
    Ok(made)
}

/// The shapes of all files that the plan names, each of which is read once.
pub(crate) fn read_shapes<'s, L: Ledger>(
    alloc: Global,
    files: &Files<'s>,
    plan: &[PlanPerm<'s>],
    trees: &mut Trees<'s>,
    parses: &mut Steps<L>,
) -> Result<Shapes<'s>, NoMemory>
    requires trees { AreTreesIn (resolver_in files.now) trees.now }
    ensures trees { OnOk result
        (AreTreesIn (files_in_use files.now (plan_view plan.now)) trees.new) }
    ensures known { IfOk result (λ shapes. AllKnown files.now shapes (plan_view plan.now)) }
    ensures steps { OnOk result (parses.new + text_count (map.get files.now resolver_path)
        ≡ parses.old + map.len (files_in_use files.now (plan_view plan.now))) }
    ensures at_most { parses.new + text_count (map.get files.now resolver_path)
        ≤ parses.old + map.len (files_in_use files.now (plan_view plan.now)) }
{
    in_use_laws();
    shapes_known();
    read_named(alloc, files, plan, trees, parses)?;
    shapes_of(alloc, files, trees)
}

// Made of files with this plan. The resolver document is read before.
fn make_planned<'s, T: Made<'s>, L: Ledger, M: Ledger, N: Ledger>(
    alloc: Global,
    files: &Files<'s>,
    cfg: &Config,
    plan: &[PlanPerm<'s>],
    mut trees: Trees<'s>,
    earlier: &mut Earlier<'s>,
    parses: &mut Steps<L>,
    merges: &mut Steps<M>,
    evals: &mut Steps<N>,
) -> Result<T, NoMemory>
    requires plan { Plans (map.get files.now resolver_path) (planned (plan_view plan.now)) }
    requires trees { AreTreesIn (resolver_in files.now) trees }
    ensures ok { IfOk result (T.is_made files.now (Ok cfg.now)) }
    ensures steps { OnOk result (parses.new + text_count (map.get files.now resolver_path)
        ≡ parses.old + map.len (files_in_use files.now (plan_view plan.now))) }
    ensures work { OnOk result (RiseBy (PermsWork files.now (plan_view plan.now))
        (work 0 merges.old evals.old) (work 0 merges.new evals.new)) }
    ensures most_steps { parses.new + text_count (map.get files.now resolver_path)
        ≤ parses.old + map.len (files_in_use files.now (plan_view plan.now)) }
    ensures at_most { RiseWithin (PermsWork files.now (plan_view plan.now))
        (work 0 merges.old evals.old) (work 0 merges.new evals.new) }
{
    file_plan_laws();
    let shapes = read_shapes(alloc, files, plan, &mut trees, parses)?;
    make_perms(
        alloc, files, cfg, &shapes, plan, trees, earlier, merges, evals,
    )
}

/// The tree of the resolver document, where it is there.
pub(crate) fn read_resolver<'s, L: Ledger>(
    alloc: Global,
    files: &Files<'s>,
    parses: &mut Steps<L>,
) -> Result<Trees<'s>, NoMemory>
    ensures trees { IfOk result (AreTreesIn (resolver_in files.now)) }
    ensures steps { OnOk result
        (parses.new ≡ parses.old + text_count (map.get files.now resolver_path)) }
    ensures at_most { parses.new ≤ parses.old + text_count (map.get files.now resolver_path) }
{
    let mut trees = Trees::new(alloc);
    match files.get(RESOLVER) {
        Some(text) => {
            let tree = read_tree(alloc, text, parses)?;
            trees.put(RESOLVER, tree)?;
            Ok(trees)
        }
        None => Ok(trees),
    }
}

// Made of files under a configuration.
fn make_under<'s, T: Made<'s>, L: Ledger, M: Ledger, N: Ledger>(
    alloc: Global,
    files: &Files<'s>,
    cfg: &Config,
    earlier: &mut Earlier<'s>,
    parses: &mut Steps<L>,
    merges: &mut Steps<M>,
    evals: &mut Steps<N>,
) -> Result<T, NoMemory>
    ensures ok { IfOk result (T.is_made files.now (Ok cfg.now)) }
    ensures work { OnOk result (RiseBy (WorkUnder files.now (Ok cfg.now))
        (work parses.old merges.old evals.old) (work parses.new merges.new evals.new)) }
    ensures at_most { RiseWithin (WorkUnder files.now (Ok cfg.now))
        (work parses.old merges.old evals.old) (work parses.new merges.new evals.new) }
{
    file_plan_laws();
    let trees = read_resolver(alloc, files, parses)?;
    match plan_of(alloc, trees.get(RESOLVER)) {
        Ok(plan) => {
            let plan = plan.as_slice();
            make_planned(
                alloc, files, cfg, plan, trees, earlier, parses, merges, evals,
            )
        }
        Err(refusal) => T::unplanned(alloc, files, trees, &refusal),
    }
}

/// Made of files. Each file in use is read once, which is one step of `parses`; a merged tree that is made flat is one of
/// `merges`, and each token of a flat tree one of `evals`.
pub fn make<'s, T: Made<'s>, L: Ledger, M: Ledger, N: Ledger>(
    alloc: Global,
    files: &Files<'s>,
    earlier: &mut Earlier<'s>,
    parses: &mut Steps<L>,
    merges: &mut Steps<M>,
    evals: &mut Steps<N>,
) -> Result<T, NoMemory>
    ensures ok { IfOk result (T.is_made files.now (settings_of files.now)) }
    ensures work { OnOk result (RiseBy (IsWork files.now)
        (work parses.old merges.old evals.old) (work parses.new merges.new evals.new)) }
    // Where memory runs out, less may have been done.
    ensures at_most { RiseWithin (IsWork files.now)
        (work parses.old merges.old evals.old) (work parses.new merges.new evals.new) }
{
    match config_of(alloc, files) {
        Ok(cfg) => make_under(alloc, files, &cfg, earlier, parses, merges, evals),
        Err(fault) => T::unconfigured(alloc, files, &fault),
    }
}
