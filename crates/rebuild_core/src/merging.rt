//! What a permutation comes to, with what it came to before.

ghost use Rattle.std.specs.Prelude.{◌≡◌, ◌+◌, ◌≤◌, ℕ, Some, None, Option, IfOk, IfSome};
ghost use Rattle.std.specs.Option.{option_map};
ghost use Rattle.tk_io.specs.FilesData.{FilesData};
ghost use Rattle.token_tree.specs.View.{group_view};
ghost use Rattle.permutations.specs.Permutation.{Permutation};
ghost use Rattle.file_plan.specs.View.{plan_perm_view, plan_sources_view};
ghost use Rattle.source_trees.specs.Merges.{IsMergeOf};
ghost use Rattle.source_trees.specs.Merging.{AllInlineStand, AreKnown, IsFront};
ghost use Rattle.source_trees.specs.declared.merge.Merge.{Merge as MergeData};
ghost use Rattle.transforms.specs.Config.{Settings};
ghost use Rattle.build_plain.specs.Breaks.{home_of};
ghost use Rattle.build_plain.specs.Outcomes.{HoldsCells, IsOutcome, IsTreeOutcome, merge_in};
ghost use Rattle.build_plain.specs.Work.{RiseWithin, added, work};
ghost use Rattle.rebuild_core.specs.Work.{HasSources, KeptPerm, contents_of};
ghost use Rattle.rebuild_core.specs.inner.Evaluating.{AreCellsOf};
ghost use Rattle.rebuild_core.specs.inner.Merging.{AllReached, EvalsOf, IsKeptAgain, IsMergedDone, IsTreeUnder, WorkBeside, done_view, flat_of};
ghost use Rattle.rebuild_core.specs.inner.Past.{outcome_of};

use crate::below::laws_below;
use crate::copying::copy_flat;
use crate::evaluating::{Counted, evaluated_anew, evaluated_tree};
use crate::past::Shared;
use alias_ref::differ_decides;
use build_plain::{Outcome, home_of};
use file_plan::{Files, PlanPerm};
use source_trees::{Front, Merge, Merged, Shapes, SourceBreak, merge_of, merged_behind};
use std::alloc::Global;
use std::sync::ledger::Ledger;
use tk_io::{NoMemory, Steps};
use token_cells::Evaluated;
use token_tree::Group;
use transforms::Config;

/// What a permutation comes to, whether it was merged for it, and how many tokens were evaluated.
#[derive(Drop)]
pub(crate) struct Done<'s> {
    pub(crate) shared: Shared<'s>,
    pub(crate) merged: usize,
    pub(crate) evaluated: usize,
}

/// The tree whose tokens were evaluated, where it came to one.
pub(crate) fn tree_in<'a, 's>(outcome: &'a Outcome<'s>) -> Option<&'a Evaluated<'s>>
    ensures tree { option_map (λ tree. tree.now.tokens) result ≡ flat_of outcome.now }
    ensures cells { (settings : Settings) → HoldsCells settings outcome.now
        → IfSome result (λ tree. AreCellsOf settings tree.now) }
{
    match outcome {
        Outcome::Tokens(tree) => Some(tree),
        Outcome::TreeBreak(_) => None,
        Outcome::SourceBreak(_) => None,
    }
}

// What a merged tree comes to, and how many of its tokens were evaluated.
fn merged_tree<'s, M: Ledger, N: Ledger>(
    alloc: Global,
    cfg: &Config,
    tree: &Group<'s>,
    old: Option<&Evaluated<'s>>,
    last: Option<&Evaluated<'s>>,
    merges: &mut Steps<M>,
    evals: &mut Steps<N>,
) -> Result<(Outcome<'s>, usize), NoMemory>
    requires old { IfSome old (λ tree. AreCellsOf cfg.now tree.now) }
    requires last { IfSome last (λ tree. AreCellsOf cfg.now tree.now) }
    ensures outcome { IfOk result (λ r. IsTreeOutcome cfg.now (group_view tree.now) r.0) }
    ensures count { IfOk result (λ r. (m : MergeData) × (merge_in r.0 ≡ Some m)
        × EvalsOf (option_map (λ tree. tree.now.tokens) old.entry) m r.1) }
    ensures merge { merges.new ≡ merges.old + 1 }
    ensures steps { IfOk result (λ r. evals.new ≡ evals.old + r.1) }
    ensures at_most { (m : MergeData) (n : ℕ) → IsMergeOf (group_view tree.now) m
        → EvalsOf (option_map (λ tree. tree.now.tokens) old.entry) m n → evals.new ≤ evals.old + n }
{
    laws_below();
    match merge_of(alloc, tree, merges)? {
        Merge::Flat(flat) => {
            let counted = evaluated_tree(alloc, flat, cfg, old, last, evals)?;
            Ok((Outcome::Tokens(counted.tree), counted.evaluated))
        }
        Merge::Broken(fault) => Ok((Outcome::TreeBreak(fault), 0)),
    }
}

// What a permutation comes to whose sources come to this tree, which is merged for it.
fn tree_done<'s, M: Ledger, N: Ledger>(
    alloc: Global,
    files: &Files<'s>,
    cfg: &Config,
    tree: &Group<'s>,
    old: Option<&Evaluated<'s>>,
    last: Option<&Evaluated<'s>>,
    merges: &mut Steps<M>,
    evals: &mut Steps<N>,
) -> Result<Done<'s>, NoMemory>
    requires old { IfSome old (λ tree. AreCellsOf cfg.now tree.now) }
    requires last { IfSome last (λ tree. AreCellsOf cfg.now tree.now) }
    ensures outcome { IfOk result (λ done.
        IsTreeOutcome cfg.now (group_view tree.now) (outcome_of done.shared)) }
    ensures count { IfOk result (λ done.
        IsMergedDone (option_map (λ tree. tree.now.tokens) old.entry) done) }
    ensures merge { merges.new ≡ merges.old + 1 }
    ensures steps { IfOk result (λ done. evals.new ≡ evals.old + done.evaluated) }
    ensures at_most { (m : MergeData) (n : ℕ) → IsMergeOf (group_view tree.now) m
        → EvalsOf (option_map (λ tree. tree.now.tokens) old.entry) m n → evals.new ≤ evals.old + n }
{
    let made = merged_tree(alloc, cfg, tree, old, last, merges, evals)?;
    let shared = Shared::new(alloc, files, made.0)?;
    Ok(Done {
        shared,
        merged: 1,
        evaluated: made.1,
    })
}

// What a permutation comes to of which a source has this break: nothing is merged for it.
fn broken_done<'s>(
    alloc: Global,
    files: &Files<'s>,
    found: SourceBreak<'s>,
) -> Result<Done<'s>, NoMemory>
    ensures outcome { IfOk result (λ done.
        outcome_of done.shared ≡ Outcome.SourceBreak found.entry) }
    ensures nothing { IfOk result (λ done. done_view done ≡ work 0 0 0) }
{
    let shared = Shared::new(alloc, files, Outcome::SourceBreak(found))?;
    Ok(Done {
        shared,
        merged: 0,
        evaluated: 0,
    })
}

/// What the permutation comes to, where its sources hold other than before. Those of the front are not laid again. `old` is
/// its tree before, and `last` that of another permutation, under this configuration.
pub(crate) fn merged_anew<'a, 's, M: Ledger, N: Ledger>(
    alloc: Global,
    files: &Files<'s>,
    cfg: &Config,
    shapes: &Shapes<'s>,
    perm: &'a PlanPerm<'s>,
    front: &mut Front<'a, 's>,
    old: Option<&Evaluated<'s>>,
    last: Option<&Evaluated<'s>>,
    merges: &mut Steps<M>,
    evals: &mut Steps<N>,
) -> Result<Done<'s>, NoMemory>
    requires stand { AllInlineStand (home_of files.now).text (plan_sources_view perm.now.sources) }
    requires known { AreKnown files.now shapes.now (plan_sources_view perm.now.sources) }
    requires front { IsFront shapes.now (home_of files.now) front.old }
    requires old { IfSome old (λ tree. AreCellsOf cfg.now tree.now) }
    requires last { IfSome last (λ tree. AreCellsOf cfg.now tree.now) }
    ensures front { IsFront shapes.now (home_of files.now) front.new }
    ensures outcome { IfOk result (λ done.
        IsOutcome cfg.now files.now (plan_perm_view perm.now) (outcome_of done.shared)) }
    ensures work { (kept : Option KeptPerm)
        → IsTreeUnder kept cfg.now (option_map (λ tree. tree.now.tokens) old.entry)
        → (HasSources kept (contents_of files.now (plan_perm_view perm.now)) → ⊥)
        → IfOk result (λ done.
        WorkBeside kept cfg.now files.now (plan_perm_view perm.now) (done_view done)) }
    ensures counted { IfOk result (λ done. work 0 merges.new evals.new
        ≡ added (work 0 merges.old evals.old) (done_view done)) }
    ensures at_most { (kept : Option KeptPerm)
        → IsTreeUnder kept cfg.now (option_map (λ tree. tree.now.tokens) old.entry)
        → (HasSources kept (contents_of files.now (plan_perm_view perm.now)) → ⊥)
        → RiseWithin (WorkBeside kept cfg.now files.now (plan_perm_view perm.now))
        (work 0 merges.old evals.old) (work 0 merges.new evals.new) }
{
    laws_below();
    let home = home_of(files);
    let sources = perm.sources.as_slice();
    match merged_behind(alloc, shapes, home, sources, front)? {
        Merged::Tree(tree) => tree_done(alloc, files, cfg, &tree, old, last, merges, evals),
        Merged::Broken(found) => broken_done(alloc, files, found),
    }
}

// The same under another configuration, of the files that are present.
fn recast<'s, N: Ledger>(
    alloc: Global,
    present: &Files<'s>,
    cfg: &Config,
    kept: &Shared<'s>,
    last: Option<&Evaluated<'s>>,
    evals: &mut Steps<N>,
) -> Result<Done<'s>, NoMemory>
    requires last { IfSome last (λ tree. AreCellsOf cfg.now tree.now) }
    ensures outcome { (files : FilesData) (p : Permutation) (settings : Settings)
        → IsOutcome settings files p (outcome_of kept.now)
        → IfOk result (λ done. IsOutcome cfg.now files p (outcome_of done.shared)) }
    ensures merge { IfOk result (λ done. done.merged ≡ 0) }
    ensures count { IfOk result (λ done.
        AllReached (flat_of (outcome_of kept.now)) done.evaluated) }
    ensures steps { IfOk result (λ done. evals.new ≡ evals.old + done.evaluated) }
    ensures at_most { (n : ℕ) → AllReached (flat_of (outcome_of kept.now)) n
        → evals.new ≤ evals.old + n }
{
    match tree_in(kept.outcome()) {
        Some(tree) => {
            let flat = copy_flat(alloc, tree.tokens())?;
            let counted = evaluated_anew(alloc, flat, cfg, last, evals)?;
            let shared = Shared::new(alloc, present, Outcome::Tokens(counted.tree))?;
            Ok(Done {
                shared,
                merged: 0,
                evaluated: counted.evaluated,
            })
        }
        None => {
            let shared = kept.share()?;
            Ok(Done {
                shared,
                merged: 0,
                evaluated: 0,
            })
        }
    }
}

/// What a permutation comes to whose sources hold what they held, when it came to this under that configuration: the same,
/// and under another configuration all its tokens are evaluated. `last` is the tree of another permutation, and `present`
/// are the files.
pub(crate) fn kept_again<'s, N: Ledger>(
    alloc: Global,
    present: &Files<'s>,
    cfg: &Config,
    config: &Config,
    kept: &Shared<'s>,
    last: Option<&Evaluated<'s>>,
    evals: &mut Steps<N>,
) -> Result<Done<'s>, NoMemory>
    requires { IfSome last (λ tree. AreCellsOf cfg.now tree.now) }
    ensures outcome { (files : FilesData) (p : Permutation)
        → IsOutcome config.now files p (outcome_of kept.now)
        → IfOk result (λ done. IsOutcome cfg.now files p (outcome_of done.shared)) }
    ensures work { (files : FilesData) (p : Permutation) (before : KeptPerm)
        → IsKeptAgain files p config.now (outcome_of kept.now) before
        → IfOk result (λ done. WorkBeside (Some before) cfg.now files p (done_view done)) }
    ensures counted { IfOk result (λ done. (m : ℕ) → work 0 m evals.new
        ≡ added (work 0 m evals.old) (done_view done)) }
    ensures at_most { (files : FilesData) (p : Permutation) (before : KeptPerm) (m : ℕ)
        → IsKeptAgain files p config.now (outcome_of kept.now) before
        → RiseWithin (WorkBeside (Some before) cfg.now files p)
        (work 0 m evals.old) (work 0 m evals.new) }
{
    laws_below();
    differ_decides();
    let is_same = config.is_same(cfg);
    if is_same {
        let shared = kept.share()?;
        return Ok(Done {
            shared,
            merged: 0,
            evaluated: 0,
        });
    }
    recast(alloc, present, cfg, kept, last, evals)
}
