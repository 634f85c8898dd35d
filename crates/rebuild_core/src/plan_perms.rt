//! What permutations come to, with what they came to before.

ghost use Rattle.std.specs.Prelude.{◌≡◌, ◌≢◌, List, Some, None, Option, IfOk, IfSome, OnOk, MatchOption};
ghost use Rattle.std.specs.FinMap as map;
ghost use Rattle.std.specs.Option.{option_map};
ghost use Rattle.tk_io.specs.FilesData.{FilesData};
ghost use Rattle.permutations.specs.Permutation.{Permutation};
ghost use Rattle.file_plan.specs.View.{plan_perm_view, plan_sources_view, plan_view};
ghost use Rattle.source_trees.specs.Merging.{AllInlineStand, AreKnown, IsFront};
ghost use Rattle.transforms.specs.Config.{Settings};
ghost use Rattle.build_plain.specs.Breaks.{home_of};
ghost use Rattle.build_plain.specs.Out.{GivesFrom};
ghost use Rattle.build_plain.specs.Outcomes.{HoldsCells, IsOutcome};
ghost use Rattle.build_plain.specs.Work.{RiseWithin, added, work};
ghost use Rattle.build_plain.specs.inner.Making.{AllKnown, AllStand};
ghost use Rattle.rebuild_core.specs.Work.{PermWorkFrom, PermsWorkFrom, named};
ghost use Rattle.rebuild_core.specs.inner.Evaluating.{AreCellsOf};
ghost use Rattle.rebuild_core.specs.inner.Merging.{IsNamedAt, done_view, flat_of};
ghost use Rattle.rebuild_core.specs.inner.Past.{CameTo, IsPast, outcome_of};
ghost use Rattle.rebuild_core.specs.inner.Renewing.{HasCome, all_view};

use crate::below::laws_below;
use crate::contents::holds_the_same;
use crate::merging::{Done, kept_again, merged_anew, tree_in};
use crate::past::{Past, Shared};
use crate::putting::put_shared;
use build_plain::Outcome;
use file_plan::{Files, PlanPerm};
use source_trees::{Front, Shapes, alike, merged_by_content};
use std::alloc::Global;
use std::sync::ledger::Ledger;
use tk_io::{NoMemory, Outputs, Steps};
use token_cells::Evaluated;
use transforms::Config;

/// What permutations came to, how many were merged for it, and how many tokens were evaluated.
#[derive(Drop)]
pub(crate) struct AllDone<'s> {
    pub(crate) outcomes: Vec<Shared<'s>>,
    pub(crate) merged: usize,
    pub(crate) evaluated: usize,
}

impl<'s> AllDone<'s> {
    // One more, as long as the numbers can be told.
    fn add(&mut self, done: Done<'s>) -> Result<(), NoMemory>
        ensures { OnOk result (HasCome self.old done.entry self.new) }
    {
        let Done {
            shared,
            merged,
            evaluated,
        } = done;
        let Some(all_merged) = self.merged.checked_add(merged) else {
            return Err(NoMemory);
        };
        let Some(all_evaluated) = self.evaluated.checked_add(evaluated) else {
            return Err(NoMemory);
        };
        self.outcomes.push(shared)?;
        self.merged = all_merged;
        self.evaluated = all_evaluated;
        Ok(())
    }
}

// Where the permutation of the name stands in the plan.
fn place_named(plan: &[PlanPerm<'_>], name: &str) -> Option<usize>
    ensures { MatchOption result (named name.now (plan_view plan.now) ≡ None)
        (λ i. IsNamedAt plan.now name.now i) }
{
    for (i, perm) in plan.iter().enumerate() {
        if perm.name.as_str() == name {
            return Some(i);
        }
    }
    None
}

// The tree of the last of these outcomes, where it came to one.
fn last_tree<'a, 's>(outcomes: &'a [Shared<'s>]) -> Option<&'a Evaluated<'s>>
    ensures { (settings : Settings) (files : FilesData) (perms : List Permutation)
        → CameTo settings files perms outcomes.now
        → IfSome result (λ tree. AreCellsOf settings tree.now) }
{
    match outcomes.last() {
        Some(shared) => tree_in(shared.outcome()),
        None => None,
    }
}

// The tree whose tokens were evaluated under that configuration, where it is this one.
fn tree_under<'a, 's>(
    config: &Config,
    cfg: &Config,
    outcome: &'a Outcome<'s>,
) -> Option<&'a Evaluated<'s>>
    ensures same { config.now ≡ cfg.now
        → option_map (λ tree. tree.now.tokens) result ≡ flat_of outcome.now }
    ensures other { config.now ≢ cfg.now → option_map (λ tree. tree.now.tokens) result ≡ None }
    ensures cells { HoldsCells config.now outcome.now
        → IfSome result (λ tree. AreCellsOf cfg.now tree.now) }
{
    let is_same = config.is_same(cfg);
    if is_same {
        return tree_in(outcome);
    }
    None
}

// What a permutation comes to that stood at this place of the plan before.
fn renewed_at<'a, 's, M: Ledger, N: Ledger>(
    alloc: Global,
    files: &Files<'s>,
    cfg: &Config,
    shapes: &Shapes<'s>,
    past: &Past<'s>,
    i: usize,
    perm: &'a PlanPerm<'s>,
    front: &mut Front<'a, 's>,
    last: Option<&Evaluated<'s>>,
    merges: &mut Steps<M>,
    evals: &mut Steps<N>,
) -> Result<Done<'s>, NoMemory>
    requires stand { AllInlineStand (home_of files.now).text (plan_sources_view perm.now.sources) }
    requires known { AreKnown files.now shapes.now (plan_sources_view perm.now.sources) }
    requires front { IsFront shapes.now (home_of files.now) front.old }
    requires last { IfSome last (λ tree. AreCellsOf cfg.now tree.now) }
    requires past { (before : Option FilesData) × IsPast before past.now }
    requires there { IsNamedAt past.now.plan perm.now.name i }
    ensures front { IsFront shapes.now (home_of files.now) front.new }
    ensures outcome { IfOk result (λ done.
        IsOutcome cfg.now files.now (plan_perm_view perm.now) (outcome_of done.shared)) }
    ensures work { (before : Option FilesData) → IsPast before past.now → IfOk result (λ done.
        PermWorkFrom before cfg.now files.now (plan_perm_view perm.now) (done_view done)) }
    ensures counted { IfOk result (λ done. work 0 merges.new evals.new
        ≡ added (work 0 merges.old evals.old) (done_view done)) }
    ensures at_most { (before : Option FilesData) → IsPast before past.now
        → RiseWithin (PermWorkFrom before cfg.now files.now (plan_perm_view perm.now))
        (work 0 merges.old evals.old) (work 0 merges.new evals.new) }
{
    laws_below();
    merged_by_content();
    let plan = past.plan.as_slice();
    let outcomes = past.outcomes.as_slice();
    let old = &plan[i];
    let kept = &outcomes[i];
    let is_same = holds_the_same(&past.files, old, files, perm);
    if is_same {
        return kept_again(alloc, files, cfg, &past.config, kept, last, evals);
    }
    let tree = tree_under(&past.config, cfg, kept.outcome());
    merged_anew(
        alloc, files, cfg, shapes, perm, front, tree, last, merges, evals,
    )
}

// What a permutation comes to.
fn renewed_perm<'a, 's, M: Ledger, N: Ledger>(
    alloc: Global,
    files: &Files<'s>,
    cfg: &Config,
    shapes: &Shapes<'s>,
    past: &Past<'s>,
    perm: &'a PlanPerm<'s>,
    front: &mut Front<'a, 's>,
    last: Option<&Evaluated<'s>>,
    merges: &mut Steps<M>,
    evals: &mut Steps<N>,
) -> Result<Done<'s>, NoMemory>
    requires stand { AllInlineStand (home_of files.now).text (plan_sources_view perm.now.sources) }
    requires known { AreKnown files.now shapes.now (plan_sources_view perm.now.sources) }
    requires front { IsFront shapes.now (home_of files.now) front.old }
    requires last { IfSome last (λ tree. AreCellsOf cfg.now tree.now) }
    requires past { (before : Option FilesData) × IsPast before past.now }
    ensures front { IsFront shapes.now (home_of files.now) front.new }
    ensures outcome { IfOk result (λ done.
        IsOutcome cfg.now files.now (plan_perm_view perm.now) (outcome_of done.shared)) }
    ensures work { (before : Option FilesData) → IsPast before past.now → IfOk result (λ done.
        PermWorkFrom before cfg.now files.now (plan_perm_view perm.now) (done_view done)) }
    ensures counted { IfOk result (λ done. work 0 merges.new evals.new
        ≡ added (work 0 merges.old evals.old) (done_view done)) }
    ensures at_most { (before : Option FilesData) → IsPast before past.now
        → RiseWithin (PermWorkFrom before cfg.now files.now (plan_perm_view perm.now))
        (work 0 merges.old evals.old) (work 0 merges.new evals.new) }
{
    laws_below();
    match place_named(past.plan.as_slice(), perm.name.as_str()) {
        Some(i) => renewed_at(
            alloc, files, cfg, shapes, past, i, perm, front, last, merges, evals,
        ),
        None => merged_anew(
            alloc, files, cfg, shapes, perm, front, None, last, merges, evals,
        ),
    }
}

// With how many of its sources the next permutation begins too.
fn begun_alike(perm: &PlanPerm<'_>, next: Option<&PlanPerm<'_>>) -> usize {
    match next {
        Some(next) => alike(perm.sources.as_slice(), next.sources.as_slice()),
        None => 0,
    }
}

/// What the permutations of a plan come to. Sources with which one begins as the one before it are laid once.
pub(crate) fn renewed_perms<'s, M: Ledger, N: Ledger>(
    alloc: Global,
    files: &Files<'s>,
    cfg: &Config,
    shapes: &Shapes<'s>,
    past: &Past<'s>,
    plan: &[PlanPerm<'s>],
    merges: &mut Steps<M>,
    evals: &mut Steps<N>,
) -> Result<AllDone<'s>, NoMemory>
    requires stand { AllStand files.now (plan_view plan.now) }
    requires known { AllKnown files.now shapes.now (plan_view plan.now) }
    requires past { (before : Option FilesData) × IsPast before past.now }
    ensures outcomes { IfOk result (λ all.
        CameTo cfg.now files.now (plan_view plan.now) all.outcomes.items) }
    ensures work { (before : Option FilesData) → IsPast before past.now → IfOk result (λ all.
        PermsWorkFrom before cfg.now files.now (plan_view plan.now) (all_view all)) }
    ensures counted { IfOk result (λ all. work 0 merges.new evals.new
        ≡ added (work 0 merges.old evals.old) (all_view all)) }
    ensures at_most { (before : Option FilesData) → IsPast before past.now
        → RiseWithin (PermsWorkFrom before cfg.now files.now (plan_view plan.now))
        (work 0 merges.old evals.old) (work 0 merges.new evals.new) }
{
    let mut all = AllDone {
        outcomes: Vec::new(alloc),
        merged: 0,
        evaluated: 0,
    };
    let mut front = Front::none(alloc);
    for perm in plan {
        let so_far = all.outcomes.as_slice();
        let last = last_tree(so_far);
        front.keep = begun_alike(perm, plan.get(so_far.len() + 1));
        let done = renewed_perm(
            alloc, files, cfg, shapes, past, perm, &mut front, last, merges, evals,
        )?;
        all.add(done)?;
    }
    Ok(all)
}

/// The outputs of the permutations of a plan, which came to these.
pub(crate) fn outputs_of<'s>(
    alloc: Global,
    files: &Files<'s>,
    cfg: &Config,
    plan: &[PlanPerm<'s>],
    outcomes: &[Shared<'s>],
) -> Result<Outputs, NoMemory>
    requires { CameTo cfg.now files.now (plan_view plan.now) outcomes.now }
    ensures { IfOk result (GivesFrom cfg.now files.now (plan_view plan.now) map.empty) }
{
    let mut outputs = Outputs::new(alloc);
    for (i, perm) in plan.iter().enumerate() {
        put_shared(alloc, files, cfg, perm, &outcomes[i], &mut outputs)?;
    }
    Ok(outputs)
}
