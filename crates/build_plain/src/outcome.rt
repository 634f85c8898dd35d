//! What a permutation comes to.

ghost use Rattle.std.specs.Prelude.{IfOk, OnOk};
ghost use Rattle.token_tree.specs.View.{group_view};
ghost use Rattle.file_plan.specs.View.{plan_perm_view, plan_sources_view};
ghost use Rattle.source_trees.specs.Merging.{AllInlineStand, AreKnown};
ghost use Rattle.build_plain.specs.Breaks.{home_of};
ghost use Rattle.build_plain.specs.Work.{PermWork, RiseBy, RiseWithin, TreeWork, work};
ghost use Rattle.build_plain.specs.Outcomes.{IsOutcome, IsTreeOutcome};

use crate::sources::home_of;
use file_plan::{Files, PlanPerm};
use group_inherit::{TreeFault, one_answer};
use source_trees::{Merge, Merged, Shapes, SourceBreak, merge_of, merged_sources, one_merge};
use std::alloc::Global;
use std::sync::ledger::Ledger;
use tk_io::{NoMemory, Steps};
use token_cells::{Earlier, Evaluated, cells_of};
use token_tree::Group;
use transforms::Config;

/// What a permutation comes to.
#[derive(Drop)]
pub enum Outcome<'s> {
    /// The flat tree, and what its tokens come to.
    Tokens(Evaluated<'s>),
    /// The rule that the merged tree breaks.
    TreeBreak(TreeFault<'s>),
    /// The first rule that a source breaks.
    SourceBreak(SourceBreak<'s>),
}

// What a merged tree comes to.
fn tree_outcome<'s, M: Ledger, N: Ledger>(
    alloc: Global,
    cfg: &Config,
    tree: &Group<'s>,
    earlier: &Earlier<'s>,
    merges: &mut Steps<M>,
    evals: &mut Steps<N>,
) -> Result<Outcome<'s>, NoMemory>
    ensures ok { IfOk result (IsTreeOutcome cfg.now (group_view tree.now)) }
    ensures work { OnOk result (RiseBy (TreeWork (group_view tree.now))
        (work 0 merges.old evals.old) (work 0 merges.new evals.new)) }
    ensures at_most { RiseWithin (TreeWork (group_view tree.now))
        (work 0 merges.old evals.old) (work 0 merges.new evals.new) }
{
    one_answer();
    match merge_of(alloc, tree, merges)? {
        Merge::Flat(flat) => {
            let evaluated = cells_of(alloc, flat, cfg, earlier, evals)?;
            Ok(Outcome::Tokens(evaluated))
        }
        Merge::Broken(fault) => Ok(Outcome::TreeBreak(fault)),
    }
}

/// What a permutation comes to.
pub(crate) fn perm_outcome<'s, M: Ledger, N: Ledger>(
    alloc: Global,
    files: &Files<'s>,
    cfg: &Config,
    shapes: &Shapes<'s>,
    perm: &PlanPerm<'s>,
    earlier: &Earlier<'s>,
    merges: &mut Steps<M>,
    evals: &mut Steps<N>,
) -> Result<Outcome<'s>, NoMemory>
    requires stand { AllInlineStand (home_of files.now).text (plan_sources_view perm.now.sources) }
    requires known { AreKnown files.now shapes.now (plan_sources_view perm.now.sources) }
    ensures ok { IfOk result (IsOutcome cfg.now files.now (plan_perm_view perm.now)) }
    ensures work { OnOk result (RiseBy (PermWork files.now (plan_perm_view perm.now))
        (work 0 merges.old evals.old) (work 0 merges.new evals.new)) }
    ensures at_most { RiseWithin (PermWork files.now (plan_perm_view perm.now))
        (work 0 merges.old evals.old) (work 0 merges.new evals.new) }
{
    one_merge();
    let home = home_of(files);
    let sources = perm.sources.as_slice();
    match merged_sources(alloc, shapes, home, sources)? {
        Merged::Tree(tree) => tree_outcome(alloc, cfg, &tree, earlier, merges, evals),
        Merged::Broken(found) => Ok(Outcome::SourceBreak(found)),
    }
}
