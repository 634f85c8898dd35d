//! The flat tree of one permutation.

ghost use Rattle.std.specs.Prelude.{◌≡◌, ◌+◌, ◌≤◌, Ok, Err, IfOk, IfErr, IfSome, IfNone};
ghost use Rattle.std.specs.Prelude.{map as each};
ghost use Rattle.std.specs.FinMap as map;
ghost use Rattle.ring.specs.Lists.{In};
ghost use Rattle.token_tree.specs.View.{group_view};
ghost use Rattle.file_plan.specs.InUse.{resolver_in, resolver_path, files_in_use};
ghost use Rattle.file_plan.specs.Plan.{Plans, planned, text_count};
ghost use Rattle.file_plan.specs.Trees.{AreTreesIn};
ghost use Rattle.file_plan.specs.View.{plan_perm_view, plan_sources_view, plan_view};
ghost use Rattle.source_trees.specs.Merges.{IsMergeOf};
ghost use Rattle.source_trees.specs.Merging.{AllInlineStand, AreKnown};
ghost use Rattle.source_trees.specs.declared.merge.Merge.TheVariants.{Broken, Flat as FlatMerge};
ghost use Rattle.group_inherit.specs.declared.fault.TreeFault.{TreeFault};
ghost use Rattle.transforms.specs.Config.{Settings};
ghost use Rattle.refusals.specs.Planning.{break_of};
ghost use Rattle.build_plain.specs.Breaks.{home_of};
ghost use Rattle.build_plain.specs.OneTree.{ComesTo, ComesToIn, ComesToUnder, has_tree};
ghost use Rattle.build_plain.specs.OneTree.{HasTree, IsNamed, IsStop, LacksTree};
ghost use Rattle.build_plain.specs.Work.{IsWork, Work, WorkUnder};
ghost use Rattle.build_plain.specs.inner.OneTree.{unconfigured, unplanned};
ghost use Rattle.build_plain.specs.declared.one_tree.FlatStop.TheVariants.{NoMemory as OutOfMemory};

use crate::config::config_of;
use crate::making::{read_resolver, read_shapes};
use crate::sources::{RESOLVER, home_of};
use file_plan::{Files, PlanPerm, PlanRefusal, Trees, file_plan_laws, plan_of};
use group_inherit::Flat;
use source_trees::{Merge, Merged, Shapes, merge_of, merged_sources};
use std::alloc::Global;
use std::sync::ledger::Ledger;
use tk_io::{NoMemory, Steps};
use token_tree::Group;
use transforms::ConfigFault;

/// Why a name has no flat tree.
#[derive(Clone, Copy, PartialEq, Eq)]
pub enum FlatStop {
    /// The configuration breaks a rule, or the resolver document does.
    NoPlan,
    /// No permutation of the plan has the name.
    NoName,
    /// A source of the permutation breaks a rule, or the tree that is merged of them does.
    NoFlat,
    /// Memory ran out.
    NoMemory,
}

impl From<NoMemory> for FlatStop {
    ghost from_gives = { λ _ e. e ≡ OutOfMemory };

    fn from(_: NoMemory) -> FlatStop {
        FlatStop::NoMemory
    }
}

// Why files whose configuration is refused have no plan.
fn unconfigured(fault: &ConfigFault) -> FlatStop
    ensures { result ≡ unconfigured fault.now }
{
    match fault {
        ConfigFault::Toml => FlatStop::NoPlan,
        ConfigFault::Key(_) => FlatStop::NoPlan,
        ConfigFault::NoMemory => FlatStop::NoMemory,
    }
}

// Why files whose resolver document is refused have no plan.
fn unplanned(refusal: &PlanRefusal<'_>) -> FlatStop
    ensures { result ≡ unplanned (break_of refusal.now) }
{
    match refusal {
        PlanRefusal::NoMemory => FlatStop::NoMemory,
        _ => FlatStop::NoPlan,
    }
}

// The permutation that has the name.
fn perm_named<'a, 's>(plan: &'a [PlanPerm<'s>], name: &str) -> Option<&'a PlanPerm<'s>>
    ensures found { IfSome result (λ p.
        IsNamed (plan_view plan.now) name.now (plan_perm_view p.now)) }
    ensures none { IfNone result (In name.now (each (λ p. p.name) (plan_view plan.now)) → ⊥) }
{
    for perm in plan {
        if perm.name.as_str() == name {
            return Some(perm);
        }
    }
    None
}

// The flat tree of a merged tree.
fn flat_of_tree<'s, M: Ledger>(
    alloc: Global,
    tree: &Group<'s>,
    merges: &mut Steps<M>,
) -> Result<Flat<'s>, FlatStop>
    ensures ok { IfOk result (λ flat. IsMergeOf (group_view tree.now) (FlatMerge flat)) }
    ensures broken { result ≡ Err FlatStop.NoFlat → (broken : TreeFault)
        × IsMergeOf (group_view tree.now) (Broken broken) }
    ensures no_other { (result ≡ Err FlatStop.NoPlan → ⊥) × (result ≡ Err FlatStop.NoName → ⊥) }
    ensures step { merges.new ≡ merges.old + 1 }
{
    match merge_of(alloc, tree, merges)? {
        Merge::Flat(flat) => Ok(flat),
        Merge::Broken(_) => Err(FlatStop::NoFlat),
    }
}

// The flat tree of a permutation, by the shapes of the files that its sources name.
fn flat_of_perm<'s, M: Ledger>(
    alloc: Global,
    files: &Files<'s>,
    shapes: &Shapes<'s>,
    perm: &PlanPerm<'s>,
    merges: &mut Steps<M>,
) -> Result<Flat<'s>, FlatStop>
    requires stand { AllInlineStand (home_of files.now).text (plan_sources_view perm.now.sources) }
    requires known { AreKnown files.now shapes.now (plan_sources_view perm.now.sources) }
    ensures ok { IfOk result (HasTree files.now (plan_perm_view perm.now)) }
    ensures broken { result ≡ Err FlatStop.NoFlat → LacksTree files.now (plan_perm_view perm.now) }
    ensures no_other { (result ≡ Err FlatStop.NoPlan → ⊥) × (result ≡ Err FlatStop.NoName → ⊥) }
    ensures at_most { merges.new ≤ merges.old + 1 }
{
    let home = home_of(files);
    let sources = perm.sources.as_slice();
    match merged_sources(alloc, shapes, home, sources)? {
        Merged::Tree(tree) => flat_of_tree(alloc, &tree, merges),
        Merged::Broken(_) => Err(FlatStop::NoFlat),
    }
}

// The flat tree of the permutation of a plan that has the name. The resolver document is read before.
fn flat_planned<'s, L: Ledger, M: Ledger>(
    alloc: Global,
    files: &Files<'s>,
    plan: &[PlanPerm<'s>],
    mut trees: Trees<'s>,
    name: &str,
    parses: &mut Steps<L>,
    merges: &mut Steps<M>,
) -> Result<Flat<'s>, FlatStop>
    requires plan { Plans (map.get files.now resolver_path) (planned (plan_view plan.now)) }
    requires trees { AreTreesIn (resolver_in files.now) trees }
    ensures ok { IfOk result (λ flat.
        ComesToIn files.now (plan_view plan.now) name.now (has_tree flat)) }
    ensures stop { IfErr result (IsStop (ComesToIn files.now (plan_view plan.now) name.now)) }
    ensures parses { parses.new + text_count (map.get files.now resolver_path)
        ≤ parses.old + map.len (files_in_use files.now (plan_view plan.now)) }
    ensures merges { merges.new ≤ merges.old + 1 }
{
    file_plan_laws();
    let Some(perm) = perm_named(plan, name) else {
        return Err(FlatStop::NoName);
    };
    let shapes = read_shapes(alloc, files, plan, &mut trees, parses)?;
    flat_of_perm(alloc, files, &shapes, perm, merges)
}

// The flat tree of the permutation that has the name, where the configuration is not refused.
fn flat_under<'s, L: Ledger, M: Ledger>(
    alloc: Global,
    files: &Files<'s>,
    name: &str,
    parses: &mut Steps<L>,
    merges: &mut Steps<M>,
) -> Result<Flat<'s>, FlatStop>
    ensures ok { (settings : Settings) → IfOk result (λ flat.
        ComesToUnder files.now (Ok settings) name.now (has_tree flat)) }
    ensures stop { (settings : Settings) → IfErr result
        (IsStop (ComesToUnder files.now (Ok settings) name.now)) }
    ensures parses { (settings : Settings) (w : Work) → WorkUnder files.now (Ok settings) w
        → parses.new ≤ parses.old + w.parses }
    ensures merges { merges.new ≤ merges.old + 1 }
{
    file_plan_laws();
    let trees = read_resolver(alloc, files, parses)?;
    match plan_of(alloc, trees.get(RESOLVER)) {
        Ok(plan) => {
            let plan = plan.as_slice();
            flat_planned(alloc, files, plan, trees, name, parses, merges)
        }
        Err(refusal) => Err(unplanned(&refusal)),
    }
}

/// The flat tree of the permutation that has the name. No more files are read than are in use, each in one step of
/// `parses`, and the merged tree is made flat in one step of `merges`.
///
/// # Errors
/// `NoPlan` exactly where `tokc.toml` or the resolver document is refused; else `NoName` exactly where no permutation has the
/// name; else `NoFlat` exactly where one of its sources breaks a rule, or the tree that is merged of them; `NoMemory`.
pub fn flat_of<'s, L: Ledger, M: Ledger>(
    alloc: Global,
    files: &Files<'s>,
    name: &str,
    parses: &mut Steps<L>,
    merges: &mut Steps<M>,
) -> Result<Flat<'s>, FlatStop>
    ensures ok { IfOk result (λ flat. ComesTo files.now name.now (has_tree flat)) }
    ensures stop { IfErr result (IsStop (ComesTo files.now name.now)) }
    // No more files are read than are in use, and no more than one tree is made flat.
    ensures parses { (w : Work) → IsWork files.now w → parses.new ≤ parses.old + w.parses }
    ensures merges { merges.new ≤ merges.old + 1 }
{
    match config_of(alloc, files) {
        Ok(_) => flat_under(alloc, files, name, parses, merges),
        Err(fault) => Err(unconfigured(&fault)),
    }
}
