//! Putting the outputs of files together from parts that are kept.

ghost use Rattle.std.specs.Prelude.{◌≡◌, Ok, IfOk, OnOk};
ghost use Rattle.std.specs.FinMap as map;
ghost use Rattle.file_plan.specs.InUse.{resolver_path};
ghost use Rattle.file_plan.specs.Plan.{Plans, planned};
ghost use Rattle.file_plan.specs.View.{plan_perm_view, plan_sources_view, plan_view};
ghost use Rattle.source_trees.specs.Merging.{AllInlineStand, AreKnown};
ghost use Rattle.source_trees.specs.View.{home_view};
ghost use Rattle.transforms.specs.Config.{Settings};
ghost use Rattle.build_plain.specs.Breaks.{home_of};
ghost use Rattle.build_plain.specs.Out.{Builds, BuildsUnder, GivesFrom, GivesOf};
ghost use Rattle.build_plain.specs.Parts.{AreEachKept, AreKeptIn, AreParts, ArePartsOf, ArePartsUnder};
ghost use Rattle.build_plain.specs.inner.Making.{AllKnown, AllStand, SourceHasBreak};

use crate::config::{config_of, refused_config};
use crate::parts::Parts;
use crate::permutation::{put_source_break, put_tokens, put_tree_break};
use crate::planning::refused_plan;
use crate::sources::{RESOLVER, first_file, home_of};
use file_plan::{Files, PlanPerm, file_plan_laws, in_use_laws, plan_of};
use source_trees::{
    Home, Merge, Merged, Shapes, merged_sources, one_merge, shapes_known, shapes_of,
};
use std::alloc::Global;
use tk_io::{NoMemory, Outputs};
use transforms::Config;

// Puts the refusal of a permutation of which nothing is kept, since a source breaks a rule.
fn assemble_broken<'s>(
    alloc: Global,
    files: &Files<'s>,
    shapes: &Shapes<'s>,
    home: Home<'s>,
    perm: &PlanPerm<'s>,
    outputs: &mut Outputs,
) -> Result<(), NoMemory>
    requires home { home_view home ≡ home_of files.now }
    requires stand { AllInlineStand home.text.now (plan_sources_view perm.now.sources) }
    requires known { AreKnown files.now shapes.now (plan_sources_view perm.now.sources) }
    requires broken { SourceHasBreak files.now (plan_sources_view perm.now.sources) }
    ensures { (settings : Settings) → OnOk result (GivesOf settings files.now
        (plan_perm_view perm.now) outputs.old outputs.new) }
{
    one_merge();
    match merged_sources(alloc, shapes, home, perm.sources.as_slice())? {
        Merged::Tree(_) => unreachable!(),
        Merged::Broken(found) => {
            put_source_break(alloc, files, perm.name.as_str(), &found, outputs)
        }
    }
}

// Puts the outputs of a permutation by what is kept of it.
fn assemble_perm<'s>(
    alloc: Global,
    files: &Files<'s>,
    cfg: &Config,
    shapes: &Shapes<'s>,
    home: Home<'s>,
    perm: &PlanPerm<'s>,
    parts: &Parts<'s>,
    outputs: &mut Outputs,
) -> Result<(), NoMemory>
    requires home { home_view home ≡ home_of files.now }
    requires stand { AllInlineStand home.text.now (plan_sources_view perm.now.sources) }
    requires known { AreKnown files.now shapes.now (plan_sources_view perm.now.sources) }
    requires kept { AreKeptIn cfg.now files.now parts.now (plan_perm_view perm.now) }
    ensures { OnOk result (GivesOf cfg.now files.now
        (plan_perm_view perm.now) outputs.old outputs.new) }
{
    let name = perm.name.as_str();
    match parts.merges.get(name) {
        Some(Merge::Flat(flat)) => {
            let Some(cells) = parts.cells.get(name) else {
                unreachable!();
            };
            put_tokens(alloc, files, name, flat, cells, outputs)
        }
        Some(Merge::Broken(fault)) => {
            let first = first_file(&home, perm.sources.as_slice());
            put_tree_break(alloc, files, name, first, fault, outputs)
        }
        None => assemble_broken(alloc, files, shapes, home, perm, outputs),
    }
}

// The outputs of permutations by what is kept of them.
fn assemble_perms<'s>(
    alloc: Global,
    files: &Files<'s>,
    cfg: &Config,
    shapes: &Shapes<'s>,
    plan: &[PlanPerm<'s>],
    parts: &Parts<'s>,
) -> Result<Outputs, NoMemory>
    requires stand { AllStand files.now (plan_view plan.now) }
    requires known { AllKnown files.now shapes.now (plan_view plan.now) }
    requires kept { AreEachKept cfg.now files.now (plan_view plan.now) parts.now }
    ensures { IfOk result (GivesFrom cfg.now files.now (plan_view plan.now) map.empty) }
{
    let home = home_of(files);
    let mut outputs = Outputs::new(alloc);
    for perm in plan {
        assemble_perm(alloc, files, cfg, shapes, home, perm, parts, &mut outputs)?;
    }
    Ok(outputs)
}

// The outputs of files with this plan, of which these are the parts.
fn assemble_planned<'s>(
    alloc: Global,
    files: &Files<'s>,
    cfg: &Config,
    plan: &[PlanPerm<'s>],
    parts: &Parts<'s>,
) -> Result<Outputs, NoMemory>
    requires plan { Plans (map.get files.now resolver_path) (planned (plan_view plan.now)) }
    requires parts { AreParts cfg.now files.now (plan_view plan.now) parts.now }
    ensures { IfOk result (GivesFrom cfg.now files.now (plan_view plan.now) map.empty) }
{
    file_plan_laws();
    in_use_laws();
    shapes_known();
    let shapes = shapes_of(alloc, files, &parts.trees)?;
    assemble_perms(alloc, files, cfg, &shapes, plan, parts)
}

// The outputs of files under a configuration, of which these are the parts.
fn assemble_under<'s>(
    alloc: Global,
    files: &Files<'s>,
    cfg: &Config,
    parts: &Parts<'s>,
) -> Result<Outputs, NoMemory>
    requires { ArePartsUnder files.now (Ok cfg.now) parts.now }
    ensures { IfOk result (BuildsUnder files.now (Ok cfg.now)) }
{
    file_plan_laws();
    in_use_laws();
    match plan_of(alloc, parts.trees.get(RESOLVER)) {
        Ok(plan) => assemble_planned(alloc, files, cfg, plan.as_slice(), parts),
        Err(refusal) => refused_plan(alloc, files, &refusal),
    }
}

/// The outputs of the files, put together from their parts: those that [`build`](crate::build) gives. It counts no step.
///
/// # Errors
/// `NoMemory`.
pub fn assemble<'s>(
    alloc: Global,
    files: &Files<'s>,
    parts: &Parts<'s>,
) -> Result<Outputs, NoMemory>
    requires { ArePartsOf files.now parts.now }
    ensures { IfOk result (Builds files.now) }
{
    match config_of(alloc, files) {
        Ok(cfg) => assemble_under(alloc, files, &cfg, parts),
        Err(fault) => refused_config(alloc, files, &fault),
    }
}
