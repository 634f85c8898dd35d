//! What is told of the permutations of a plan, one after another.

ghost use Rattle.std.specs.Prelude.{◌≡◌, IfOk, OnOk, map as each};
ghost use Rattle.file_plan.specs.View.{plan_perm_view, plan_sources_view};
ghost use Rattle.source_trees.specs.Merging.{AllInlineStand, AreKnown};
ghost use Rattle.refusals.specs.Refusal.{report_text};
ghost use Rattle.build_plain.specs.Breaks.{first_file, home_of, tree_reports};
ghost use Rattle.build_plain.specs.Outcomes.{IsOutcome};
ghost use Rattle.all_breaks.specs.All.{ToldUnder};
ghost use Rattle.all_breaks.specs.inner.Making.{AddsPerm, AreTextsOf, Given};

use crate::firsts::first_texts;
use crate::told::Told;
use build_plain::{
    Earlier, Made, Outcome, config_text, first_file, home_of, keep_tokens, tree_text,
};
use file_plan::{Files, PlanPerm, PlanRefusal, Trees};
use group_inherit::TreeFault;
use refusals::plan_text;
use source_trees::{Shapes, one_merge};
use std::alloc::Global;
use tk_io::NoMemory;
use token_cells::{BreakTexts, break_texts};
use transforms::{Config, ConfigFault};

// What is printed of a merged tree that breaks a rule.
fn tree_texts<'s>(
    alloc: Global,
    files: &Files<'s>,
    perm: &PlanPerm<'s>,
    fault: &TreeFault<'s>,
) -> Result<BreakTexts, NoMemory>
    ensures { IfOk result (λ texts. texts ≡ each (report_text files.now) (tree_reports
        (first_file (home_of files.now) (plan_sources_view perm.now.sources)) fault.now)) }
{
    let home = home_of(files);
    let first = first_file(&home, perm.sources.as_slice());
    let text = tree_text(alloc, files, first, fault)?;
    let mut texts = BreakTexts::new(alloc);
    texts.push(text)?;
    Ok(texts)
}

// What is printed of the breaks of a permutation, by what it comes to.
fn perm_texts<'s>(
    alloc: Global,
    files: &Files<'s>,
    cfg: &Config,
    shapes: &Shapes<'s>,
    perm: &PlanPerm<'s>,
    outcome: &Outcome<'s>,
) -> Result<BreakTexts, NoMemory>
    requires outcome { IsOutcome cfg.now files.now (plan_perm_view perm.now) outcome.now }
    requires stand { AllInlineStand (home_of files.now).text (plan_sources_view perm.now.sources) }
    requires known { AreKnown files.now shapes.now (plan_sources_view perm.now.sources) }
    ensures { IfOk result (AreTextsOf cfg.now files.now (plan_perm_view perm.now)) }
{
    one_merge();
    match outcome {
        Outcome::Tokens(tree) => break_texts(alloc, files, tree.tokens(), tree.cells()),
        Outcome::TreeBreak(fault) => tree_texts(alloc, files, perm, fault),
        Outcome::SourceBreak(_) => {
            let home = home_of(files);
            first_texts(alloc, files, shapes, home, perm.sources.as_slice())
        }
    }
}

// Adds the breaks of a permutation, by what it comes to.
fn add_perm<'s>(
    alloc: Global,
    files: &Files<'s>,
    cfg: &Config,
    shapes: &Shapes<'s>,
    perm: &PlanPerm<'s>,
    outcome: &Outcome<'s>,
    told: &mut Told<'s>,
) -> Result<(), NoMemory>
    requires outcome { IsOutcome cfg.now files.now (plan_perm_view perm.now) outcome.now }
    requires stand { AllInlineStand (home_of files.now).text (plan_sources_view perm.now.sources) }
    requires known { AreKnown files.now shapes.now (plan_sources_view perm.now.sources) }
    ensures { OnOk result
        (AddsPerm cfg.now files.now (plan_perm_view perm.now) told.old told.new) }
{
    let texts = perm_texts(alloc, files, cfg, shapes, perm, outcome)?;
    told.add_all(alloc, &perm.name, texts.as_slice())
}

/// Breaks, to which those of each permutation are added.
impl<'s> Made<'s> for Told<'s> {
    ghost is_made = { ToldUnder };

    ghost is_making = { Given };

    fn unconfigured(
        alloc: Global,
        files: &Files<'s>,
        fault: &ConfigFault,
    ) -> Result<Told<'s>, NoMemory> {
        let text = config_text(alloc, files, fault)?;
        Told::bare(alloc, text.as_slice())
    }

    fn unplanned(
        alloc: Global,
        files: &Files<'s>,
        _trees: Trees<'s>,
        refusal: &PlanRefusal<'_>,
    ) -> Result<Told<'s>, NoMemory> {
        let text = plan_text(alloc, files, refusal)?;
        Told::bare(alloc, text.as_slice())
    }

    fn start(alloc: Global, _trees: Trees<'s>) -> Told<'s> {
        Told::new(alloc)
    }

    fn add(
        &mut self,
        alloc: Global,
        files: &Files<'s>,
        cfg: &Config,
        shapes: &Shapes<'s>,
        perm: &PlanPerm<'s>,
        outcome: Outcome<'s>,
        earlier: &mut Earlier<'s>,
    ) -> Result<(), NoMemory> {
        add_perm(alloc, files, cfg, shapes, perm, &outcome, self)?;
        keep_tokens(alloc, cfg, outcome, earlier)
    }
}
