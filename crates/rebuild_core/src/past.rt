//! What was made of files.

ghost use Rattle.std.specs.Prelude.{◌≡◌, IfOk, IfSome};
ghost use Rattle.rebuild_core.specs.inner.Clean as clean;
ghost use Rattle.rebuild_core.specs.inner.Clean.{AreCleanCells};

use build_plain::Outcome;
use file_plan::{Files, Plan, Trees};
use source_trees::Shapes;
use std::alloc::Global;
use std::rc::Rc;
use tk_io::{NoMemory, Text, TextMap};
use token_cells::{Cells, verdict_text};
use transforms::Config;

/// The texts of the files in use, by their paths.
pub(crate) type UsedTexts<'s> = TextMap<Text<'s>>;

/// What a permutation came to, in one commit or more: a further one is a count and no copy.
#[derive(Drop)]
pub(crate) struct Shared<'s> {
    outcome: Rc<Outcome<'s>>,
    /// Whether it is tokens that break no rule.
    is_clean: bool,
    ghost clean: { is_clean ≡ clean.is_clean outcome.value },
}

// Whether it is tokens that break no rule.
fn is_clean<'s>(alloc: Global, files: &Files<'s>, outcome: &Outcome<'s>) -> Result<bool, NoMemory>
    ensures { IfOk result (λ is. is ≡ clean.is_clean outcome.now) }
{
    match outcome {
        Outcome::Tokens(tree) => {
            let broken = verdict_text(alloc, files, tree.tokens(), tree.cells())?;
            Ok(broken.is_none())
        }
        Outcome::TreeBreak(_) => Ok(false),
        Outcome::SourceBreak(_) => Ok(false),
    }
}

impl<'s> Shared<'s> {
    /// What a permutation came to, in one commit, which is of these files.
    pub(crate) fn new(
        alloc: Global,
        files: &Files<'s>,
        outcome: Outcome<'s>,
    ) -> Result<Shared<'s>, NoMemory>
        ensures { IfOk result (λ shared. shared.outcome.value ≡ outcome.entry) }
    {
        let is_clean = is_clean(alloc, files, &outcome)?;
        let outcome = Rc::new(alloc, outcome)?;
        Ok(Shared { outcome, is_clean })
    }

    /// The same in one commit more.
    pub(crate) fn share(&self) -> Result<Shared<'s>, NoMemory>
        ensures { IfOk result (λ shared. shared.outcome.value ≡ self.now.outcome.value) }
    {
        let outcome = self.outcome.clone()?;
        Ok(Shared {
            outcome,
            is_clean: self.is_clean,
        })
    }

    /// What it came to.
    pub(crate) fn outcome(&self) -> &Outcome<'s>
        ensures { result.now ≡ self.now.outcome.value }
    {
        &self.outcome
    }

    /// What its tokens came to, where they break no rule.
    pub(crate) fn clean_cells(&self) -> Option<&Cells<'s>>
        ensures { IfSome result (λ cells. AreCleanCells self.now.outcome.value cells.now) }
    {
        if !self.is_clean {
            return None;
        }
        match self.outcome() {
            Outcome::Tokens(tree) => Some(tree.cells()),
            Outcome::TreeBreak(_) => None,
            Outcome::SourceBreak(_) => None,
        }
    }
}

/// The files of a commit, and what was made of them.
#[derive(Drop)]
pub(crate) struct Past<'s> {
    pub(crate) files: Files<'s>,
    pub(crate) used: UsedTexts<'s>,
    /// What reading the files in use gave.
    pub(crate) trees: Trees<'s>,
    /// What files in use show.
    pub(crate) shapes: Shapes<'s>,
    pub(crate) config: Config,
    pub(crate) plan: Plan<'s>,
    /// What the permutations of the plan came to, in their order.
    pub(crate) outcomes: Vec<Shared<'s>>,
}
