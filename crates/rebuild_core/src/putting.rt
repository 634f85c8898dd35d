//! The outputs of what a permutation came to. Names are not looked at again where no token broke a rule.

ghost use Rattle.std.specs.Prelude.{OnOk};
ghost use Rattle.file_plan.specs.View.{plan_perm_view};
ghost use Rattle.build_plain.specs.Out.{GivesOf};
ghost use Rattle.build_plain.specs.Outcomes.{IsOutcome};
ghost use Rattle.rebuild_core.specs.inner.Past.{outcome_of};

use crate::past::Shared;
use build_plain::{put_outcome, put_sheets};
use file_plan::{Files, PlanPerm};
use std::alloc::Global;
use tk_io::{NoMemory, Outputs};
use transforms::Config;

/// Puts the outputs of a permutation beside those of others, by what it came to.
pub(crate) fn put_shared<'s>(
    alloc: Global,
    files: &Files<'s>,
    cfg: &Config,
    perm: &PlanPerm<'s>,
    shared: &Shared<'s>,
    outputs: &mut Outputs,
) -> Result<(), NoMemory>
    requires { IsOutcome cfg.now files.now (plan_perm_view perm.now) (outcome_of shared.now) }
    ensures { OnOk result (GivesOf cfg.now files.now
        (plan_perm_view perm.now) outputs.old outputs.new) }
{
    match shared.clean_cells() {
        Some(cells) => put_sheets(alloc, perm.name.as_str(), cells, outputs),
        None => put_outcome(alloc, files, cfg, perm, shared.outcome(), outputs),
    }
}
