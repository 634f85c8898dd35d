//! The one output of files whose plan is refused.

ghost use Rattle.std.specs.Prelude.{◌≡◌, Some, IfOk, codes, option_map};
ghost use Rattle.refusals.specs.Planning.{break_of, plan_report};
ghost use Rattle.refusals.specs.Refusal.{report_text};
ghost use Rattle.build_plain.specs.Out.{one_output};

use crate::output::one_output;
use file_plan::{Files, PlanRefusal};
use refusals::plan_text;
use std::alloc::Global;
use tk_io::{NoMemory, Outputs};

/// The one output of files whose plan is refused.
pub fn refused_plan(
    alloc: Global,
    files: &Files<'_>,
    refusal: &PlanRefusal<'_>,
) -> Result<Outputs, NoMemory>
    ensures { IfOk result (λ o. option_map
        (λ k. one_output (codes "REFUSED") (report_text files.now (plan_report k)))
        (break_of refusal.now) ≡ Some o) }
{
    let body = plan_text(alloc, files, refusal)?;
    one_output(alloc, "REFUSED", body)
}
