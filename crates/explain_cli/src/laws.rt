//! Laws of the definitions alone: functions that do nothing and are called for what they ensure.

ghost use Rattle.explain_cli.specs.Answered.{OneAnswer};
ghost use Rattle.explain_cli.specs.Asked.{OneQuestion};

use build_plain::one_verdict;
use file_plan::file_plan_laws;
use name_path::one_place;
use source_trees::one_merge;

/// Arguments ask one thing.
pub fn one_question()
    ensures { OneQuestion }
{
    one_place();
}

/// Files answer a question in one way: something is written, or one reason is told. So each reason is told exactly where it
/// is the first that holds.
pub fn one_answer()
    ensures { OneAnswer }
{
    one_verdict();
    one_merge();
    file_plan_laws();
}
