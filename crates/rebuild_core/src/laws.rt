//! Laws over the definitions alone.

ghost use Rattle.rebuild_core.specs.Laws.{EachWorksFrom, FromNone, FromTheSame, OneWorkFrom};

use alias_ref::differ_decides;
use build_plain::one_build;
use file_plan::{each_plan, file_plan_laws};
use group_inherit::{each_tree_answers, one_answer};
use source_trees::{each_merge, one_merge};

/// What is kept and files have just one amount of work. Where none is kept it is that of a build from nothing, and where
/// the files are those that are kept nothing is done.
pub fn work_laws()
    ensures none { FromNone }
    ensures same { FromTheSame }
    ensures one { OneWorkFrom }
    ensures each { EachWorksFrom }
{
    file_plan_laws();
    each_plan();
    one_answer();
    each_tree_answers();
    one_merge();
    each_merge();
    one_build();
    differ_decides();
}
