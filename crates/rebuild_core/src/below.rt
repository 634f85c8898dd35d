//! The laws of the layers below.

ghost use Rattle.rebuild_core.specs.inner.Below.{EachLaws, OneLaws};

use file_plan::{each_plan, file_plan_laws};
use group_inherit::{each_tree_answers, one_answer};
use source_trees::{each_merge, one_merge};

/// What has an answer, and what has but one.
pub(crate) fn laws_below()
    ensures one { OneLaws }
    ensures each { EachLaws }
{
    file_plan_laws();
    each_plan();
    one_answer();
    each_tree_answers();
    one_merge();
    each_merge();
}
