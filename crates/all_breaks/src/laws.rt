//! Laws over the definitions alone.

ghost use Rattle.all_breaks.specs.Laws.{FirstIsRefused, OneTelling, OneTold, ToldAreHad, ToldDiffer};

use file_plan::file_plan_laws;
use group_inherit::one_answer;
use source_trees::one_merge;
use token_cells::one_cells;

/// Something is told of a permutation exactly where its outputs are a refusal, and the first break that is told is the one
/// that the refusal tells.
pub fn first_is_refused()
    ensures { FirstIsRefused }
{
    one_merge();
    one_answer();
    one_cells();
}

/// Files have one list of breaks.
pub fn one_listing()
    ensures permutation { OneTelling }
    ensures files { OneTold }
{
    one_merge();
    one_answer();
    one_cells();
    file_plan_laws();
}

/// Of the permutations of a plan exactly the breaks that they have are told, each with exactly the names of those that have
/// it, and no two read the same.
pub fn told_are_had()
    ensures had { ToldAreHad }
    ensures differ { ToldDiffer }
{
    one_listing();
}
