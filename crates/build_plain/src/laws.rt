//! Laws over the definitions alone.

ghost use Rattle.build_plain.specs.Denotes.{EachIsAnswered, NeverBoth, NoOtherStands};
ghost use Rattle.build_plain.specs.Laws.{EachBuilds, EachWorks, OneBuild, OneFinding, OneWork};
ghost use Rattle.build_plain.specs.Names.{PermutationsAreNamed};
ghost use Rattle.build_plain.specs.OneTree.{OneOfName};
ghost use Rattle.build_plain.specs.Printed.{BreaksLieInFiles, LinesAreOfFiles, PlacesLieInTokens};

use file_plan::{each_plan, file_plan_laws, refusal_laws};
use group_inherit::each_tree_answers;
use json_span::{json_laws, plain_laws};
use permutations::source_laws;
use source_trees::{each_merge, merged_tokens, one_merge};
use token_cells::{breaks_are_real, each_cell, one_cells, other_sheets_denote, sheets_denote};
use transforms::config_laws;

/// Files have one answer, and one amount of work.
pub fn one_build()
    ensures outputs { OneBuild }
    ensures work { OneWork }
{
    file_plan_laws();
    group_inherit::one_answer();
    one_merge();
    one_cells();
}

/// Any files that are texts in memory have an answer, and an amount of work: with [`one_build`] just one of each.
pub fn each_build()
    ensures outputs { EachBuilds }
    ensures work { EachWorks }
{
    each_plan();
    file_plan_laws();
    each_merge();
    merged_tokens();
    each_tree_answers();
    each_cell();
    config_laws();
}

/// Each permutation of a plan has either four files in the outputs, which denote the values of the tokens of its flat tree,
/// or one that tells the first rule that it breaks; and no other file stands there.
pub fn outputs_denote()
    ensures each { EachIsAnswered }
    ensures either { NeverBoth }
    ensures no_other { NoOtherStands }
{
    group_inherit::one_answer();
    one_merge();
    one_cells();
    file_plan_laws();
    merged_tokens();
    config_laws();
    sheets_denote();
    other_sheets_denote();
}

/// Each break that files are told lies in the text of the file that is named, but for a file of all tokens that is not
/// there; line and column are counted in that text; and a place of a token lies in its definition.
pub fn printed_spans()
    ensures files { BreaksLieInFiles }
    ensures lines { LinesAreOfFiles }
    ensures tokens { PlacesLieInTokens }
{
    json_laws();
    refusal_laws();
    source_laws();
    file_plan_laws();
    merged_tokens();
    breaks_are_real();
}

/// A permutation has one list of breaks, and so one first; and files say one thing of a name: that their plan is refused, that
/// no permutation has it, that its permutation has no flat tree, or which one.
pub fn one_verdict()
    ensures found { OneFinding }
    ensures name { OneOfName }
{
    file_plan_laws();
    group_inherit::one_answer();
    one_merge();
    one_cells();
}

/// The permutations of files whose resolver document is UTF-8 have names of letters, digits, `_`, `-`, `%`, `=` and `+`, which
/// are not empty.
pub fn permutation_names()
    ensures { PermutationsAreNamed }
{
    plain_laws::<usize>();
}
