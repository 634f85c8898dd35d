//! Laws of the definitions, for the layers above.

ghost use Rattle.source_trees.specs.Laws.{EachFound, MergedIsOrdered, ShapesKnown};
ghost use Rattle.source_trees.specs.Laws.{OneFound, OneMerge, OneFlatOf};
ghost use Rattle.source_trees.specs.Laws.{FoundByContent, MergedByContent, FlatByContent};
ghost use Rattle.source_trees.specs.MergedTokens.{PathsAreOfTokens, TokensAreDefinitions};
ghost use Rattle.source_trees.specs.MergedTokens.{TokensAreOfTexts, TokensStandInFiles};
ghost use Rattle.source_trees.specs.ExtensionRules.{CountsAreSums, NeedsAreInOrder, RingsTellFirst};
ghost use Rattle.source_trees.specs.ShapeRules.{BrokenShapesAreListed, ShapeBreaksBreak};

use file_plan::in_use_laws;
use group_inherit::{flat_by_path, one_answer, ordered_trees, over_by_name};
use json_span::plain_laws;
use token_tree::{shape_laws, text_laws};

/// Where the shapes are those of the files in use, the sources of each permutation are known.
pub fn shapes_known()
    ensures { ShapesKnown }
{
    in_use_laws();
}

/// Sources come to one thing: they have one list of breaks and one of trees, so one merged tree or first break, and
/// where they have no break one flat tree.
pub fn one_merge()
    ensures found { OneFound }
    ensures merged { OneMerge }
    ensures flat { OneFlatOf }
{
    one_answer();
}

/// What sources come to is decided by the files that they name, each by its name and its text, and by their objects, each
/// by its slice and where that starts. What else the files hold changes nothing.
pub fn merged_by_content()
    ensures found { FoundByContent }
    ensures merged { MergedByContent }
    ensures flat { FlatByContent }
{
    shape_laws();
    one_answer();
}

/// Any sources come to something, and the members of each group ascend in the tree that is merged of them.
pub fn each_merge()
    ensures found { EachFound }
    ensures ordered { MergedIsOrdered }
{
    ordered_trees();
}

/// Where sources have no break, each token of their flat tree has a path that a token can have, its definition is what its
/// source shows, and its source is the slice of its file at its offsets. Where the files are texts in memory, so are its
/// source, the names of its path and the reason of its groups' mark.
pub fn merged_tokens()
    ensures paths { PathsAreOfTokens }
    ensures definitions { TokensAreDefinitions }
    ensures files { TokensStandInFiles }
    ensures texts { TokensAreOfTexts }
{
    text_laws();
    flat_by_path();
    plain_laws::<usize>();
}

/// The breaks of a token file's shape are what the rules say, place by place: each entry of the list breaks its rule at its
/// place, and each place that breaks a rule is an entry.
pub fn shape_rule_laws()
    ensures breaks { ShapeBreaksBreak }
    ensures all { BrokenShapesAreListed }
{}

/// A group needs its child groups in byte order of names, and then its target; its count is the number of its members and the
/// counts of all that it needs; and of a ring the first group is told whose target is the ring's next one.
pub fn extension_rule_laws()
    ensures needs { NeedsAreInOrder }
    ensures counts { CountsAreSums }
    ensures rings { RingsTellFirst }
{
    over_by_name();
}
