//! Laws over the definitions alone, for the layers above.

ghost use Rattle.group_inherit.specs.Laws.{IsFirstOfName, IsOverByName};
ghost use Rattle.group_inherit.specs.Laws.{OneFileIsItsShape, OneSourceIsItself, SourcesInOrder};
ghost use Rattle.group_inherit.specs.Laws.{ExpandedAreOrdered, MergedAreOrdered, ShapesAreOrdered};
ghost use Rattle.group_inherit.specs.Laws.{ExpandedByName, OneExpansion};
ghost use Rattle.group_inherit.specs.Laws.{FlatAsList, FlatByPath, LostAreAll, LostAscend};
ghost use Rattle.group_inherit.specs.Laws.{EachTreeAnswers, OneBreak, OneFlat, SoundIsUnbroken};

/// In one group over another stands, at each name, what the two groups have there: two groups of the name are merged,
/// else the later member stands whole, and the earlier one only where there is no later one. Of the members of a group the
/// first of a name stands there.
pub fn over_by_name()
    ensures over { IsOverByName }
    ensures first { IsFirstOfName }
{}

/// Sources are merged in their order, each over what those before it come to. One source alone comes to itself, and so
/// a file alone to its own shape.
pub fn merged_in_order()
    ensures order { SourcesInOrder }
    ensures one { OneSourceIsItself }
    ensures file { OneFileIsItsShape }
{}

/// The members of each group ascend in the tree that a file shows, in merged trees, and in what a group expands to.
pub fn ordered_trees()
    ensures shapes { ShapesAreOrdered }
    ensures merged { MergedAreOrdered }
    ensures expanded { ExpandedAreOrdered }
{}

/// A group has one expansion: at each name stands its own token, or the expansion of its child group there over what its
/// target has there, or what its target has there.
pub fn expanded_by_name()
    ensures one { OneExpansion }
    ensures named { ExpandedByName }
{}

/// The flat tree is that of the tokens of the expanded tree: by path, and as a list whose paths ascend.
pub fn flat_by_path()
    ensures at { FlatByPath }
    ensures list { FlatAsList }
{}

/// The lost targets are those of all groups whose target is no group of the tree, in the order of the groups' paths.
pub fn lost_in_order()
    ensures ascend { LostAscend }
    ensures all { LostAreAll }
{}

/// A tree has one flat tree, or breaks one rule of extension first; never both.
pub fn one_answer()
    ensures flat { OneFlat }
    ensures broken { OneBreak }
    ensures sound { SoundIsUnbroken }
{}

/// Each tree whose members ascend has an answer: it breaks a rule of extension, or it breaks none and has a flat tree.
pub fn each_tree_answers()
    ensures { EachTreeAnswers }
{}
