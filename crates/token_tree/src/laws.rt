//! Laws over the definitions alone, for the layers above.

ghost use Rattle.token_tree.specs.Laws.{BreaksAscend, ChildrenByName, OneDefinition, OneShape};
ghost use Rattle.token_tree.specs.Laws.{GroupsNamed, KindsNamed, NamesTest};

use json_span::json_laws;

/// The breaks of a file stand in the order of its text; a definition is decided by its file's name,
/// its source and where that starts, and so is the shape of a value, by its slice; and at a name of
/// a group stands what the object's member of that name shows.
pub fn shape_laws()
    ensures ascend { BreaksAscend }
    ensures one { OneDefinition }
    ensures shape { OneShape }
    ensures named { ChildrenByName }
{
    json_laws();
}

/// What the tests of names, of kinds and of the groups that texts name mean.
pub fn text_laws()
    ensures names { NamesTest }
    ensures kinds { KindsNamed }
    ensures groups { GroupsNamed }
{}
