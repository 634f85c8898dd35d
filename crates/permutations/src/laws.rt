//! Laws of the definitions alone, for the layers above.

ghost use Rattle.permutations.specs.Choices.{ChoicesAreCounted, ChoicesArePicks, PicksAreChoices};
ghost use Rattle.permutations.specs.Laws.{EachListAnswers, FilesAreNamed, InlinesArePart, NamesAreApart};
ghost use Rattle.permutations.specs.Laws.{SetsComeToTheirSources};
ghost use Rattle.permutations.specs.Name.{NamesTellChoices};

/// The choices of a document are all ways to pick one of each item, each once: the contexts of a modifier in their order,
/// and the first item weighing most. They are as many as the product of the picks of the items.
pub fn choice_laws()
    ensures all { PicksAreChoices }
    ensures picks { ChoicesArePicks }
    ensures count { ChoicesAreCounted }
{}

/// The name of a permutation tells which context is chosen for each modifier. Where the contexts of each modifier have
/// different names, no two permutations have one name.
pub fn name_laws()
    ensures tell { NamesTellChoices }
    ensures apart { NamesAreApart }
{}

/// Where no sets name each other in a ring, a set comes to what its sources come to. Tokens among the sources of a document's
/// permutations are parts of the document, and a string of it names each file, which is told with the string's span.
pub fn source_laws()
    ensures sets { SetsComeToTheirSources }
    ensures parts { InlinesArePart }
    ensures named { FilesAreNamed }
{}

/// Each plan is within the limits, or beyond one of them: it has too many permutations, or one with too many sources.
pub fn each_list_answers()
    ensures { EachListAnswers }
{}
