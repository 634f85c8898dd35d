//! Laws of the definitions alone, for the layers above.

ghost use Rattle.resolver_doc.specs.Break.{FirstIsTold, NoneIsTold};
ghost use Rattle.resolver_doc.specs.Laws.{OneFault, UnbrokenIsNotRefused, EachDocumentAnswers};
ghost use Rattle.resolver_doc.specs.Laws.{DotsAreTaken, PointersSpell, PointersFind};
ghost use Rattle.resolver_doc.specs.Laws.{ContextsAreApart};
ghost use Rattle.resolver_doc.specs.Rules.{FormBreaksBreak, BrokenFormsAreListed};
ghost use Rattle.resolver_doc.specs.Rules.{NamingBreaksBreak, BrokenNamesAreListed};
ghost use Rattle.resolver_doc.specs.Rules.{NoneBrokenIsUnbroken, ToldIsFirstBroken, UnbrokenBreaksNone};

/// Of several breaks the first by its start and then by its rule's number is told, and where none is told there is none.
pub fn break_laws()
    ensures first { FirstIsTold }
    ensures none { NoneIsTold }
{}

/// A document has one answer: what is told of one that breaks a rule is one break, and of one that breaks none nothing is
/// told.
pub fn plan_laws()
    ensures one { OneFault }
    ensures unbroken { UnbrokenIsNotRefused }
{}

/// Each document has an answer: it breaks no rule, or a break is told of it.
pub fn each_document_answers()
    ensures { EachDocumentAnswers }
{}

/// A file's name is what stands after all leading `./` of a text. A text points to a member whose name it spells, and the
/// pointer to a member finds one of its name. In a document without a flaw the contexts of a modifier have different names.
pub fn naming_laws()
    ensures files { DotsAreTaken }
    ensures spelled { PointersSpell }
    ensures found { PointersFind }
    ensures apart { ContextsAreApart }
{}

/// The lists of breaks are what the rules say, place by place: each entry breaks its rule at its place, and each place that
/// breaks a rule is an entry. References and names are looked at where the form is met.
pub fn rule_laws()
    ensures forms { FormBreaksBreak }
    ensures all_forms { BrokenFormsAreListed }
    ensures naming { NamingBreaksBreak }
    ensures all_naming { BrokenNamesAreListed }
{}

/// A document is read exactly where no rule is broken, and what is told of another is a rule that is broken at that place, and
/// none before it.
pub fn told_laws()
    ensures unbroken { UnbrokenBreaksNone }
    ensures none { NoneBrokenIsUnbroken }
    ensures first { ToldIsFirstBroken }
{}
