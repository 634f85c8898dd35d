//! Laws of the definitions alone, for the layers above.

ghost use Rattle.file_plan.specs.Laws.{EachPlan, InlinesStand, OnePlan, NamesAreApart};
ghost use Rattle.file_plan.specs.Laws.{NoneBrokenIsPlanned, PlannedBreakNone, RefusalsTell};
ghost use Rattle.file_plan.specs.Laws.{WantedAreInUse};

use json_span::json_laws;
use permutations::{each_list_answers, name_laws, source_laws};
use resolver_doc::{each_document_answers, naming_laws, plan_laws, told_laws};

/// Files have one plan. Tokens among its sources are parts of the value that the document shows, which has no flaw; and no two
/// permutations have one name.
pub fn file_plan_laws()
    ensures one { OnePlan }
    ensures stand { InlinesStand }
    ensures apart { NamesAreApart }
{
    json_laws();
    plan_laws();
    naming_laws();
    name_laws();
    source_laws();
}

/// Whatever the files are, they have a plan: its permutations, or its refusal.
pub fn each_plan()
    ensures { EachPlan }
{
    json_laws();
    each_document_answers();
    each_list_answers();
}

/// A plan that is refused tells a rule that is broken, and none before it; and a document has permutations exactly where no
/// rule is broken and it is within the limits.
pub fn refusal_laws()
    ensures told { RefusalsTell }
    ensures planned { PlannedBreakNone }
    ensures all { NoneBrokenIsPlanned }
{
    told_laws();
}

/// The files that are read for permutations are the resolver document and those that sources name, where they are there.
pub fn in_use_laws()
    ensures { WantedAreInUse }
{}
