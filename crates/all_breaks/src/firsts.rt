//! The first break of each source of a permutation.

ghost use Rattle.std.specs.Prelude.{◌≡◌, ◌++◌, List, IfOk, OnOk, map, take};
ghost use Rattle.file_plan.specs.View.{plan_source_view, plan_sources_view};
ghost use Rattle.source_trees.specs.Merging.{AllInlineStand, AreKnown, InlineStands, IsKnown};
ghost use Rattle.source_trees.specs.Sources.{BreakAt, SourceFound};
ghost use Rattle.source_trees.specs.View.{home_view};
ghost use Rattle.token_tree.specs.Tree.{Group};
ghost use Rattle.build_plain.specs.Breaks.{home_of};
ghost use Rattle.all_breaks.specs.inner.Making.{AreFirstTexts, first_text};

use build_plain::source_text;
use file_plan::{Files, PlanSource};
use source_trees::{Home, Merged, Shapes, merged_sources};
use std::alloc::Global;
use std::slice;
use tk_io::NoMemory;
use token_cells::BreakTexts;

// Adds what is printed of the first rule that the source breaks, where it breaks one.
fn add_first<'s>(
    alloc: Global,
    files: &Files<'s>,
    shapes: &Shapes<'s>,
    home: Home<'s>,
    source: &PlanSource<'s>,
    texts: &mut BreakTexts,
) -> Result<(), NoMemory>
    requires home { home_view home ≡ home_of files.now }
    requires stand { InlineStands home.text.now (plan_source_view source.now) }
    requires known { IsKnown files.now shapes.now (plan_source_view source.now) }
    ensures { OnOk result ((b : List BreakAt) × (t : List Group)
        × SourceFound files.now (home_of files.now) (plan_source_view source.now) b t
        × (texts.new ≡ texts.old ++ map (first_text files.now) (take 1 b))) }
{
    match merged_sources(alloc, shapes, home, slice::from_ref(source))? {
        Merged::Tree(_tree) => Ok(()),
        Merged::Broken(found) => {
            let text = source_text(alloc, files, &found)?;
            texts.push(text)
        }
    }
}

/// What is printed of the first rule that each source breaks.
pub(crate) fn first_texts<'s>(
    alloc: Global,
    files: &Files<'s>,
    shapes: &Shapes<'s>,
    home: Home<'s>,
    sources: &[PlanSource<'s>],
) -> Result<BreakTexts, NoMemory>
    requires home { home_view home ≡ home_of files.now }
    requires stand { AllInlineStand home.text.now (plan_sources_view sources.now) }
    requires known { AreKnown files.now shapes.now (plan_sources_view sources.now) }
    ensures { IfOk result (AreFirstTexts files.now (plan_sources_view sources.now)) }
{
    let mut texts = BreakTexts::new(alloc);
    for source in sources {
        add_first(alloc, files, shapes, home, source, &mut texts)?;
    }
    Ok(texts)
}
