//! Which files are in use.

ghost use Rattle.std.specs.Prelude.{◌≡◌, IfOk, OnOk};
ghost use Rattle.file_plan.specs.InUse.{files_in_use, in_use_by, names_in, source_names, with_named};
ghost use Rattle.file_plan.specs.View.{plan_source_view, plan_sources_view, plan_view};

use crate::past::UsedTexts;
use file_plan::{Files, PlanPerm, PlanSource};
use std::alloc::Global;
use tk_io::{NoMemory, Text, TextMap};

/// The resolver document, by which permutations are planned.
pub(crate) const RESOLVER: &str = "resolver.json";

// Adds the text of the file of that name, where it is there.
fn use_named<'s>(files: &Files<'s>, name: &str, used: &mut UsedTexts<'s>) -> Result<(), NoMemory>
    ensures { OnOk result (used.new ≡ with_named files.now used.old name.now) }
{
    match files.get(name) {
        Some(text) => used.put(name, Text::of(text)),
        None => Ok(()),
    }
}

fn use_source<'s>(
    files: &Files<'s>,
    source: &PlanSource<'_>,
    used: &mut UsedTexts<'s>,
) -> Result<(), NoMemory>
    ensures { OnOk result (used.new
        ≡ in_use_by files.now used.old (source_names (plan_source_view source.now))) }
{
    match source {
        PlanSource::File(name, _, _) => use_named(files, name.as_str(), used),
        PlanSource::Inline(_) => Ok(()),
    }
}

fn use_sources<'s>(
    files: &Files<'s>,
    sources: &[PlanSource<'_>],
    used: &mut UsedTexts<'s>,
) -> Result<(), NoMemory>
    ensures { OnOk result (used.new
        ≡ in_use_by files.now used.old (names_in (plan_sources_view sources.now))) }
{
    for source in sources {
        use_source(files, source, used)?;
    }
    Ok(())
}

/// The texts of the files that are read for the permutations of a plan.
pub(crate) fn used_texts<'s>(
    alloc: Global,
    files: &Files<'s>,
    plan: &[PlanPerm<'_>],
) -> Result<UsedTexts<'s>, NoMemory>
    ensures { IfOk result (λ used. used ≡ files_in_use files.now (plan_view plan.now)) }
{
    let mut used = TextMap::new(alloc);
    use_named(files, RESOLVER, &mut used)?;
    for perm in plan {
        use_sources(files, perm.sources.as_slice(), &mut used)?;
    }
    Ok(used)
}
