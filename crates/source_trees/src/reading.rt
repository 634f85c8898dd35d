//! Files that are read, each once.

ghost use Rattle.std.specs.Prelude.{◌≡◌, [], ◌∷◌, None, OnOk, OnErr};
ghost use Rattle.std.specs.FinMap as map;
ghost use Rattle.file_plan.specs.InUse.{source_names, names_in, file_names};
ghost use Rattle.file_plan.specs.View.{plan_source_view, plan_sources_view, plan_view};
ghost use Rattle.source_trees.specs.Reading.{AddsFront, AddsTrees, CountsAdded, CountsAtMost};

use file_plan::{Files, PlanPerm, PlanSource, Trees, read_tree};
use std::alloc::Global;
use std::sync::ledger::Ledger;
use tk_io::{NoMemory, Steps};

// Reads the file of that name, where it is there.
fn read_new<'s, L: Ledger>(
    alloc: Global,
    files: &Files<'s>,
    name: &str,
    trees: &mut Trees<'s>,
    parses: &mut Steps<L>,
) -> Result<(), NoMemory>
    requires { map.get trees.old name.now ≡ None }
    ensures trees { OnOk result (AddsTrees files.now (name.now ∷ []) trees.old trees.new) }
    ensures err { OnErr result (AddsFront files.now (name.now ∷ []) trees.old trees.new) }
    ensures steps { OnOk result
        (CountsAdded files.now (name.now ∷ []) trees.old parses.old parses.new) }
    ensures at_most { CountsAtMost files.now (name.now ∷ []) trees.old parses.old parses.new }
{
    match files.get(name) {
        Some(text) => {
            let tree = read_tree(alloc, text, parses)?;
            trees.put(name, tree)
        }
        None => Ok(()),
    }
}

// Reads the file of that name, where it is there and has no tree yet.
fn read_once<'s, L: Ledger>(
    alloc: Global,
    files: &Files<'s>,
    name: &str,
    trees: &mut Trees<'s>,
    parses: &mut Steps<L>,
) -> Result<(), NoMemory>
    ensures trees { OnOk result (AddsTrees files.now (name.now ∷ []) trees.old trees.new) }
    ensures err { OnErr result (AddsFront files.now (name.now ∷ []) trees.old trees.new) }
    ensures steps { OnOk result
        (CountsAdded files.now (name.now ∷ []) trees.old parses.old parses.new) }
    ensures at_most { CountsAtMost files.now (name.now ∷ []) trees.old parses.old parses.new }
{
    match trees.get(name) {
        Some(_) => Ok(()),
        None => read_new(alloc, files, name, trees, parses),
    }
}

fn read_source<'s, L: Ledger>(
    alloc: Global,
    files: &Files<'s>,
    source: &PlanSource<'_>,
    trees: &mut Trees<'s>,
    parses: &mut Steps<L>,
) -> Result<(), NoMemory>
    ensures trees { OnOk result
        (AddsTrees files.now (source_names (plan_source_view source.now)) trees.old trees.new) }
    ensures err { OnErr result
        (AddsFront files.now (source_names (plan_source_view source.now)) trees.old trees.new) }
    ensures steps { OnOk result (CountsAdded files.now (source_names (plan_source_view source.now))
        trees.old parses.old parses.new) }
    ensures at_most { CountsAtMost files.now (source_names (plan_source_view source.now))
        trees.old parses.old parses.new }
{
    match source {
        PlanSource::File(name, _, _) => read_once(alloc, files, name.as_str(), trees, parses),
        PlanSource::Inline(_) => Ok(()),
    }
}

fn read_sources<'s, L: Ledger>(
    alloc: Global,
    files: &Files<'s>,
    sources: &[PlanSource<'_>],
    trees: &mut Trees<'s>,
    parses: &mut Steps<L>,
) -> Result<(), NoMemory>
    ensures trees { OnOk result
        (AddsTrees files.now (names_in (plan_sources_view sources.now)) trees.old trees.new) }
    ensures err { OnErr result
        (AddsFront files.now (names_in (plan_sources_view sources.now)) trees.old trees.new) }
    ensures steps { OnOk result (CountsAdded files.now (names_in (plan_sources_view sources.now))
        trees.old parses.old parses.new) }
    ensures at_most { CountsAtMost files.now (names_in (plan_sources_view sources.now))
        trees.old parses.old parses.new }
{
    for source in sources {
        read_source(alloc, files, source, trees, parses)?;
    }
    Ok(())
}

/// Reads each file that a permutation names, that is there and that has no tree yet, and adds its tree. Each is one step,
/// however often it is named.
pub fn read_named<'s, L: Ledger>(
    alloc: Global,
    files: &Files<'s>,
    plan: &[PlanPerm<'_>],
    trees: &mut Trees<'s>,
    parses: &mut Steps<L>,
) -> Result<(), NoMemory>
    ensures trees { OnOk result
        (AddsTrees files.now (file_names (plan_view plan.now)) trees.old trees.new) }
    // Where memory runs out, those of the files of the first names are added, and no others.
    ensures err { OnErr result
        (AddsFront files.now (file_names (plan_view plan.now)) trees.old trees.new) }
    ensures steps { OnOk result
        (CountsAdded files.now (file_names (plan_view plan.now)) trees.old parses.old parses.new) }
    // Where memory runs out, some files are not read.
    ensures at_most { CountsAtMost files.now (file_names (plan_view plan.now))
        trees.old parses.old parses.new }
{
    for perm in plan {
        read_sources(alloc, files, perm.sources.as_slice(), trees, parses)?;
    }
    Ok(())
}
