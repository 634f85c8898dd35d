//! The outputs of files, and the tree of their resolver document.

ghost use Rattle.std.specs.Prelude.{◌≡◌, ◌<◌, IfOk};
ghost use Rattle.std.specs.FinMap as finite;
ghost use Rattle.build_plain.specs.Out.{Builds};
ghost use Rattle.file_plan.specs.InUse.{resolver_path};
ghost use Rattle.file_plan.specs.Trees.{IsRead};

use build_plain::{Earlier, build};
use file_plan::{Files, Tree, read_tree};
use std::alloc::Global;
use std::marker::Brand;
use std::sync::ledger::{Blank, Ledger};
use tk_io::{NoMemory, Outputs, Steps};

// The counters are made here: a call that picks a ledger has no text in its signature.
fn counted<'s, L: Ledger, M: Ledger, N: Ledger>(
    alloc: Global,
    files: &Files<'s>,
    parses: Blank,
    merges: Blank,
    evals: Blank,
) -> Result<Outputs, NoMemory>
    requires parses { (parses.name ≡ L.name) × (parses.parts ≡ L.parts) × (0 < L.parts) }
    requires merges { (merges.name ≡ M.name) × (merges.parts ≡ M.parts) × (0 < M.parts) }
    requires evals { (evals.name ≡ N.name) × (evals.parts ≡ N.parts) × (0 < N.parts) }
    ensures { IfOk result (λ outputs. Builds files.now outputs) }
{
    let mut earlier = Earlier::new();
    let mut parses: Steps<L> = Steps::new(parses);
    let mut merges: Steps<M> = Steps::new(merges);
    let mut evals: Steps<N> = Steps::new(evals);
    build(
        alloc,
        files,
        &mut earlier,
        &mut parses,
        &mut merges,
        &mut evals,
    )
}

/// The outputs of the files, from nothing.
pub(crate) fn build_anew(alloc: Global, files: &Files<'_>) -> Result<Outputs, NoMemory>
    ensures { IfOk result (λ outputs. Builds files.now outputs) }
{
    counted::<Brand, Brand, Brand>(alloc, files, Blank::new(1), Blank::new(1), Blank::new(1))
}

fn counted_tree<'s, L: Ledger>(
    alloc: Global,
    files: &Files<'s>,
    page: Blank,
) -> Result<Option<Tree<'s>>, NoMemory>
    requires { (page.name ≡ L.name) × (page.parts ≡ L.parts) × (0 < L.parts) }
    ensures { IfOk result (IsRead (finite.get files.now resolver_path)) }
{
    let mut parses: Steps<L> = Steps::new(page);
    match files.get("resolver.json") {
        Some(text) => Ok(Some(read_tree(alloc, text, &mut parses)?)),
        None => Ok(None),
    }
}

/// The tree of the resolver document, where there is one.
pub(crate) fn resolver_tree<'s>(
    alloc: Global,
    files: &Files<'s>,
) -> Result<Option<Tree<'s>>, NoMemory>
    ensures { IfOk result (IsRead (finite.get files.now resolver_path)) }
{
    counted_tree::<Brand>(alloc, files, Blank::new(1))
}
