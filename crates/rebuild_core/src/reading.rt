//! The trees and the shapes of the files in use. A file that was in use with an equal text keeps both.

ghost use Rattle.std.specs.Prelude.{◌≡◌, ◌≢◌, ◌+◌, ◌≤◌, ℕ, List, Some, None, IfOk, IfSome, OnOk, true, false};
ghost use Rattle.std.specs.FinMap as map;
ghost use Rattle.file_plan.specs.InUse.{AreAmong, files_in_use, resolver_in, resolver_path};
ghost use Rattle.file_plan.specs.Trees.{AreTreesIn, IsRead, IsTreeOf};
ghost use Rattle.file_plan.specs.View.{plan_view};
ghost use Rattle.source_trees.specs.Trees.{AreShapesAmong};
ghost use Rattle.rebuild_core.specs.inner.Reading.{AddsOther, AreInUse, ReadOthers, ReadsFirst, ReadsOne, ReadsOther};

use crate::copying::copy_tree;
use crate::past::{Past, UsedTexts};
use crate::used::{RESOLVER, used_texts};
use file_plan::{Files, PlanPerm, Tree, Trees, in_use_laws, read_tree};
use source_trees::{Shapes, shapes_since};
use std::alloc::Global;
use std::sync::ledger::Ledger;
use tk_io::{NoMemory, Steps};

/// The files in use, and how many of them were read, but for the resolver document.
#[derive(Drop)]
pub(crate) struct InUse<'s> {
    pub(crate) used: UsedTexts<'s>,
    pub(crate) trees: Trees<'s>,
    pub(crate) shapes: Shapes<'s>,
    pub(crate) read: usize,
}

// Whether the file was in use with this text.
fn was_in_use(used: &UsedTexts<'_>, path: &str, text: &str) -> bool
    ensures same { result ≡ true → map.get used.now path.now ≡ Some text.now }
    ensures other { result ≡ false → map.get used.now path.now ≢ Some text.now }
{
    match used.get(path) {
        Some(old) => old.as_str() == text,
        None => false,
    }
}

// The tree of the file, where it was in use with this text.
fn known_tree<'a, 's>(past: &'a Past<'s>, path: &str, text: &str) -> Option<&'a Tree<'s>>
    requires { AreTreesIn past.now.used past.now.trees }
    ensures known { IfSome result (λ tree.
        IsTreeOf text.now tree.now × (map.get past.now.used path.now ≡ Some text.now)) }
    ensures new { result ≡ None → map.get past.now.used path.now ≢ Some text.now }
{
    let is_known = was_in_use(&past.used, path, text);
    if is_known {
        return past.trees.get(path);
    }
    None
}

// The tree of the file, and how many texts were read for it.
fn tree_of<'s, L: Ledger>(
    alloc: Global,
    past: &Past<'s>,
    path: &str,
    text: &'s str,
    parses: &mut Steps<L>,
) -> Result<(Tree<'s>, usize), NoMemory>
    requires { AreTreesIn past.now.used past.now.trees }
    ensures tree { IfOk result (λ r. IsTreeOf text.entry.now r.0) }
    ensures count { IfOk result (λ r. ReadsOne past.now.used (path.now, text.entry.now) r.1) }
    ensures step { IfOk result (λ r. parses.new ≡ parses.old + r.1) }
    ensures at_most { (n : ℕ) → ReadsOne past.now.used (path.now, text.entry.now) n
        → parses.new ≤ parses.old + n }
{
    match known_tree(past, path, text) {
        Some(tree) => {
            let tree = copy_tree(tree)?;
            Ok((tree, 0))
        }
        None => {
            let tree = read_tree(alloc, text, parses)?;
            Ok((tree, 1))
        }
    }
}

/// The tree of the resolver document, where it is there, and how many texts were read for it.
pub(crate) fn resolver_tree<'s, L: Ledger>(
    alloc: Global,
    files: &Files<'s>,
    past: &Past<'s>,
    parses: &mut Steps<L>,
) -> Result<(Trees<'s>, usize), NoMemory>
    requires { AreTreesIn past.now.used past.now.trees }
    ensures trees { IfOk result (λ r. AreTreesIn (resolver_in files.now) r.0) }
    ensures count { IfOk result (λ r.
        ReadsFirst past.now.used (map.get files.now resolver_path) r.1) }
    ensures step { IfOk result (λ r. parses.new ≡ parses.old + r.1) }
    ensures at_most { (n : ℕ) → ReadsFirst past.now.used (map.get files.now resolver_path) n
        → parses.new ≤ parses.old + n }
{
    let mut trees = Trees::new(alloc);
    match files.get(RESOLVER) {
        Some(text) => {
            let made = tree_of(alloc, past, RESOLVER, text, parses)?;
            trees.put(RESOLVER, made.0)?;
            Ok((trees, made.1))
        }
        None => Ok((trees, 0)),
    }
}

// Adds the tree of the file at the path, unless it is the resolver document. How many texts were read.
fn add_tree<'s, L: Ledger>(
    alloc: Global,
    files: &Files<'s>,
    past: &Past<'s>,
    path: &str,
    trees: &mut Trees<'s>,
    parses: &mut Steps<L>,
) -> Result<usize, NoMemory>
    requires { AreTreesIn past.now.used past.now.trees }
    ensures tree { OnOk result ((text : List ℕ) → map.get files.now path.now ≡ Some text
        → AddsOther path.now text trees.old trees.new) }
    ensures count { IfOk result (λ n. (text : List ℕ) → map.get files.now path.now ≡ Some text
        → ReadsOther past.now.used (path.now, text) n) }
    ensures step { IfOk result (λ n. parses.new ≡ parses.old + n) }
    ensures at_most { (n : ℕ) (text : List ℕ) → map.get files.now path.now ≡ Some text
        → ReadsOther past.now.used (path.now, text) n → parses.new ≤ parses.old + n }
{
    let is_first = path == RESOLVER;
    if is_first {
        return Ok(0);
    }
    match files.get(path) {
        Some(text) => {
            let made = tree_of(alloc, past, path, text, parses)?;
            trees.put(path, made.0)?;
            Ok(made.1)
        }
        None => Ok(0),
    }
}

// Adds the trees of all files in use but the resolver document. How many texts were read.
fn add_trees<'s, L: Ledger>(
    alloc: Global,
    files: &Files<'s>,
    past: &Past<'s>,
    used: &UsedTexts<'s>,
    trees: &mut Trees<'s>,
    parses: &mut Steps<L>,
) -> Result<usize, NoMemory>
    requires past { AreTreesIn past.now.used past.now.trees }
    requires used { AreAmong used.now files.now }
    requires first { IsRead (map.get used.now resolver_path) (map.get trees.old resolver_path) }
    requires only { (path : List ℕ) → map.get used.now path ≡ None → map.get trees.old path ≡ None }
    ensures trees { OnOk result (AreTreesIn used.now trees.new) }
    ensures count { IfOk result (ReadOthers past.now.used used.now) }
    ensures step { IfOk result (λ n. parses.new ≡ parses.old + n) }
    ensures at_most { (n : ℕ) → ReadOthers past.now.used used.now n
        → parses.new ≤ parses.old + n }
{
    let mut read = 0;
    for (path, _) in used.entries() {
        let more = add_tree(alloc, files, past, path.as_str(), trees, parses)?;
        read += more;
    }
    Ok(read)
}

/// The files in use for these permutations, with their trees and shapes. The tree of the resolver document is there.
pub(crate) fn in_use<'s, L: Ledger>(
    alloc: Global,
    files: &Files<'s>,
    past: &Past<'s>,
    plan: &[PlanPerm<'s>],
    trees: Trees<'s>,
    parses: &mut Steps<L>,
) -> Result<InUse<'s>, NoMemory>
    requires past { AreTreesIn past.now.used past.now.trees }
    requires shapes { AreShapesAmong past.now.files past.now.shapes }
    requires trees { AreTreesIn (resolver_in files.now) trees }
    ensures are { IfOk result (AreInUse files.now (plan_view plan.now)) }
    ensures count { IfOk result (λ r.
        ReadOthers past.now.used (files_in_use files.now (plan_view plan.now)) r.read) }
    ensures step { IfOk result (λ r. parses.new ≡ parses.old + r.read) }
    ensures at_most { (n : ℕ)
        → ReadOthers past.now.used (files_in_use files.now (plan_view plan.now)) n
        → parses.new ≤ parses.old + n }
{
    in_use_laws();
    let used = used_texts(alloc, files, plan)?;
    let mut trees = trees;
    let read = add_trees(alloc, files, past, &used, &mut trees, parses)?;
    let shapes = shapes_since(alloc, files, &trees, &past.files, &past.shapes)?;
    Ok(InUse {
        used,
        trees,
        shapes,
        read,
    })
}
