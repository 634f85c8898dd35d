//! The nodes with an edge to each node, as sets.

ghost use Rattle.std.specs.Prelude.{◌≡◌, ℕ, ◌<◌, false, [], ◌∷◌, length};
ghost use Rattle.std.specs.Prelude.{replicate, take, All, IfOk, OnOk, OnErr};
ghost use Rattle.std.specs.Ordering.{nat_cmp};
ghost use Rattle.std.specs.BTreeSet.{contains};
ghost use Rattle.ref_graph.specs.Edges.{rows_of, is_in, has_source, IsAdded, IsRemoved, IsReplaced};

use std::alloc::Global;
use std::collections::BTreeSet;
use tk_io::NoMemory;

/// A row without targets for each node.
pub fn no_targets(alloc: Global, nodes: usize) -> Result<Vec<Vec<usize>>, NoMemory>
    ensures { IfOk result (λ rows. rows_of rows.items ≡ replicate nodes []) }
{
    let mut rows = Vec::new(alloc);
    for _node in 0..nodes {
        rows.push(Vec::new(alloc))?;
    }
    Ok(rows)
}

/// An empty set for each node.
pub fn no_sources(alloc: Global, nodes: usize) -> Result<Vec<BTreeSet<usize>>, NoMemory>
    ensures long { IfOk result (λ sources. length sources.items ≡ nodes) }
    ensures empty { IfOk result (λ sources. (w v : ℕ) → has_source sources.items w v ≡ false) }
{
    let mut sources = Vec::new(alloc);
    for _node in 0..nodes {
        sources.push(BTreeSet::new(alloc))?;
    }
    Ok(sources)
}

/// The set of the items.
fn set_of(alloc: Global, items: &[usize]) -> Result<BTreeSet<usize>, NoMemory>
    ensures { IfOk result (λ set. (q : ℕ) → contains nat_cmp set q ≡ is_in items.now q) }
{
    let mut set = BTreeSet::new(alloc);
    for item in items {
        set.insert(*item)?;
    }
    Ok(set)
}

/// Adds the node to the sources of each of its targets. Where memory runs out it was added to those of the first ones.
fn add_source(
    sources: &mut Vec<BTreeSet<usize>>,
    node: usize,
    targets: &[usize],
) -> Result<(), NoMemory>
    requires { All (λ w. w < length sources.old.items) targets.now }
    ensures long { length sources.new.items ≡ length sources.old.items }
    ensures ok { OnOk result (IsAdded sources.old.items sources.new.items node targets.now) }
    ensures err { OnErr result ((k : ℕ)
        × IsAdded sources.old.items sources.new.items node (take k targets.now)) }
{
    for target in targets {
        sources[*target].insert(node)?;
    }
    Ok(())
}

/// Takes the node away from the sources of the target, unless that is kept.
fn remove_unless_kept(sources: &mut Vec<BTreeSet<usize>>, node: usize, target: usize, is_kept: bool)
    requires { target < length sources.old.items }
    ensures long { length sources.new.items ≡ length sources.old.items }
    ensures removed { IsRemoved sources.old.items sources.new.items node
        (target ∷ []) (λ _. is_kept) }
{
    if is_kept {
        return;
    }
    let _ = sources[target].remove(&node);
}

/// Takes the node away from the sources of each of the targets that is not in the set.
fn remove_source(
    sources: &mut Vec<BTreeSet<usize>>,
    node: usize,
    targets: &[usize],
    kept: &BTreeSet<usize>,
)
    requires { All (λ w. w < length sources.old.items) targets.now }
    ensures long { length sources.new.items ≡ length sources.old.items }
    ensures removed { IsRemoved sources.old.items sources.new.items node
        targets.now (contains nat_cmp kept.now) }
{
    for target in targets {
        remove_unless_kept(sources, node, *target, kept.contains(target));
    }
}

/// Takes the node away from the sources of each of the targets that is not in the list.
fn take_back_source(
    sources: &mut Vec<BTreeSet<usize>>,
    node: usize,
    targets: &[usize],
    kept: &[usize],
)
    requires { All (λ w. w < length sources.old.items) targets.now }
    ensures long { length sources.new.items ≡ length sources.old.items }
    ensures removed { IsRemoved sources.old.items sources.new.items node
        targets.now (is_in kept.now) }
{
    for target in targets {
        remove_unless_kept(sources, node, *target, kept.contains(target));
    }
}

/// Makes the node a source of the new targets alone, where it is one of the old. Where memory runs out it stays one of
/// the old.
pub fn replace_source(
    alloc: Global,
    sources: &mut Vec<BTreeSet<usize>>,
    node: usize,
    old: &[usize],
    new: &[usize],
) -> Result<(), NoMemory>
    requires old_within { All (λ w. w < length sources.old.items) old.now }
    requires new_within { All (λ w. w < length sources.old.items) new.now }
    requires is_source { (w : ℕ) → has_source sources.old.items w node ≡ is_in old.now w }
    ensures long { length sources.new.items ≡ length sources.old.items }
    ensures ok { OnOk result (IsReplaced sources.old.items sources.new.items node new.now) }
    ensures err { OnErr result ((w v : ℕ)
        → has_source sources.new.items w v ≡ has_source sources.old.items w v) }
{
    let after = set_of(alloc, new)?;
    match add_source(sources, node, new) {
        Err(refused) => {
            take_back_source(sources, node, new, old);
            Err(refused)
        }
        Ok(()) => {
            remove_source(sources, node, old, &after);
            Ok(())
        }
    }
}
