//! The references of a flat tree as edges between the places of its tokens.

ghost use Rattle.std.specs.Prelude.{◌≡◌, ◌+◌, ◌<◌, ℕ, false, Option, Some, IfOk, OnOk, length};
ghost use Rattle.std.specs.FinMap as map;
ghost use Rattle.std.specs.List.{slice_get};
ghost use Rattle.group_inherit.specs.Flattening.{TokenAt};
ghost use Rattle.alias_ref.specs.Laws.{Flat as FlatTree};
ghost use Rattle.alias_ref.specs.Refs.{refs_of as names_of};
ghost use Rattle.tree_changes.specs.Named.{NamesAs};
ghost use Rattle.tree_changes.specs.Reached.{is_changed};
ghost use Rattle.tree_changes.specs.Standing.{StandsAt};
ghost use Rattle.tree_changes.specs.inner.Links.{AreLinks, AreNamed, AreTold, AreUnsettled};
ghost use Rattle.tree_changes.specs.inner.Links.{HasBegun, IsNamed, IsOneTold, IsRow};
ghost use Rattle.tree_changes.specs.inner.Settling.{AreBeside, AreSettled};

use crate::Named;
use crate::index::Index;
use crate::places::{index_of, place_of};
use crate::settling::{Beside, is_said, moved_to, named_at};
use alias_ref::{differ_decides, refs_of, source_decides};
use group_inherit::{Entry, Flat};
use name_path::Path;
use ref_graph::Graph;
use std::alloc::Global;
use tk_io::NoMemory;

/// What spreads a change: each token that stands unchanged has an edge to each token that it names, by their places, but for
/// those from which no change is reached. A change begins at the tokens that are changed, and at those that name one that is
/// changed.
#[derive(Drop)]
pub(crate) struct Links {
    pub(crate) graph: Graph,
    pub(crate) begins: Vec<usize>,
    /// What is known of the names of each token.
    pub(crate) named: Vec<Named>,
}

// Adds the place of the token that is named to the row. Whether none stands there, but one stood in the earlier tree.
fn add_named<'s>(
    old: &Flat<'s>,
    new: &Flat<'s>,
    index: &Index,
    name: &Path<'s>,
    row: &mut Vec<usize>,
) -> Result<bool, NoMemory>
    ensures { IfOk result (IsNamed old.now new.now name.now row.old.items row.new.items) }
{
    match place_of(index, new.as_slice(), name) {
        Some(i) => {
            row.push(i)?;
            Ok(false)
        }
        None => Ok(old.get(name).is_some()),
    }
}

// The places of the tokens of these names come in place of what the row held. Whether one is not there any more, where the
// row is left as it is then.
fn row_of<'s>(
    old: &Flat<'s>,
    new: &Flat<'s>,
    index: &Index,
    names: &[Path<'s>],
    row: &mut Vec<usize>,
) -> Result<bool, NoMemory>
    ensures { IfOk result (IsRow old.now new.now names.now row.new.items) }
{
    row.clear();
    for name in names {
        let is_gone = add_named(old, new, index, name, row)?;
        if is_gone {
            return Ok(true);
        }
    }
    Ok(false)
}

// What is known of the names of a token that has these, whose tokens stand at these places.
fn named_by(names: &[Path<'_>], targets: &[usize]) -> Named
    ensures { (old new : FlatTree) (token : TokenAt) → names_of token.1.def ≡ names.now
        → AreNamed old new names.now targets.now → NamesAs (map.entries new) token result }
{
    match names.len() {
        0 => Named::Nothing,
        1 => match targets.first() {
            Some(place) => Named::one(*place),
            None => Named::Unknown,
        },
        _ => Named::Unknown,
    }
}

// The places of the tokens that a token names come in place of what `targets` held, and it is told what is known of its
// names; or one of them is changed. Its references are read.
fn read_targets<'s>(
    alloc: Global,
    old: &Flat<'s>,
    new: &Flat<'s>,
    index: &Index,
    token: &(Path<'s>, Entry<'s>),
    targets: &mut Vec<usize>,
) -> Result<Option<Named>, NoMemory>
    ensures { IfOk result (AreTold old.now new.now token.now targets.new.items) }
{
    let names = refs_of(alloc, &token.1.def)?;
    let is_lost = row_of(old, new, index, names.as_slice(), targets)?;
    if is_lost {
        return Ok(None);
    }
    Ok(Some(named_by(names.as_slice(), targets.as_slice())))
}

// The same of a token that names one alone, which stood at this place of the earlier tree.
fn one_target(
    moved: &[Option<usize>],
    there: usize,
    targets: &mut Vec<usize>,
) -> Result<Option<Named>, NoMemory>
    ensures { (o : Option ℕ) → slice_get moved.now there ≡ Some o
        → IfOk result (IsOneTold o targets.new.items) }
{
    targets.clear();
    match moved_to(moved, there) {
        Some(place) => {
            targets.push(place)?;
            Ok(Some(Named::one(place)))
        }
        None => Ok(None),
    }
}

// The same of a token that stands unchanged at this place of the earlier tree. Its references are read where nothing is known
// of its names.
fn targets_of<'s>(
    alloc: Global,
    side: &Beside<'_, 's>,
    index: &Index,
    at: usize,
    token: &(Path<'s>, Entry<'s>),
    targets: &mut Vec<usize>,
) -> Result<Option<Named>, NoMemory>
    requires beside { AreBeside side.now }
    requires there { (i : ℕ) × (slice_get (map.entries side.now.new.now) i ≡ Some token.now) }
    requires stands { StandsAt side.now.old.now side.now.new.now token.now (Some at) }
    ensures { IfOk result
        (AreTold side.now.old.now side.now.new.now token.now targets.new.items) }
{
    source_decides();
    differ_decides();
    match named_at(side.named, at) {
        Named::Unknown => read_targets(alloc, side.old, side.new, index, token, targets),
        Named::Nothing => {
            targets.clear();
            Ok(Some(Named::Nothing))
        }
        Named::One(there) => {
            let told = one_target(side.moved, there as usize, targets)?;
            Ok(told)
        }
    }
}

// Those of the places from which a change may be reached come in place of what `edges` held.
fn unsettled(settled: &[bool], targets: &[usize], edges: &mut Vec<usize>) -> Result<(), NoMemory>
    ensures { OnOk result (AreUnsettled settled.now targets.now edges.new.items) }
{
    edges.clear();
    for place in targets {
        if !is_said(settled, *place) {
            edges.push(*place)?;
        }
    }
    Ok(())
}

impl Links {
    // Of so many tokens, none of which was looked at.
    fn new(alloc: Global, nodes: usize) -> Result<Links, NoMemory>
        ensures { (old new : FlatTree) → nodes ≡ length (map.entries new)
            → IfOk result (AreLinks old new 0) }
    {
        let graph = Graph::new(alloc, nodes)?;
        Ok(Links {
            graph,
            begins: Vec::new(alloc),
            named: Vec::new(alloc),
        })
    }

    // A change begins at the i-th token.
    fn begin(&mut self, i: usize) -> Result<(), NoMemory>
        ensures { OnOk result (HasBegun self.old i self.new) }
    {
        self.begins.push(i)?;
        self.named.push(Named::Unknown)?;
        Ok(())
    }

    // Links the i-th token, which stands unchanged, to the tokens that it names, which stand at these places.
    fn link<'s>(
        &mut self,
        side: &Beside<'_, 's>,
        settled: &[bool],
        i: usize,
        token: &(Path<'s>, Entry<'s>),
        targets: &[usize],
        named: Named,
        edges: &mut Vec<usize>,
    ) -> Result<(), NoMemory>
        requires settled { AreSettled side.now.old.now side.now.new.now settled.now }
        requires token { slice_get (map.entries side.now.new.now) i ≡ Some token.now }
        requires same { is_changed side.now.old.now side.now.new.now token.now.0 ≡ false }
        requires told { AreTold side.now.old.now side.now.new.now token.now targets.now
            (Some named) }
        requires links { AreLinks side.now.old.now side.now.new.now i self.old }
        ensures { OnOk result
            (AreLinks side.now.old.now side.now.new.now (i + 1) self.new) }
    {
        self.named.push(named)?;
        unsettled(settled, targets, edges)?;
        let edges = edges.as_slice();
        if edges.is_empty() {
            return Ok(());
        }
        self.graph.set_edges(i, edges)?;
        Ok(())
    }

    // Adds the i-th token. The rows are for its names and its edges.
    fn add<'s>(
        &mut self,
        alloc: Global,
        side: &Beside<'_, 's>,
        settled: &[bool],
        index: &Index,
        i: usize,
        token: &(Path<'s>, Entry<'s>),
        targets: &mut Vec<usize>,
        edges: &mut Vec<usize>,
    ) -> Result<(), NoMemory>
        requires beside { AreBeside side.now }
        requires settled { AreSettled side.now.old.now side.now.new.now settled.now }
        requires token { slice_get (map.entries side.now.new.now) i ≡ Some token.now }
        requires place { i < length side.now.places.now }
        requires links { AreLinks side.now.old.now side.now.new.now i self.old }
        ensures { OnOk result
            (AreLinks side.now.old.now side.now.new.now (i + 1) self.new) }
    {
        differ_decides();
        let Some(at) = side.places[i] else {
            self.begin(i)?;
            return Ok(());
        };
        match targets_of(alloc, side, index, at, token, targets)? {
            Some(named) => { self.link(side, settled, i, token, targets.as_slice(), named, edges) }
            None => {
                self.begin(i)?;
                Ok(())
            }
        }
    }

    // Adds all tokens of the present tree.
    fn add_all<'s>(
        &mut self,
        alloc: Global,
        side: &Beside<'_, 's>,
        settled: &[bool],
        index: &Index,
    ) -> Result<(), NoMemory>
        requires beside { AreBeside side.now }
        requires settled { AreSettled side.now.old.now side.now.new.now settled.now }
        requires none { AreLinks side.now.old.now side.now.new.now 0 self.old }
        ensures { OnOk result (AreLinks side.now.old.now side.now.new.now
            (length (map.entries side.now.new.now)) self.new) }
    {
        let tokens = side.new.as_slice();
        let mut targets = Vec::new(alloc);
        let mut edges = Vec::new(alloc);
        for (i, token) in tokens.iter().enumerate() {
            self.add(
                alloc,
                side,
                settled,
                index,
                i,
                token,
                &mut targets,
                &mut edges,
            )?;
        }
        Ok(())
    }
}

/// The links of the flat tree beside an earlier one. Of some of its tokens it is seen that no change is reached from them.
pub(crate) fn links_of<'s>(
    alloc: Global,
    side: &Beside<'_, 's>,
    settled: &[bool],
) -> Result<Links, NoMemory>
    requires beside { AreBeside side.now }
    requires settled { AreSettled side.now.old.now side.now.new.now settled.now }
    ensures { IfOk result (AreLinks side.now.old.now side.now.new.now
        (length (map.entries side.now.new.now))) }
{
    let index = index_of(alloc, side.named, side.new)?;
    let mut links = Links::new(alloc, side.new.as_slice().len())?;
    links.add_all(alloc, side, settled, &index)?;
    Ok(links)
}
