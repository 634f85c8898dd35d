//! Tokens of a flat tree that come to what they came to in an earlier one.

ghost use Rattle.std.specs.Prelude.{ℕ, ◌<◌, All, IfOk, OnOk, length};
ghost use Rattle.std.specs.FinMap as map;
ghost use Rattle.std.specs.List.{AllZip};
ghost use Rattle.tree_changes.specs.Named.{AllNameAs};
ghost use Rattle.tree_changes.specs.Standing.{KeepsAt, StandsAt};
ghost use Rattle.tree_changes.specs.inner.Forgetting.{AreForgotten};
ghost use Rattle.tree_changes.specs.inner.Links.{AreLinks};

use crate::Named;
use crate::definitions::definitions_stand;
use crate::links::{Links, links_of};
use crate::settling::{Beside, moved_places, settled_tokens};
use crate::unchanged::unchanged_places;
use group_inherit::Flat;
use ref_graph::Marks;
use std::alloc::Global;
use tk_io::NoMemory;

// Leaves no place for these tokens.
fn forget(places: &mut Vec<Option<usize>>, reached: &Marks)
    requires { All (λ i. i < length places.old.items) reached.now }
    ensures { AreForgotten reached.now places.old.items places.new.items }
{
    let nodes = reached.as_slice();
    for node in nodes {
        places[*node] = None;
    }
}

// Leaves no place for tokens that are reached, where these are the links of the tree.
fn forget_reached<'s>(
    old: &Flat<'s>,
    new: &Flat<'s>,
    links: &Links,
    places: &mut Vec<Option<usize>>,
) -> Result<(), NoMemory>
    requires links { AreLinks old.now new.now (length (map.entries new.now)) links.now }
    requires stand { AllZip (StandsAt old.now new.now) (map.entries new.now) places.old.items }
    ensures { OnOk result
        (AllZip (KeepsAt old.now new.now) (map.entries new.now) places.new.items) }
{
    let reached = links.graph.reach(links.begins.as_slice())?;
    forget(places, &reached);
    Ok(())
}

// What spreads a change in the flat tree, whose tokens stand at these places of the earlier one where they are unchanged.
fn links_beside<'s>(
    alloc: Global,
    old: &Flat<'s>,
    named: &[Named],
    new: &Flat<'s>,
    places: &[Option<usize>],
) -> Result<Links, NoMemory>
    requires named { AllNameAs (map.entries old.now) named.now }
    requires places { AllZip (StandsAt old.now new.now) (map.entries new.now) places.now }
    ensures { IfOk result (AreLinks old.now new.now (length (map.entries new.now))) }
{
    definitions_stand(old);
    definitions_stand(new);
    let moved = moved_places(alloc, old.as_slice().len(), places)?;
    let side = Beside {
        old,
        named,
        new,
        places,
        moved: moved.as_slice(),
    };
    let settled = settled_tokens(alloc, &side)?;
    links_of(alloc, &side, settled.as_slice())
}

/// Where each token of a flat tree stood in an earlier one, in path order, if neither it nor any token to which its
/// references lead is another there; none where one is. A name at which a token came or went is another too. Such a
/// token comes to what it came to there, under one configuration, wherever its file stands. And of each token what is known
/// of its names, as is given of the earlier tree, in path order, as far as it is said: the references of a token that stands as
/// it stood, and of whose names something is known, are not read. Both trees are gone over a fixed number of times, and the
/// references of each other token that stands as it stood are read once.
///
/// # Errors
/// `NoMemory`.
pub fn kept_places<'s>(
    alloc: Global,
    old: &Flat<'s>,
    named: &[Named],
    new: &Flat<'s>,
) -> Result<(Vec<Option<usize>>, Vec<Named>), NoMemory>
    requires { AllNameAs (map.entries old.now) named.now }
    ensures places { IfOk result (λ kept.
        AllZip (KeepsAt old.now new.now) (map.entries new.now) kept.0.items) }
    ensures named { IfOk result (λ kept. AllNameAs (map.entries new.now) kept.1.items) }
{
    let mut places = unchanged_places(alloc, old, new)?;
    let links = links_beside(alloc, old, named, new, places.as_slice())?;
    forget_reached(old, new, &links, &mut places)?;
    let Links {
        graph: _,
        begins: _,
        named,
    } = links;
    Ok((places, named))
}
