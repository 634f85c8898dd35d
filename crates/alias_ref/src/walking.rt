//! The walk of a value: its meaning, and the first rule that it breaks.

ghost use Rattle.std.specs.Prelude.{◌≡◌, ◌≤◌, ◌++◌, length, Some, None, false, IfOk, OnOk};
ghost use Rattle.std.specs.Prelude.{IfSome, IfNone};
ghost use Rattle.json_span.specs.View.{ref_view};
ghost use Rattle.alias_ref.specs.Visits.{most_on_branch};
ghost use Rattle.alias_ref.specs.Laws.{Flat as FlatTree};
ghost use Rattle.alias_ref.specs.Written.{is_misspelled, part};
ghost use Rattle.alias_ref.specs.inner.Contents.{content_view};
ghost use Rattle.alias_ref.specs.inner.Linking.{kind_with, lent, links_added};
ghost use Rattle.alias_ref.specs.inner.Spots.{IsSpot, spot_at, IsHolder, IsPartAt, HasStarts, IsSameBranch};
ghost use Rattle.alias_ref.specs.inner.Walks.{walking, walking_on, walking_parts, HasSeen};
ghost use Rattle.alias_ref.specs.inner.Walks.{IsMeantAt, IsWalked};
ghost use Rattle.alias_ref.specs.inner.Walks.{IsKindAt, HasLinks, HasLinksOf, item_parts};
ghost use Rattle.alias_ref.specs.inner.Walks.{field_parts};
ghost use Rattle.alias_ref.specs.inner.Walks.{ItemsMean, FieldsMean, walking_reference, IsTarget};
ghost use Rattle.alias_ref.specs.inner.Remembering.{HasHome};

use crate::content::{Content, read_content};
use crate::fault::RefFault;
use crate::index::index_text;
use crate::memory::Memory;
use crate::passing::follow;
use crate::recalling::recall;
use crate::spot::{Spot, part_spot};
use crate::trace::Trace;
use group_inherit::{Entry, Flat};
use json_span::{Fields, Items, NodeRef, Plain, PlainField, PlainFields, PlainItems};
use name_path::{Kind, Link, Links, Place};
use std::alloc::Global;
use tk_io::{NoMemory, Text};

/// What a walk finds at a place: the value without references, and the kind of the token whose whole value it is.
#[derive(Drop)]
pub(crate) struct Found<'s> {
    pub(crate) plain: Plain<'s>,
    pub(crate) kind: Option<Kind>,
}

/// The kind of a token, where what its whole value refers to lends this one.
pub(crate) fn kind_here(token: &Entry<'_>, lent: Option<Kind>) -> Option<Kind>
    ensures { result ≡ kind_with token.now lent }
{
    token.def.kind.or(lent).or(token.group_kind)
}

/// What is found at a place that is no reference, where its value is this one without references.
fn found_here<'s>(token: &Entry<'_>, plain: Plain<'s>) -> Found<'s>
    ensures plain { result.plain ≡ plain.entry }
    ensures kind { result.kind ≡ kind_with token.now None }
{
    Found {
        plain,
        kind: kind_here(token, None),
    }
}

/// The kind of a token by a reference at a place, whose target has this kind. The reference is listed where it is one of
/// `own`.
fn refer<'s>(
    place: &Place<'s>,
    token: &Entry<'s>,
    named: Place<'s>,
    own: bool,
    kind: Option<Kind>,
    links: &mut Links<'s>,
) -> Result<Option<Kind>, NoMemory>
    ensures kind { IfOk result (λ k. k ≡ kind_with token.now (lent kind named.entry.trail)) }
    ensures links { OnOk result (links.new ≡ links.old
        ++ links_added own place.now named.entry.token kind named.entry.trail) }
{
    if named.trail.len() > 0 {
        return Ok(kind_here(token, None));
    }
    if own {
        links.push(Link {
            trail: place.trail.copy()?,
            target: named.token,
            kind,
        })?;
    }
    Ok(kind_here(token, kind))
}

/// Walks a place. `own` says that it is written in the token whose links are listed.
#[cycle(walking)]
pub(crate) fn walk<'a, 's>(
    alloc: Global,
    flat: &'a Flat<'s>,
    memory: &Memory<'s>,
    spot: Spot<'a, 's>,
    own: bool,
    trace: &mut Trace<'s>,
    links: &mut Links<'s>,
) -> Result<Found<'s>, RefFault<'s>>
    requires at { IsSpot flat.now spot }
    requires room { length trace.old.places.items ≤ most_on_branch }
    requires starts { HasStarts flat.now trace.old }
    requires home { HasHome own flat.now memory.now.known.items trace.old spot.place.token }
    ensures seen { HasSeen flat.entry.now trace.old trace.new result (walking spot.entry.place) }
    ensures means { IfOk result (λ v. IsMeantAt flat.entry.now spot.entry.place v.plain) }
    ensures kind { IfOk result (λ v. IsKindAt flat.entry.now spot.entry.place v.kind) }
    ensures links { OnOk result (HasLinks own flat.entry.now spot.entry.place links.old links.new) }
    ensures branch { OnOk result (IsSameBranch trace.old trace.new) }
{
    trace.enter(alloc, &spot)?;
    let Spot {
        place,
        token,
        start,
        content,
    } = spot;
    let found = walk_on(
        alloc, flat, memory, &place, token, start, content, own, trace, links,
    );
    trace.leave();
    found
}

/// What walking a place asks for, once it stands on the branch.
#[cycle(walking)]
fn walk_on<'a, 's>(
    alloc: Global,
    flat: &'a Flat<'s>,
    memory: &Memory<'s>,
    place: &Place<'s>,
    token: &'a Entry<'s>,
    start: usize,
    content: Content<'a, 's>,
    own: bool,
    trace: &mut Trace<'s>,
    links: &mut Links<'s>,
) -> Result<Found<'s>, RefFault<'s>>
    requires at { IsSpot flat.now (spot_at place.now token start content) }
    requires room { length trace.old.places.items ≤ most_on_branch }
    requires starts { HasStarts flat.now trace.old }
    requires home { HasHome own flat.now memory.now.known.items trace.old place.now.token }
    requires spelled { is_misspelled (Some (content_view content)) ≡ false }
    ensures seen { HasSeen flat.entry.now trace.old trace.new result
        (walking_on (spot_at place.now token.entry start content.entry)) }
    ensures means { IfOk result (λ v. IsMeantAt flat.entry.now place.now v.plain) }
    ensures kind { IfOk result (λ v. IsKindAt flat.entry.now place.now v.kind) }
    ensures links { OnOk result (HasLinks own flat.entry.now place.now links.old links.new) }
    ensures branch { OnOk result (IsSameBranch trace.old trace.new) }
{
    match content {
        Content::Leaf(plain) => Ok(found_here(token, plain)),
        Content::Array(items) => {
            match walk_items(alloc, flat, memory, place, token, items, own, trace, links) {
                Ok(list) => Ok(found_here(token, Plain::Arr(list))),
                Err(fault) => Err(fault),
            }
        }
        Content::Object(fields) => {
            match walk_fields(alloc, flat, memory, place, token, fields, own, trace, links) {
                Ok(list) => Ok(found_here(token, Plain::Obj(list))),
                Err(fault) => Err(fault),
            }
        }
        Content::Refers(named) => {
            match walk_reference(alloc, flat, memory, place, &named, own, trace, links) {
                Ok(target) => {
                    let kind = refer(place, token, named, own, target.kind, links)?;
                    Ok(Found {
                        plain: target.plain,
                        kind,
                    })
                }
                Err(fault) => Err(fault),
            }
        }
        Content::Misspelled => unreachable!(),
    }
}

/// Walks what a reference at a place names, or takes what is remembered of it.
#[cycle(walking)]
fn walk_reference<'a, 's>(
    alloc: Global,
    flat: &'a Flat<'s>,
    memory: &Memory<'s>,
    place: &Place<'s>,
    named: &Place<'s>,
    own: bool,
    trace: &mut Trace<'s>,
    links: &mut Links<'s>,
) -> Result<Found<'s>, RefFault<'s>>
    requires room { length trace.old.places.items ≤ most_on_branch }
    requires starts { HasStarts flat.now trace.old }
    requires home { HasHome own flat.now memory.now.known.items trace.old place.now.token }
    ensures seen { HasSeen flat.entry.now trace.old trace.new result
        (walking_reference place.now named.now) }
    ensures target { IfOk result (IsTarget flat.entry.now trace.old place.now named.now) }
    ensures links { OnOk result (links.new ≡ links.old) }
    ensures branch { OnOk result (IsSameBranch trace.old trace.new) }
{
    if let Some(found) = recall(alloc, flat, memory, own, named, trace)? {
        return Ok(found);
    }
    let target = follow(alloc, flat, place, named, trace)?;
    walk_target(alloc, flat, memory, target, trace, links)
}

/// What is found at the target of a reference that is a literal, which is visited; none where a walk has to tell.
fn visit_target<'s>(
    alloc: Global,
    spot: &Spot<'_, 's>,
    trace: &mut Trace<'s>,
) -> Option<Result<Found<'s>, RefFault<'s>>>
    ensures told { (flat : FlatTree) → IsSpot flat spot.now → IfSome result (λ r.
        IsWalked flat trace.old trace.new spot.now.place r) }
    ensures none { IfNone result (trace.new.visits ≡ trace.old.visits) }
    ensures branch { IsSameBranch trace.old trace.new }
{
    let token = spot.token;
    match trace.visit_literal(alloc, &spot.place, &token.def) {
        Ok(Some(plain)) => Some(Ok(found_here(token, plain))),
        Ok(None) => None,
        Err(NoMemory) => Some(Err(RefFault::NoMemory)),
    }
}

/// Walks the target of a reference. A literal is what it is.
#[cycle(walking)]
fn walk_target<'a, 's>(
    alloc: Global,
    flat: &'a Flat<'s>,
    memory: &Memory<'s>,
    spot: Spot<'a, 's>,
    trace: &mut Trace<'s>,
    links: &mut Links<'s>,
) -> Result<Found<'s>, RefFault<'s>>
    requires at { IsSpot flat.now spot }
    requires room { length trace.old.places.items ≤ most_on_branch }
    requires starts { HasStarts flat.now trace.old }
    ensures seen { HasSeen flat.entry.now trace.old trace.new result (walking spot.entry.place) }
    ensures means { IfOk result (λ v. IsMeantAt flat.entry.now spot.entry.place v.plain) }
    ensures kind { IfOk result (λ v. IsKindAt flat.entry.now spot.entry.place v.kind) }
    ensures links { OnOk result (links.new ≡ links.old) }
    ensures branch { OnOk result (IsSameBranch trace.old trace.new) }
{
    match visit_target(alloc, &spot, trace) {
        Some(found) => found,
        None => walk(alloc, flat, memory, spot, false, trace, links),
    }
}

/// Walks the items of an array, in order.
#[cycle(walking)]
fn walk_items<'a, 's>(
    alloc: Global,
    flat: &'a Flat<'s>,
    memory: &Memory<'s>,
    place: &Place<'s>,
    token: &'a Entry<'s>,
    items: Items<'a, 's>,
    own: bool,
    trace: &mut Trace<'s>,
    links: &mut Links<'s>,
) -> Result<PlainItems<'s>, RefFault<'s>>
    requires at { IsHolder flat.now place.now token.now (item_parts items) }
    requires room { length trace.old.places.items ≤ most_on_branch }
    requires starts { HasStarts flat.now trace.old }
    requires home { HasHome own flat.now memory.now.known.items trace.old place.now.token }
    ensures seen { HasSeen flat.entry.now trace.old trace.new result
        (walking_parts place.now (item_parts items.entry)) }
    ensures means { IfOk result (λ l. ItemsMean flat.entry.now place.now items.entry l) }
    ensures links { OnOk result
        (HasLinksOf own flat.entry.now place.now (item_parts items.entry) links.old links.new) }
    ensures branch { OnOk result (IsSameBranch trace.old trace.new) }
{
    let mut list = PlainItems::new(alloc);
    let mut index: usize = 0;
    for node in items {
        let step = index_text(alloc, index)?;
        let plain = walk_part(
            alloc, flat, memory, place, token, &step, node, own, trace, links,
        )?;
        list.push(plain)?;
        index += 1;
    }
    Ok(list)
}

/// Walks the members of an object, in order.
#[cycle(walking)]
fn walk_fields<'a, 's>(
    alloc: Global,
    flat: &'a Flat<'s>,
    memory: &Memory<'s>,
    place: &Place<'s>,
    token: &'a Entry<'s>,
    fields: Fields<'a, 's>,
    own: bool,
    trace: &mut Trace<'s>,
    links: &mut Links<'s>,
) -> Result<PlainFields<'s>, RefFault<'s>>
    requires at { IsHolder flat.now place.now token.now (field_parts fields) }
    requires room { length trace.old.places.items ≤ most_on_branch }
    requires starts { HasStarts flat.now trace.old }
    requires home { HasHome own flat.now memory.now.known.items trace.old place.now.token }
    ensures seen { HasSeen flat.entry.now trace.old trace.new result
        (walking_parts place.now (field_parts fields.entry)) }
    ensures means { IfOk result (λ l. FieldsMean flat.entry.now place.now fields.entry l) }
    ensures links { OnOk result
        (HasLinksOf own flat.entry.now place.now (field_parts fields.entry) links.old links.new) }
    ensures branch { OnOk result (IsSameBranch trace.old trace.new) }
{
    let mut list = PlainFields::new(alloc);
    for field in fields {
        let name = field.name(alloc)?;
        let value = walk_part(
            alloc,
            flat,
            memory,
            place,
            token,
            &name,
            field.value(),
            own,
            trace,
            links,
        )?;
        list.push(PlainField { name, value })?;
    }
    Ok(list)
}

/// Walks the part after a step. A leaf asks for no further visit: its place is made only where a fault is told.
#[cycle(walking)]
fn walk_part<'a, 's>(
    alloc: Global,
    flat: &'a Flat<'s>,
    memory: &Memory<'s>,
    place: &Place<'s>,
    token: &'a Entry<'s>,
    step: &Text<'s>,
    node: NodeRef<'a, 's>,
    own: bool,
    trace: &mut Trace<'s>,
    links: &mut Links<'s>,
) -> Result<Plain<'s>, RefFault<'s>>
    requires at { IsPartAt flat.now place.now token.now step.now (ref_view node) }
    requires room { length trace.old.places.items ≤ most_on_branch }
    requires starts { HasStarts flat.now trace.old }
    requires home { HasHome own flat.now memory.now.known.items trace.old place.now.token }
    ensures seen { HasSeen flat.entry.now trace.old trace.new result
        (walking (part place.now step.now)) }
    ensures means { IfOk result (λ v. IsMeantAt flat.entry.now (part place.now step.now) v) }
    ensures links { OnOk result
        (HasLinks own flat.entry.now (part place.now step.now) links.old links.new) }
    ensures branch { OnOk result (IsSameBranch trace.old trace.new) }
{
    let content = read_content(alloc, node, false)?;
    match content {
        Content::Leaf(plain) => {
            trace.visit_leaf(alloc, place, step, node.start())?;
            Ok(plain)
        }
        content => {
            let spot = part_spot(place, token, step, node, content)?;
            let found = walk(alloc, flat, memory, spot, own, trace, links)?;
            Ok(found.plain)
        }
    }
}
