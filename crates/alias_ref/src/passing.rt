//! Following references: where they lead, with nothing walked.

ghost use Rattle.std.specs.Prelude.{◌≡◌, ◌≤◌, ◌<◌, ◌^◌, ◌∷◌, [], length, Some, None, true, false, IfOk, IfErr, OnOk};
ghost use Rattle.std.specs.FinMap as map;
ghost use Rattle.alias_ref.specs.Visits.{most_on_branch};
ghost use Rattle.alias_ref.specs.Written.{whole, part, part_under, is_misspelled, is_reference};
ghost use Rattle.alias_ref.specs.Laws.{Flat as FlatTree};
ghost use Rattle.alias_ref.specs.inner.Contents.{content_view, content_parts, content_items};
ghost use Rattle.alias_ref.specs.inner.Seen.{IsLost};
ghost use Rattle.alias_ref.specs.inner.Spots.{IsSpot, HasStarts, IsSameBranch};
ghost use Rattle.alias_ref.specs.inner.Walks.{settling, passing, leading, stepping, passing_on};
ghost use Rattle.alias_ref.specs.inner.Walks.{HasGone, HasEnded};

use crate::content::Content;
use crate::fault::{RefFault, RefRule};
use crate::spot::{Spot, whole_spot};
use crate::trace::{Trace, broken};
use group_inherit::Flat;
use name_path::{Path, Place};
use std::alloc::Global;
use tk_io::{NoMemory, Text};

/// Passes a place that is a reference, and stays at any other.
#[cycle(passing)]
fn settle<'a, 's>(
    alloc: Global,
    flat: &'a Flat<'s>,
    spot: Spot<'a, 's>,
    trace: &mut Trace<'s>,
) -> Result<Spot<'a, 's>, RefFault<'s>>
    requires at { IsSpot flat.now spot }
    requires room { length trace.old.places.items ≤ most_on_branch }
    requires starts { HasStarts flat.now trace.old }
    ensures seen { HasGone flat.entry.now trace.old trace.new result (settling spot.entry.place) }
    ensures ends { HasEnded flat.entry.now trace.old result (settling spot.entry.place) }
    ensures found { IfOk result (λ e. IsSpot flat.entry.now e) }
    ensures branch { OnOk result (IsSameBranch trace.old trace.new) }
{
    if spot.content.is_reference() {
        pass(alloc, flat, &spot, trace)
    } else {
        Ok(spot)
    }
}

/// Follows a reference and the references that it leads to.
#[cycle(passing)]
fn pass<'a, 's>(
    alloc: Global,
    flat: &'a Flat<'s>,
    spot: &Spot<'a, 's>,
    trace: &mut Trace<'s>,
) -> Result<Spot<'a, 's>, RefFault<'s>>
    requires at { IsSpot flat.now spot.now }
    requires room { length trace.old.places.items ≤ most_on_branch }
    requires starts { HasStarts flat.now trace.old }
    requires refers { is_reference (Some (content_view spot.now.content)) ≡ true }
    ensures seen { HasGone flat.entry.now trace.old trace.new result (passing spot.now.place) }
    ensures ends { HasEnded flat.entry.now trace.old result (passing spot.now.place) }
    ensures found { IfOk result (λ e. IsSpot flat.entry.now e) }
    ensures branch { OnOk result (IsSameBranch trace.old trace.new) }
{
    trace.enter(alloc, spot)?;
    let end = pass_on(alloc, flat, spot, trace)?;
    trace.leave();
    Ok(end)
}

/// What passing a place asks for, once it stands on the branch.
#[cycle(passing)]
fn pass_on<'a, 's>(
    alloc: Global,
    flat: &'a Flat<'s>,
    spot: &Spot<'a, 's>,
    trace: &mut Trace<'s>,
) -> Result<Spot<'a, 's>, RefFault<'s>>
    requires at { IsSpot flat.now spot.now }
    requires room { length trace.old.places.items ≤ most_on_branch }
    requires starts { HasStarts flat.now trace.old }
    requires spelled { is_misspelled (Some (content_view spot.now.content)) ≡ false }
    requires refers { is_reference (Some (content_view spot.now.content)) ≡ true }
    ensures seen { HasGone flat.entry.now trace.old trace.new result (passing_on spot.now) }
    ensures ends { HasEnded flat.entry.now trace.old result (passing_on spot.now) }
    ensures found { IfOk result (λ e. IsSpot flat.entry.now e) }
    ensures branch { OnOk result (IsSameBranch trace.old trace.new) }
{
    if let Content::Refers(named) = &spot.content {
        let target = follow(alloc, flat, &spot.place, named, trace)?;
        settle(alloc, flat, target, trace)
    } else {
        unreachable!()
    }
}

/// The whole value of the token that a reference names. `home` is its place.
fn start_spot<'a, 's>(
    alloc: Global,
    flat: &'a Flat<'s>,
    home: &Place<'s>,
    token: &Path<'s>,
) -> Result<Spot<'a, 's>, RefFault<'s>>
    ensures place { IfOk result (λ s. s.place ≡ whole token.now) }
    ensures at { IfOk result (IsSpot flat.entry.now) }
    ensures none { IfErr result (λ f.
        IsLost f home.now (map.get flat.entry.now token.now ≡ None)) }
{
    match whole_spot(alloc, flat, token) {
        Ok(Some(spot)) => Ok(spot),
        Ok(None) => Err(broken(alloc, RefRule::RefTarget, home)),
        Err(NoMemory) => Err(RefFault::NoMemory),
    }
}

/// The part of a place after a step of a reference. `home` is its place.
fn next_spot<'a, 's>(
    alloc: Global,
    home: &Place<'s>,
    end: &Spot<'a, 's>,
    step: &Text<'s>,
) -> Result<Spot<'a, 's>, RefFault<'s>>
    requires short { length (content_items end.now.content) < 2 ^ 64 }
    ensures place { IfOk result (λ s. s.place ≡ part end.now.place step.now) }
    ensures at { (flat : FlatTree) → IsSpot flat end.now
        → is_reference (Some (content_view end.now.content)) ≡ false
        → IfOk result (IsSpot flat) }
    ensures none { IfErr result (λ f.
        IsLost f home.now (part_under step.now (content_parts end.now.content) ≡ None)) }
{
    match end.part(alloc, step) {
        Ok(Some(next)) => Ok(next),
        Ok(None) => Err(broken(alloc, RefRule::RefTarget, home)),
        Err(NoMemory) => Err(RefFault::NoMemory),
    }
}

/// The part after a step of a place, or of that to which its references lead. `home` is the place of the step's reference.
#[cycle(passing)]
fn follow_step<'a, 's>(
    alloc: Global,
    flat: &'a Flat<'s>,
    home: &Place<'s>,
    spot: Spot<'a, 's>,
    step: &Text<'s>,
    trace: &mut Trace<'s>,
) -> Result<Spot<'a, 's>, RefFault<'s>>
    requires at { IsSpot flat.now spot }
    requires room { length trace.old.places.items ≤ most_on_branch }
    requires starts { HasStarts flat.now trace.old }
    ensures seen { HasGone flat.entry.now trace.old trace.new result
        (stepping home.now spot.entry.place (step.now ∷ [])) }
    ensures ends { HasEnded flat.entry.now trace.old result
        (stepping home.now spot.entry.place (step.now ∷ [])) }
    ensures found { IfOk result (λ e. IsSpot flat.entry.now e) }
    ensures branch { OnOk result (IsSameBranch trace.old trace.new) }
{
    match settle(alloc, flat, spot, trace) {
        Ok(end) => next_spot(alloc, home, &end, step),
        Err(fault) => Err(fault),
    }
}

/// Where steps end that lead on from a place. `home` is that of their reference.
#[cycle(passing)]
fn follow_steps<'a, 's>(
    alloc: Global,
    flat: &'a Flat<'s>,
    home: &Place<'s>,
    from: Spot<'a, 's>,
    steps: &[Text<'s>],
    trace: &mut Trace<'s>,
) -> Result<Spot<'a, 's>, RefFault<'s>>
    requires at { IsSpot flat.now from }
    requires room { length trace.old.places.items ≤ most_on_branch }
    requires starts { HasStarts flat.now trace.old }
    ensures seen { HasGone flat.entry.now trace.old trace.new result
        (stepping home.now from.entry.place steps.now) }
    ensures ends { HasEnded flat.entry.now trace.old result
        (stepping home.now from.entry.place steps.now) }
    ensures found { IfOk result (λ e. IsSpot flat.entry.now e) }
    ensures branch { OnOk result (IsSameBranch trace.old trace.new) }
{
    let mut spot = from;
    for step in steps {
        spot = match follow_step(alloc, flat, home, spot, step, trace) {
            Ok(next) => next,
            Err(fault) => return Err(fault),
        };
    }
    Ok(spot)
}

/// Where the steps of a reference end. `home` is its place.
#[cycle(passing)]
pub(crate) fn follow<'a, 's>(
    alloc: Global,
    flat: &'a Flat<'s>,
    home: &Place<'s>,
    named: &Place<'s>,
    trace: &mut Trace<'s>,
) -> Result<Spot<'a, 's>, RefFault<'s>>
    requires room { length trace.old.places.items ≤ most_on_branch }
    requires starts { HasStarts flat.now trace.old }
    ensures seen { HasGone flat.entry.now trace.old trace.new result (leading home.now named.now) }
    ensures ends { HasEnded flat.entry.now trace.old result (leading home.now named.now) }
    ensures found { IfOk result (λ e. IsSpot flat.entry.now e) }
    ensures branch { OnOk result (IsSameBranch trace.old trace.new) }
{
    let spot = match start_spot(alloc, flat, home, &named.token) {
        Ok(spot) => spot,
        Err(fault) => return Err(fault),
    };
    follow_steps(alloc, flat, home, spot, named.trail.as_slice(), trace)
}
