//! Where a walk stands.

ghost use Rattle.std.specs.Prelude.{◌≡◌, ◌<◌, ◌^◌, Some, None, false, length, option_map, IfOk};
ghost use Rattle.std.specs.Prelude.{IfSome, IfNone};
ghost use Rattle.std.specs.FinMap as map;
ghost use Rattle.alias_ref.specs.Written.{whole, part, part_under, is_reference, of_value};
ghost use Rattle.alias_ref.specs.Laws.{Flat as FlatTree};
ghost use Rattle.alias_ref.specs.inner.Contents.{content_view, content_parts, content_items};
ghost use Rattle.alias_ref.specs.inner.Contents.{IsContent};
ghost use Rattle.json_span.specs.View.{ref_view, json_view};
ghost use Rattle.alias_ref.specs.inner.Spots.{IsSpot, IsPartAt};

use crate::content::{Content, read_content};
use crate::index::item;
use group_inherit::{Entry, Flat};
use json_span::NodeRef;
use name_path::{Path, Place, Trail};
use std::alloc::Global;
use tk_io::{NoMemory, Text};

/// A place, its token, the offset where its value starts, and what is written there.
#[derive(Drop)]
pub(crate) struct Spot<'a, 's> {
    pub(crate) place: Place<'s>,
    pub(crate) token: &'a Entry<'s>,
    pub(crate) start: usize,
    pub(crate) content: Content<'a, 's>,
}

/// The whole value of a token that is at hand.
pub(crate) fn token_spot<'a, 's>(
    alloc: Global,
    path: &Path<'s>,
    entry: &'a Entry<'s>,
) -> Result<Spot<'a, 's>, NoMemory>
    ensures place { IfOk result (λ s. s.place ≡ whole path.now) }
    ensures at { (flat : FlatTree) → map.get flat path.now ≡ Some entry.entry.now
        → IfOk result (λ s. IsSpot flat s) }
{
    entry.def.keeps();
    let _ = entry.def.source.len();
    let node = entry.def.value.as_ref();
    let content = read_content(alloc, node, entry.def.by_ref)?;
    let place = Place {
        token: path.copy()?,
        trail: Trail::new(alloc),
    };
    Ok(Spot {
        place,
        token: entry,
        start: node.start(),
        content,
    })
}

/// The whole value of the token of a path; none where there is no such token.
pub(crate) fn whole_spot<'a, 's>(
    alloc: Global,
    flat: &'a Flat<'s>,
    path: &Path<'s>,
) -> Result<Option<Spot<'a, 's>>, NoMemory>
    ensures place { IfOk result (λ o. IfSome o (λ s. s.place ≡ whole path.now)) }
    ensures at { IfOk result (λ o. IfSome o (λ s. IsSpot flat.entry.now s)) }
    ensures none { IfOk result (λ o. IfNone o (map.get flat.entry.now path.now ≡ None)) }
{
    let Some(entry) = flat.get(path) else {
        return Ok(None);
    };
    let spot = token_spot(alloc, path, entry)?;
    Ok(Some(spot))
}

/// The part after a step.
fn part_node<'a, 's>(content: &Content<'a, 's>, step: &str) -> Option<NodeRef<'a, 's>>
    requires { length (content_items content.now) < 2 ^ 64 }
    ensures { option_map ref_view result ≡ part_under step.now (content_parts content.now) }
{
    match content {
        Content::Array(items) => item(*items, step),
        Content::Object(fields) => fields.get(step),
        Content::Leaf(_) | Content::Refers(_) | Content::Misspelled => None,
    }
}

/// The place one step further.
pub(crate) fn part_place<'s>(place: &Place<'s>, step: &Text<'s>) -> Result<Place<'s>, NoMemory>
    ensures { IfOk result (λ p. p ≡ part place.now step.now) }
{
    let Place { token, mut trail } = place.copy()?;
    trail.push(step.copy()?)?;
    Ok(Place { token, trail })
}

/// The part of a place after a step, which leads to this value, where this is written.
pub(crate) fn part_spot<'a, 's>(
    place: &Place<'s>,
    token: &'a Entry<'s>,
    step: &Text<'s>,
    node: NodeRef<'a, 's>,
    content: Content<'a, 's>,
) -> Result<Spot<'a, 's>, NoMemory>
    ensures place { IfOk result (λ s. s.place ≡ part place.now step.now) }
    ensures at { (flat : FlatTree)
        → IsPartAt flat place.now token.entry.now step.now (ref_view node.entry)
        → IsContent content.entry of_value (json_view node.entry)
        → IfOk result (λ s. IsSpot flat s) }
{
    let place = part_place(place, step)?;
    Ok(Spot {
        place,
        token,
        start: node.start(),
        content,
    })
}

impl<'a, 's> Spot<'a, 's> {
    /// The part after a step; none where the step leads to nothing.
    pub(crate) fn part(
        &self,
        alloc: Global,
        step: &Text<'s>,
    ) -> Result<Option<Spot<'a, 's>>, NoMemory>
        requires short { length (content_items self.now.content) < 2 ^ 64 }
        ensures place { IfOk result (λ o. IfSome o (λ s. s.place ≡ part self.now.place step.now)) }
        ensures at { (flat : FlatTree) → IsSpot flat self.now
            → is_reference (Some (content_view self.now.content)) ≡ false
            → IfOk result (λ o. IfSome o (λ s. IsSpot flat s)) }
        ensures none { IfOk result (λ o. IfNone o
            (part_under step.now (content_parts self.now.content) ≡ None)) }
    {
        let Some(node) = part_node(&self.content, step.as_str()) else {
            return Ok(None);
        };
        let content = read_content(alloc, node, false)?;
        let spot = part_spot(&self.place, self.token, step, node, content)?;
        Ok(Some(spot))
    }
}
