//! Rings of sets that name each other.

ghost use Rattle.std.specs.Prelude.{◌≡◌, Some, IfOk, IfErr, OnOk, IsTrue, codes, map, option_map};
ghost use Rattle.json_span.specs.Tree.{Placed, value_of_name};
ghost use Rattle.json_span.specs.View.{ref_view};
ghost use Rattle.resolver_doc.specs.Document.{name_in, member_entries, set_of, elements_at};
ghost use Rattle.resolver_doc.specs.Document.{source_of};
ghost use Rattle.resolver_doc.specs.Rings.{HasNoRingOfSets, are_sets_right, is_set, ring_string};
ghost use Rattle.resolver_doc.specs.Rings.{naming_string};
ghost use Rattle.resolver_doc.specs.View.{sets_view, source_view};
ghost use Rattle.resolver_doc.specs.inner.Faults.{IsSetRingFault, IsSetRingAt};
ghost use Rattle.resolver_doc.specs.inner.Known.{known_sets};

use crate::fault::PlanFault;
use crate::graph::graph_of;
use crate::known::Known;
use crate::members::member;
use crate::rule::PlanRule;
use crate::sources::source;
use crate::written::{SetDef, WrittenSource};
use json_span::NodeRef;
use name_path::Trail;
use ring::{Found, ring_or_order};
use std::alloc::Global;
use tk_io::NoMemory;

// Whether the source is the set of the number.
fn is_set(source: &WrittenSource<'_, '_>, number: usize) -> bool
    ensures { result ≡ is_set number (source_view source.now) }
{
    match source {
        WrittenSource::File(_, _, _) => false,
        WrittenSource::SetRef(_, other) => *other == number,
        WrittenSource::Inline(_) => false,
    }
}

// Whether the item of a list of sources names the set of the number.
fn names_set<'a, 's>(
    alloc: Global,
    known: &Known<'a, 's>,
    item: NodeRef<'a, 's>,
    number: usize,
) -> Result<bool, NoMemory>
    ensures { IfOk result (λ names. names
        ≡ is_set number (source_of (known_sets known.now) (ref_view item.entry))) }
{
    let mut seen_before = None;
    let written = source(alloc, known, item, &mut seen_before)?;
    Ok(is_set(&written, number))
}

// The string by which the sources of a set first name the set of the number.
fn naming_string<'a, 's>(
    alloc: Global,
    known: &Known<'a, 's>,
    sources: NodeRef<'a, 's>,
    number: usize,
) -> Result<Option<NodeRef<'a, 's>>, NoMemory>
    ensures { IfOk result (λ string. option_map ref_view string
        ≡ naming_string (known_sets known.now) number (elements_at (ref_view sources.entry))) }
{
    let Some(items) = sources.as_array() else {
        return Ok(None);
    };
    for item in items {
        if names_set(alloc, known, item, number)? {
            return Ok(member(item, "$ref"));
        }
    }
    Ok(None)
}

// The sources of the set of the number.
fn sources_of_set<'a, 's>(known: &Known<'a, 's>, number: usize) -> Option<NodeRef<'a, 's>>
    ensures { option_map ref_view result
        ≡ value_of_name (codes "sources") (member_entries (known_sets known.now) number) }
{
    match known.sets.get(number) {
        Some(field) => member(field.value(), "sources"),
        None => None,
    }
}

// The string by which the ring's last set first names its first one.
fn ring_string<'a, 's>(
    alloc: Global,
    known: &Known<'a, 's>,
    ring: &[usize],
) -> Result<Option<NodeRef<'a, 's>>, NoMemory>
    ensures { IfOk result
        (λ string. option_map ref_view string ≡ ring_string (known_sets known.now) ring.now) }
{
    let (Some(first), Some(last)) = (ring.first(), ring.last()) else {
        return Ok(None);
    };
    match sources_of_set(known, *last) {
        Some(sources) => naming_string(alloc, known, sources, *first),
        None => Ok(None),
    }
}

// The names of the sets of a ring of numbers.
fn ring_names<'s>(
    alloc: Global,
    known: &Known<'_, 's>,
    ring: &[usize],
) -> Result<Trail<'s>, NoMemory>
    ensures { IfOk result (λ names. names ≡ map (name_in (known_sets known.now)) ring.now) }
{
    let mut names = Trail::new(alloc);
    for number in ring {
        names.push(known.set_name(alloc, *number)?)?;
    }
    Ok(names)
}

// The ring by its names, and the string that closes it.
fn ring_fault<'s>(
    alloc: Global,
    known: &Known<'_, 's>,
    ring: &[usize],
) -> Result<PlanFault<'s>, NoMemory>
    requires { (string : Placed) × (ring_string (known_sets known.now) ring.now ≡ Some string) }
    ensures { IfOk result (IsSetRingAt (known_sets known.now) ring.now) }
{
    let Some(string) = ring_string(alloc, known, ring)? else {
        unreachable!()
    };
    Ok(PlanFault::Broken {
        rule: PlanRule::Cycle,
        start: string.start(),
        end: string.end(),
        ring: ring_names(alloc, known, ring)?,
    })
}

/// Refuses sets that name each other in a ring.
pub(crate) fn check_rings<'s>(
    alloc: Global,
    known: &Known<'_, 's>,
    sets: &[SetDef<'_, 's>],
) -> Result<(), PlanFault<'s>>
    requires known { sets_view sets.now
        ≡ map (set_of (known_sets known.now)) (known_sets known.now) }
    requires right { IsTrue (are_sets_right (sets_view sets.now) (sets_view sets.now)) }
    ensures ok { OnOk result (HasNoRingOfSets (sets_view sets.now)) }
    ensures ring { IfErr result (IsSetRingFault (known_sets known.now) (sets_view sets.now)) }
{
    let graph = graph_of(alloc, sets)?;
    match ring_or_order(alloc, graph.as_slice(), sets.len())? {
        Found::Order(_) => Ok(()),
        Found::Ring(ring) => Err(ring_fault(alloc, known, ring.as_slice())?),
    }
}
