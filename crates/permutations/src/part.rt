//! What sets come to, without references that lead to nothing or to one source alone.

ghost use Rattle.std.specs.Prelude.{◌≡◌, ◌<◌, IfOk, length, option_map, option_to_list};
ghost use Rattle.resolver_doc.specs.View.{source_view, sources_view};
ghost use Rattle.permutations.specs.inner.Parts.{HasRow, HaveRows, part_view, parts_view, row_view};
ghost use Rattle.permutations.specs.inner.Parts.{rows_view, set_parts, part_in, parts_in, count_in};
ghost use Rattle.permutations.specs.inner.Parts.{counts_in, row_in};

use crate::fault::LAST_NUMBER;
use json_span::NodeRef;
use resolver_doc::WrittenSource;
use std::alloc::Global;
use tk_io::{NoMemory, Text};

/// A part of what sources come to: a source itself, or a set of two parts or more by its number.
#[derive(Clone, Copy)]
pub(crate) enum Part<'p, 'a, 's> {
    File(&'p Text<'s>, usize, usize),
    Inline(NodeRef<'a, 's>),
    Set(usize),
}

/// What a set comes to: its parts, none of which is empty, and the number of its sources, at most a million.
#[derive(Drop)]
pub(crate) struct Row<'p, 'a, 's> {
    pub(crate) parts: Vec<Part<'p, 'a, 's>>,
    pub(crate) count: u64,
}

// The part that a set comes to: none where it has no parts, its one part, or the set with its number.
fn set_part<'p, 'a, 's>(number: usize, parts: &[Part<'p, 'a, 's>]) -> Option<Part<'p, 'a, 's>>
    ensures { option_to_list (option_map part_view result)
        ≡ set_parts number (parts_view parts.now) }
{
    match parts.len() {
        0 => None,
        1 => Some(parts[0]),
        _ => Some(Part::Set(number)),
    }
}

// The part that a source comes to, or none for a set that comes to no source.
fn part_of<'p, 'a, 's>(
    source: &'p WrittenSource<'a, 's>,
    rows: &[Row<'p, 'a, 's>],
) -> Option<Part<'p, 'a, 's>>
    requires { HasRow (length rows.now) (source_view source.now) }
    ensures { option_to_list (option_map part_view result)
        ≡ part_in (rows_view rows.now) (source_view source.entry.now) }
{
    match source {
        WrittenSource::File(name, start, end) => Some(Part::File(name, *start, *end)),
        WrittenSource::SetRef(_, number) => set_part(*number, rows[*number].parts.as_slice()),
        WrittenSource::Inline(node) => Some(Part::Inline(*node)),
    }
}

/// The parts of sources whose sets have rows.
pub(crate) fn parts_of<'p, 'a, 's>(
    alloc: Global,
    sources: &'p [WrittenSource<'a, 's>],
    rows: &[Row<'p, 'a, 's>],
) -> Result<Vec<Part<'p, 'a, 's>>, NoMemory>
    requires { HaveRows (length rows.now) sources.now }
    ensures { IfOk result (λ parts. parts_view parts.items
        ≡ parts_in (rows_view rows.now) (sources_view sources.entry.now)) }
{
    let mut parts = Vec::new(alloc);
    for source in sources {
        if let Some(part) = part_of(source, rows) {
            parts.push(part)?;
        }
    }
    Ok(parts)
}

// How many sources a source comes to, by the rows of sets.
fn count_of(source: &WrittenSource<'_, '_>, rows: &[Row<'_, '_, '_>]) -> u64
    requires { HasRow (length rows.now) (source_view source.now) }
    ensures { result ≡ count_in (rows_view rows.now) (source_view source.now) }
{
    match source {
        WrittenSource::File(_, _, _) => 1,
        WrittenSource::SetRef(_, number) => rows[*number].count,
        WrittenSource::Inline(_) => 1,
    }
}

/// How many sources these come to, at most a million.
pub(crate) fn counts_of(sources: &[WrittenSource<'_, '_>], rows: &[Row<'_, '_, '_>]) -> u64
    requires { HaveRows (length rows.now) sources.now }
    ensures { result ≡ counts_in (rows_view rows.now) (sources_view sources.now) }
{
    let mut count: u64 = 0;
    for source in sources {
        count = count
            .saturating_add(count_of(source, rows))
            .min(LAST_NUMBER);
    }
    count
}

/// What comes to these sources.
pub(crate) fn row_of<'p, 'a, 's>(
    alloc: Global,
    sources: &'p [WrittenSource<'a, 's>],
    rows: &[Row<'p, 'a, 's>],
) -> Result<Row<'p, 'a, 's>, NoMemory>
    requires { HaveRows (length rows.now) sources.now }
    ensures { IfOk result
        (λ row. row_view row ≡ row_in (rows_view rows.now) (sources_view sources.entry.now)) }
{
    Ok(Row {
        parts: parts_of(alloc, sources, rows)?,
        count: counts_of(sources, rows),
    })
}
