//! The sources that parts come to. What is still to come stands on a stack, the next on top.

ghost use Rattle.std.specs.Prelude.{◌≡◌, ◌<◌, ◌++◌, OnOk, length, reverse};
ghost use Rattle.resolver_doc.specs.View.{sources_view as written_list, sets_view};
ghost use Rattle.permutations.specs.Permutation.{sources_from};
ghost use Rattle.permutations.specs.View.{token_sources_view};
ghost use Rattle.permutations.specs.inner.Parts.{HaveRows, IsPlaced, part_view, parts_view};
ghost use Rattle.permutations.specs.inner.Parts.{rows_view};
ghost use Rattle.permutations.specs.inner.Expanding.{Tells, sources_added, parts_left};

use crate::part::{Part, Row, parts_of};
use crate::perm::{Source, Sources};
use crate::table::Table;
use resolver_doc::WrittenSource;
use std::alloc::Global;
use tk_io::NoMemory;

// Pushes parts so that the first of them is the next to be taken off.
fn push_reversed<'p, 'a, 's>(
    parts: &[Part<'p, 'a, 's>],
    stack: &mut Vec<Part<'p, 'a, 's>>,
) -> Result<(), NoMemory>
    ensures { OnOk result (parts_view stack.new.items
        ≡ parts_view stack.old.items ++ reverse (parts_view parts.now)) }
{
    for part in parts.iter().rev() {
        stack.push(*part)?;
    }
    Ok(())
}

// Takes a part apart: a source goes out, a set leaves its own parts on the stack.
fn expand<'p, 'a, 's>(
    part: Part<'p, 'a, 's>,
    rows: &[Row<'p, 'a, 's>],
    stack: &mut Vec<Part<'p, 'a, 's>>,
    out: &mut Sources<'a, 's>,
) -> Result<(), NoMemory>
    requires { IsPlaced (length rows.now) (part_view part) }
    ensures added { OnOk result (token_sources_view out.new
        ≡ token_sources_view out.old ++ sources_added (part_view part.entry)) }
    ensures left { OnOk result (parts_view stack.new.items
        ≡ parts_view stack.old.items ++ parts_left (rows_view rows.now) (part_view part.entry)) }
{
    match part {
        Part::File(name, start, end) => out.push(Source::File(name.copy()?, start, end)),
        Part::Inline(node) => out.push(Source::Inline(node)),
        Part::Set(number) => push_reversed(rows[number].parts.as_slice(), stack),
    }
}

/// Appends what the sources come to.
pub(crate) fn append_sources<'p, 'a, 's>(
    alloc: Global,
    table: &Table<'p, 'a, 's>,
    written: &'p [WrittenSource<'a, 's>],
    out: &mut Sources<'a, 's>,
) -> Result<(), NoMemory>
    requires tells { Tells table.now }
    requires known { HaveRows (length table.now.rows.items) written.now }
    ensures { OnOk result (token_sources_view out.new
        ≡ token_sources_view out.old
        ++ sources_from (sets_view table.now.sets.now) (written_list written.entry.now)) }
{
    let parts = parts_of(alloc, written, table.rows.as_slice())?;
    let mut stack = Vec::new(alloc);
    push_reversed(parts.as_slice(), &mut stack)?;
    while let Some(part) = stack.pop() {
        expand(part, table.rows.as_slice(), &mut stack, out)?;
    }
    Ok(())
}
