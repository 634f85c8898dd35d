//! The sets of a document as a graph: what each names.

ghost use Rattle.std.specs.Prelude.{◌≡◌, ◌+◌, IfOk, IsTrue, length, map};
ghost use Rattle.std.specs.List.{range_with_len};
ghost use Rattle.ring.specs.Graph.{IsGraph};
ghost use Rattle.resolver_doc.specs.Rings.{ListsNeeds, sets_in, are_sets_right};
ghost use Rattle.resolver_doc.specs.View.{sources_view, sets_view};

use crate::written::{SetDef, WrittenSource};
use std::alloc::Global;
use tk_io::NoMemory;

// The numbers of the sets that sources name, in order.
fn row(alloc: Global, sources: &[WrittenSource<'_, '_>]) -> Result<Vec<usize>, NoMemory>
    ensures { IfOk result (λ row. row.items ≡ sets_in (sources_view sources.now)) }
{
    let mut row = Vec::new(alloc);
    for source in sources {
        if let WrittenSource::SetRef(_, number) = source {
            row.push(*number)?;
        }
    }
    Ok(row)
}

// The numbers below this one, in order.
fn numbers_below(alloc: Global, n: usize) -> Result<Vec<usize>, NoMemory>
    ensures { IfOk result (λ row. row.items ≡ range_with_len 0 n) }
{
    let mut row = Vec::new(alloc);
    for number in 0..n {
        row.push(number)?;
    }
    Ok(row)
}

// What each set names, by numbers.
fn rows(alloc: Global, sets: &[SetDef<'_, '_>]) -> Result<Vec<Vec<usize>>, NoMemory>
    ensures { IfOk result (λ rows. map (λ row. row.items) rows.items
        ≡ map (λ set. sets_in set.sources) (sets_view sets.now)) }
{
    let mut rows = Vec::new(alloc);
    for set in sets {
        rows.push(row(alloc, set.sources.as_slice())?)?;
    }
    Ok(rows)
}

/// What each set names, by numbers, and after the last set a row of all sets.
pub(crate) fn graph_of(alloc: Global, sets: &[SetDef<'_, '_>]) -> Result<Vec<Vec<usize>>, NoMemory>
    requires { IsTrue (are_sets_right (sets_view sets.now) (sets_view sets.now)) }
    ensures rows { IfOk result (λ graph. ListsNeeds graph.items (sets_view sets.now)) }
    ensures graph { IfOk result (λ graph. IsGraph graph.items) }
    ensures long { IfOk result (λ graph. length graph.items ≡ length sets.now + 1) }
{
    let mut graph = rows(alloc, sets)?;
    graph.push(numbers_below(alloc, sets.len())?)?;
    Ok(graph)
}
