//! Totals of nodes, each of its own and of what it needs.

ghost use Rattle.std.specs.Prelude.{◌≡◌, ◌+◌, ◌<◌, length, [], All, IfOk, min};
ghost use Rattle.std.specs.Prelude.{slice_index};
ghost use Rattle.std.specs.List.{sum_by};
ghost use Rattle.ring.specs.Order.{Follows};
ghost use Rattle.ring.specs.Values.{AreTotals};
ghost use Rattle.ring.specs.Graph.{needs_in, IsGraph};

use std::alloc::{AllocError, Global};

const LIMIT: u64 = 1_000_000;

// What the node has of its own and the totals in the table of what it needs, or a million where that is more.
fn total_at(own: u64, needs: &[usize], table: &[u64]) -> u64
    requires { All (λ w. w < length table.now) needs.now }
    ensures { result ≡ min (own + sum_by (λ w. slice_index table.now w) needs.now) LIMIT }
{
    let mut total = own.min(LIMIT);
    for w in needs {
        total = total.saturating_add(table[*w]).min(LIMIT);
    }
    total
}

/// The total of each node of an order: what it has of its own and the totals of all that it needs, a need that is
/// listed twice counted twice. A total above 1,000,000 is given as 1,000,000. `own[v]` is what node v has of its own,
/// and the answer has a place for each node of the graph. `order` is one that `ring_or_order` gives, or any other in
/// which each node follows what it needs. The only error is out of memory.
pub fn capped_totals(
    alloc: Global,
    graph: &[Vec<usize>],
    order: &[usize],
    own: &[u64],
) -> Result<Vec<u64>, AllocError>
    requires graph { IsGraph graph.now }
    requires within { All (λ v. v < length graph.now) order.now }
    requires order { Follows (needs_in graph.now) [] order.now }
    requires own { length own.now ≡ length graph.now }
    ensures long { IfOk result (λ table. length table.items ≡ length graph.now) }
    ensures totals { IfOk result (λ t. AreTotals (needs_in graph.now) own.now order.now t.items) }
{
    let mut table = vec![in alloc; 0; graph.len()]?;
    for v in order {
        table[*v] = total_at(own[*v], graph[*v].as_slice(), table.as_slice());
    }
    Ok(table)
}
