//! Small graphs whose rings, orders and totals are known, and a long chain.

use crate::checks::check_at;
use ring::{Found, capped_totals, is_graph, ring_or_order};
use std::alloc::{AllocError, Global};

// The graph of these rows.
fn graph_of(alloc: Global, rows: &[&[usize]]) -> Result<Vec<Vec<usize>>, AllocError> {
    let mut graph = Vec::new(alloc);
    for row in rows {
        graph.push(row.to_vec(alloc)?)?;
    }
    Ok(graph)
}

// What is found from node 0; none where memory runs out or this is no graph.
fn found_in(alloc: Global, graph: &[Vec<usize>]) -> Option<Found> {
    if !is_graph(graph) || graph.len() == 0 {
        return None;
    }
    ring_or_order(alloc, graph, 0).ok()
}

// Whether a ring of these nodes is found.
fn has_ring(alloc: Global, rows: &[&[usize]], ring: &[usize]) -> bool {
    let Ok(graph) = graph_of(alloc, rows) else {
        return false;
    };
    match found_in(alloc, graph.as_slice()) {
        Some(Found::Ring(found)) => found.as_slice() == ring,
        _ => false,
    }
}

// Whether the nodes that are reached are found in this order.
fn has_order(alloc: Global, rows: &[&[usize]], order: &[usize]) -> bool {
    let Ok(graph) = graph_of(alloc, rows) else {
        return false;
    };
    match found_in(alloc, graph.as_slice()) {
        Some(Found::Order(found)) => found.as_slice() == order,
        _ => false,
    }
}

const RINGS: &[(&[&[usize]], &[usize])] = &[
    (&[&[0]], &[0]),
    (&[&[1], &[2], &[1]], &[1, 2]),
    (&[&[1, 2], &[3], &[0], &[1]], &[1, 3]),
    (&[&[2, 1], &[3], &[0], &[1]], &[0, 2]),
    (&[&[1, 2], &[3], &[3, 0], &[]], &[0, 2]),
    (&[&[1], &[2], &[3], &[3, 0]], &[3]),
];

#[test]
fn finds_the_first_ring(rt: HostRuntime) {
    for (i, (rows, ring)) in RINGS.iter().enumerate() {
        check_at(&rt, has_ring(rt.alloc(), rows, ring), i);
    }
}

const ORDERS: &[(&[&[usize]], &[usize])] = &[
    (&[&[]], &[0]),
    (&[&[1, 2], &[3], &[3], &[]], &[3, 1, 2, 0]),
    (&[&[1], &[], &[2]], &[1, 0]),
    (&[&[1, 1], &[2, 2], &[]], &[2, 1, 0]),
];

#[test]
fn orders_what_is_reached(rt: HostRuntime) {
    for (i, (rows, order)) in ORDERS.iter().enumerate() {
        check_at(&rt, has_order(rt.alloc(), rows, order), i);
    }
}

// A chain of so many nodes, each of which needs the next one once or twice.
fn chain_of(alloc: Global, count: usize, twice: bool) -> Result<Vec<Vec<usize>>, AllocError> {
    let mut graph = Vec::new(alloc);
    for v in 1..count {
        let row = if twice {
            [v, v].to_vec(alloc)?
        } else {
            [v].to_vec(alloc)?
        };
        graph.push(row)?;
    }
    graph.push(Vec::new(alloc))?;
    Ok(graph)
}

// Totals of nodes.
const TOTALS: &[(usize, u64)] = &[
    (29, 1),
    (27, 7),
    (11, 524_287),
    (10, 1_000_000),
    (0, 1_000_000),
];

fn are_totals(totals: &[u64]) -> bool {
    for (node, total) in TOTALS {
        if totals.get(*node) != Some(total) {
            return false;
        }
    }
    true
}

// Whether these are the totals of the graph, where each node counts 1.
fn has_totals(alloc: Global, graph: &[Vec<usize>]) -> bool {
    if !is_graph(graph) || graph.len() == 0 {
        return false;
    }
    let Ok(own) = vec![in alloc; 1; graph.len()] else {
        return false;
    };
    let Ok(found) = ring_or_order(alloc, graph, 0) else {
        return false;
    };
    let Found::Order(order) = found else {
        return false;
    };
    match capped_totals(alloc, graph, order.as_slice(), own.as_slice()) {
        Ok(totals) => are_totals(totals.as_slice()),
        Err(_) => false,
    }
}

fn doublings_are_summed(alloc: Global) -> bool {
    match chain_of(alloc, 30, true) {
        Ok(graph) => has_totals(alloc, graph.as_slice()),
        Err(_) => false,
    }
}

#[test]
fn sums_a_chain_of_doublings(rt: HostRuntime) {
    assert!(rt; doublings_are_summed(rt.alloc()));
}

fn has_long_order(alloc: Global, graph: &[Vec<usize>]) -> bool {
    match found_in(alloc, graph) {
        Some(Found::Order(order)) => { order.len() == 1_000_000 && order.first() == Some(&999_999) }
        _ => false,
    }
}

fn a_long_chain_has_its_order(alloc: Global) -> bool {
    match chain_of(alloc, 1_000_000, false) {
        Ok(graph) => has_long_order(alloc, graph.as_slice()),
        Err(_) => false,
    }
}

#[test]
fn goes_down_a_chain_of_a_million(rt: HostRuntime) {
    assert!(rt; a_long_chain_has_its_order(rt.alloc()));
}
