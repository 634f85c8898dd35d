//! What is reached in small graphs, in a long chain, and after edges were replaced.

ghost use Rattle.std.specs.Prelude.{◌↔◌, ◌<◌, All, IsTrue};

use crate::checks::check_at;
use ref_graph::{Graph, Marks};
use std::alloc::{AllocError, Global};
use tk_io::NoMemory;

fn are_nodes(nodes: &[usize], count: usize) -> bool
    ensures { IsTrue result ↔ All (λ v. v < count) nodes.now }
{
    nodes.iter().all(|v| *v < count)
}

// Whether the edges of the node are replaced.
fn is_set(graph: &mut Graph, node: usize, to: &[usize]) -> bool {
    if node >= graph.len() || !are_nodes(to, graph.len()) {
        return false;
    }
    graph.set_edges(node, to).is_ok()
}

// What the changed nodes reach; none where memory runs out or these are no nodes.
fn reached(graph: &Graph, changed: &[usize]) -> Option<Marks> {
    if !are_nodes(changed, graph.len()) {
        return None;
    }
    graph.reach(changed).ok()
}

fn are_reached(graph: &Graph, changed: &[usize], nodes: &[usize]) -> bool {
    match reached(graph, changed) {
        Some(marks) => marks.as_slice() == nodes,
        None => false,
    }
}

// Whether the rows are put into the graph as edges of its first nodes.
fn are_set(graph: &mut Graph, rows: &[&[usize]]) -> bool {
    for (node, to) in rows.iter().enumerate() {
        if !is_set(graph, node, to) {
            return false;
        }
    }
    true
}

// Whether the changed nodes of the graph with these edges reach these nodes.
fn reach(alloc: Global, rows: &[&[usize]], changed: &[usize], nodes: &[usize]) -> bool {
    let Ok(mut graph) = Graph::new(alloc, rows.len()) else {
        return false;
    };
    are_set(&mut graph, rows) && are_reached(&graph, changed, nodes)
}

const CHAIN: &[&[usize]] = &[&[1], &[2], &[]];

const CYCLE: &[&[usize]] = &[&[1], &[2], &[0], &[0], &[]];

const SHARED: &[&[usize]] = &[&[3], &[3, 4], &[4, 4], &[], &[], &[0, 2], &[6]];

const CASES: &[(&[&[usize]], &[usize], &[usize])] = &[
    (CHAIN, &[2], &[0, 1, 2]),
    (CHAIN, &[0], &[0]),
    (CHAIN, &[], &[]),
    (CYCLE, &[1], &[0, 1, 2, 3]),
    (CYCLE, &[3], &[3]),
    (CYCLE, &[4], &[4]),
    (SHARED, &[4, 3], &[0, 1, 2, 3, 4, 5]),
    (SHARED, &[3, 3], &[0, 1, 3, 5]),
    (SHARED, &[6], &[6]),
];

#[test]
fn reaches_against_the_edges(rt: HostRuntime) {
    for (i, (rows, changed, nodes)) in CASES.iter().enumerate() {
        check_at(&rt, reach(rt.alloc(), rows, changed, nodes), i);
    }
}

// Puts in an edge from each node to the next one.
fn is_chained(graph: &mut Graph, count: usize) -> bool {
    for node in 1..count {
        if !is_set(graph, node - 1, &[node]) {
            return false;
        }
    }
    true
}

fn all_reach_the_last(alloc: Global) -> bool {
    let Ok(mut graph) = Graph::new(alloc, 100_000) else {
        return false;
    };
    if !is_chained(&mut graph, 100_000) {
        return false;
    }
    match reached(&graph, &[99_999]) {
        Some(marks) => marks.len() == 100_000,
        None => false,
    }
}

#[test]
fn goes_up_a_long_chain(rt: HostRuntime) {
    assert!(rt; all_reach_the_last(rt.alloc()));
}

// Whether an edge leads to a marked node.
fn leads_to_marked(row: &[usize], marks: &[bool]) -> bool {
    for to in row {
        if marks.get(*to) == Some(&true) {
            return true;
        }
    }
    false
}

// Marks each node with an edge to a marked one.
fn mark_once(rows: &[Vec<usize>], marks: &mut [bool]) {
    for (node, row) in rows.iter().enumerate() {
        let leads = leads_to_marked(row.as_slice(), marks);
        if let Some(mark) = marks.get_mut(node) {
            *mark = *mark || leads;
        }
    }
}

// What the node reaches, marked by going over all rows as often as there are nodes.
fn plainly_marked(
    alloc: Global,
    rows: &[Vec<usize>],
    changed: usize,
) -> Result<Vec<bool>, AllocError> {
    let mut marks = vec![in alloc; false; rows.len()]?;
    if let Some(mark) = marks.get_mut(changed) {
        *mark = true;
    }
    for _round in 0..rows.len() {
        mark_once(rows, marks.as_mut_slice());
    }
    Ok(marks)
}

// Whether the nodes are those that are marked, in order.
fn are_marked(marks: &[bool], nodes: &[usize]) -> bool {
    let mut left = nodes.iter();
    for (node, mark) in marks.iter().enumerate() {
        if *mark && left.next() != Some(&node) {
            return false;
        }
    }
    left.next().is_none()
}

// The next of some numbers below 1009.
fn after(seed: usize) -> usize {
    (seed % 1009 * 37 + 11) % 1009
}

// A row of 0 to 3 edges, by chance.
fn row_by(alloc: Global, seed: &mut usize) -> Result<Vec<usize>, AllocError> {
    let mut to = Vec::new(alloc);
    for _edge in 0..*seed % 4 {
        *seed = after(*seed);
        to.push(*seed % 12)?;
    }
    *seed = after(*seed);
    Ok(to)
}

// Twelve rows without edges.
fn no_edges(alloc: Global) -> Result<Vec<Vec<usize>>, AllocError> {
    let mut rows = Vec::new(alloc);
    for _node in 0..12 {
        rows.push(Vec::new(alloc))?;
    }
    Ok(rows)
}

// Whether the node reaches in the graph what it plainly reaches by the rows.
fn are_alike(alloc: Global, graph: &Graph, rows: &[Vec<usize>], changed: usize) -> bool {
    let Ok(marked) = plainly_marked(alloc, rows, changed) else {
        return false;
    };
    match reached(graph, &[changed]) {
        Some(marks) => are_marked(marked.as_slice(), marks.as_slice()),
        None => false,
    }
}

// Replaces the edges of a node by chance, in the graph and among the rows.
fn is_replaced(
    alloc: Global,
    graph: &mut Graph,
    rows: &mut [Vec<usize>],
    seed: &mut usize,
) -> bool {
    let Ok(to) = row_by(alloc, seed) else {
        return false;
    };
    let node = *seed % 12;
    if !is_set(graph, node, to.as_slice()) {
        return false;
    }
    if let Some(row) = rows.get_mut(node) {
        *row = to;
    }
    true
}

fn edges_are_followed(alloc: Global, graph: &mut Graph, rows: &mut [Vec<usize>]) -> bool {
    let mut seed = 7usize;
    for _turn in 0..60 {
        if !is_replaced(alloc, graph, rows, &mut seed) {
            return false;
        }
        if !are_alike(alloc, graph, rows, (seed / 12) % 12) {
            return false;
        }
    }
    true
}

fn replaced_edges_are_followed(alloc: Global) -> Result<bool, NoMemory> {
    let mut graph = Graph::new(alloc, 12)?;
    let mut rows = no_edges(alloc)?;
    Ok(edges_are_followed(alloc, &mut graph, rows.as_mut_slice()))
}

#[test]
fn follows_replaced_edges(rt: HostRuntime) {
    assert!(rt; replaced_edges_are_followed(rt.alloc()) == Ok(true));
}
