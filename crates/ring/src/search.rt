//! The search for the first closed route, with a stack of its own.

ghost use Rattle.std.specs.Prelude.{◌≡◌, ◌<◌, ◌↔◌, ◌^◌, ◌++◌, ◌∷◌, [], length, get_or, All, IfOk};
ghost use Rattle.std.specs.Prelude.{IsTrue};
ghost use Rattle.ring.specs.Lists.{In};
ghost use Rattle.ring.specs.Routes.{IsRing, HasNoRing};
ghost use Rattle.ring.specs.Order.{IsOrder};
ghost use Rattle.ring.specs.Graph.{needs_in, IsGraph};
ghost use Rattle.ring.specs.inner.Stack.{nodes, IsEndFrom, LooksAt};
ghost use Rattle.ring.specs.declared.search.Mark.TheVariants.{New, Open};
ghost use Rattle.ring.specs.Answer.{IfRing, IfOrder};

use std::alloc::{AllocError, Global};

/// What a search finds: either answer lists nodes by their numbers.
#[derive(Debug, Drop)]
pub enum Found {
    /// The ring of the first closed route, from the node to which the route comes back.
    Ring(Vec<usize>),
    /// There is no closed route: a topological order, each node that is reached once and after all that it needs.
    Order(Vec<usize>),
}

// How far the search has come with a node.
#[derive(Clone, Copy)]
enum Mark {
    New,
    Open,
    Done,
}

// A node on the way from the root, and the place among its needs that is looked at.
#[derive(Clone, Copy)]
struct Frame {
    node: usize,
    next: usize,
}

// The nodes of the frames from that of `node` on.
fn nodes_from(alloc: Global, frames: &[Frame], node: usize) -> Result<Vec<usize>, AllocError>
    requires { In node (nodes frames.now) }
    ensures { IfOk result (λ ring. IsEndFrom node (nodes frames.now) ring.items) }
{
    let mut ring = Vec::new(alloc);
    let mut at = 0;
    while frames[at].node != node {
        at += 1;
    }
    for i in at..frames.len() {
        ring.push(frames[i].node)?;
    }
    Ok(ring)
}

fn are_below(needs: &[usize], nodes: usize) -> bool
    ensures { IsTrue result ↔ All (λ w. w < nodes) needs.now }
{
    needs.iter().all(|need| *need < nodes)
}

/// Whether each need in the table is the number of a row.
pub fn is_graph(graph: &[Vec<usize>]) -> bool
    ensures { IsTrue result ↔ IsGraph graph.now }
{
    for row in graph {
        if !are_below(row.as_slice(), graph.len()) {
            return false;
        }
    }
    true
}

// Looks at a need of the frame that was taken off the stack: one that is done is passed over, a new one is entered, and
// an open one closes the ring that is answered.
fn look_at(
    alloc: Global,
    marks: &mut Vec<Mark>,
    stack: &mut Vec<Frame>,
    top: Frame,
    need: usize,
) -> Result<Option<Vec<usize>>, AllocError>
    requires within { need < length marks.old.items }
    requires next { top.next < 2 ^ 63 }
    requires open { get_or marks.old.items need New ≡ Open
        → In need (nodes (stack.old.items ++ top ∷ [])) }
    ensures { IfOk result (λ told. LooksAt (get_or marks.old.items need New) marks.old.items
        stack.old.items top need told marks.new.items stack.new.items) }
{
    match marks[need] {
        Mark::Done => {
            stack.push(Frame {
                node: top.node,
                next: top.next + 1,
            })?;
            Ok(None)
        }
        Mark::New => {
            stack.push(top)?;
            marks[need] = Mark::Open;
            stack.push(Frame {
                node: need,
                next: 0,
            })?;
            Ok(None)
        }
        Mark::Open => {
            stack.push(top)?;
            let ring = nodes_from(alloc, stack.as_slice(), need)?;
            Ok(Some(ring))
        }
    }
}

/// The ring of the first closed route from `root`, or, exactly where there is no closed route, an order of all nodes
/// that routes from the root come to. `graph[v]` lists what node v needs. The only error is out of memory.
pub fn ring_or_order(alloc: Global, graph: &[Vec<usize>], root: usize) -> Result<Found, AllocError>
    requires root { root < length graph.now }
    requires graph { IsGraph graph.now }
    ensures ring { IfOk result (λ f. IfRing f (IsRing (needs_in graph.now) root)) }
    ensures no_ring { IfOk result (λ f. IfOrder f (λ _. HasNoRing (needs_in graph.now) root)) }
    ensures order { IfOk result (λ f. IfOrder f (IsOrder (needs_in graph.now) root)) }
    ensures ring_within { IfOk result (λ f. IfRing f (All (λ v. v < length graph.now))) }
    ensures order_within { IfOk result (λ f. IfOrder f (All (λ v. v < length graph.now))) }
{
    let mut marks = vec![in alloc; Mark::New; graph.len()]?;
    let mut order = Vec::new(alloc);
    let mut stack = Vec::new(alloc);
    stack.push(Frame {
        node: root,
        next: 0,
    })?;
    marks[root] = Mark::Open;
    while let Some(top) = stack.pop() {
        let row = &graph[top.node];
        if top.next < row.len() {
            let need = row[top.next];
            if let Some(ring) = look_at(alloc, &mut marks, &mut stack, top, need)? {
                return Ok(Found::Ring(ring));
            }
        } else {
            order.push(top.node)?;
            marks[top.node] = Mark::Done;
        }
    }
    Ok(Found::Order(order))
}
