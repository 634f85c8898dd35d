//! What a resolver document says as a whole.

ghost use Rattle.std.specs.Prelude.{IsTrue};
ghost use Rattle.resolver_doc.specs.Document.{have_choices};
ghost use Rattle.resolver_doc.specs.Rings.{HasNoRingOfSets, are_sets_right, are_items_right};
ghost use Rattle.resolver_doc.specs.View.{sets_view, order_view};

use crate::graph::graph_of;
use crate::written::{Item, Order, Sets};
use std::alloc::Global;
use tk_io::{NoMemory, Text};

/// What a resolver document without a broken rule says. Each reference to a set names one of the sets, and no sets name
/// each other in a ring.
#[derive(Drop)]
pub struct Resolver<'a, 's> {
    /// The sets, in document order.
    pub sets: Sets<'a, 's>,
    /// The items of `resolutionOrder`.
    pub order: Order<'a, 's>,
    pub ghost sets_right: { IsTrue (are_sets_right (sets_view sets) (sets_view sets)) },
    pub ghost order_right: { IsTrue (are_items_right (sets_view sets) (order_view order)) },
    pub ghost choices: { IsTrue (have_choices (order_view order)) },
    pub ghost no_ring: { HasNoRingOfSets (sets_view sets) },
}

impl<'a, 's> Resolver<'a, 's> {
    ghost use Rattle.std.specs.Prelude.{◌≡◌, ◌+◌, IfOk, length, option_map};
    ghost use Rattle.ring.specs.Graph.{IsGraph};
    ghost use Rattle.resolver_doc.specs.Default.{default_at};
    ghost use Rattle.resolver_doc.specs.Rings.{ListsNeeds};
    ghost use Rattle.resolver_doc.specs.View.{order_view};

    /// What each set names, as a table for a search of rings and orders: row v lists the numbers of the sets that set v
    /// names, in order, and the row after the last set lists all sets.
    pub fn set_graph(&self, alloc: Global) -> Result<Vec<Vec<usize>>, NoMemory>
        ensures rows { IfOk result (λ graph. ListsNeeds graph.items (sets_view self.now.sets)) }
        ensures graph { IfOk result (λ graph. IsGraph graph.items) }
        ensures long { IfOk result (λ graph. length graph.items ≡ length self.now.sets + 1) }
    {
        graph_of(alloc, self.sets.as_slice())
    }

    /// The default of the i-th item of the order, counted from 0. None exactly where that item is no modifier with a
    /// default, or i is past the end. It takes no memory.
    pub fn default_of(&self, i: usize) -> Option<&Text<'s>>
        ensures { option_map (λ t. t.now) result ≡ default_at (order_view self.now.order) i }
    {
        match self.order.at(i) {
            Some(Item::Modifier(_, _, Some(default))) => Some(default),
            Some(Item::Modifier(_, _, None)) => None,
            Some(Item::Set(_)) => None,
            None => None,
        }
    }
}
