//! The elements of arrays.

ghost use Rattle.std.specs.Prelude.{◌≡◌, length};
ghost use Rattle.json_span.specs.Table.{ElementsIn, AllLieIn};
ghost use Rattle.json_span.specs.inner.Once.{elements_once};

use crate::node_ref::{NodeRef, span_at};
use crate::table::Document;
use std::rc::Rc;

/// The elements of an array that are still to come, in written order.
#[derive(Clone, Copy, Debug)]
pub struct Items<'d, 's> {
    document: &'d Rc<Document<'s>>,
    at: usize,
    stop: usize,
    pub ghost stand: { ElementsIn document.now.value at stop } by { elements_once _ _ at stop },
}

impl<'d, 's> Items<'d, 's> {
    ghost use Rattle.json_span.specs.Tree.{Elements, elements_in};
    ghost use Rattle.json_span.specs.View.{items_view};

    // The values from this place to the other.
    pub(crate) fn new(document: &'d Rc<Document<'s>>, at: usize, stop: usize) -> Items<'d, 's>
        requires { ElementsIn document.now.value at stop }
        ensures { (ns : Elements) → AllLieIn document.entry.now.value at stop ns
            → items_view result ≡ elements_in ns }
    {
        Items { document, at, stop }
    }

    /// How many there are: a walk over them.
    pub fn len(&self) -> usize
        ensures { result ≡ length (items_view self.now) }
    {
        let mut count = 0;
        for _ in *self {
            count += 1;
        }
        count
    }
}

impl<'d, 's> Iterator for Items<'d, 's> {
    ghost use Rattle.std.specs.Iterator.{YieldsFirstBy, item_count};
    ghost use Rattle.json_span.specs.View.{ref_view, items_view};

    type Item = NodeRef<'d, 's>;

    ghost next_gives = { YieldsFirstBy ref_view items_view };

    ghost remaining = { item_count items_view };

    /// The next element, and none after the last one.
    fn next(&mut self) -> Option<NodeRef<'d, 's>> {
        if self.at >= self.stop {
            return None;
        }
        let node = NodeRef::new(self.document, self.at);
        let next = span_at(self.document, self.at).next as usize;
        *self = Items::new(self.document, next, self.stop);
        Some(node)
    }
}
