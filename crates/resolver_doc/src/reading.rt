//! Resolver documents as a whole: what one says, or the first rule that it breaks.

ghost use Rattle.std.specs.Prelude.{◌≡◌, [], IfOk, IfErr, OnOk};
ghost use Rattle.json_span.specs.View.{node_view, ref_view};
ghost use Rattle.resolver_doc.specs.Answer.{IsUnbroken, IsPlanFault};
ghost use Rattle.resolver_doc.specs.Break.{first_of};
ghost use Rattle.resolver_doc.specs.Document.{resolver_of, set_entries};
ghost use Rattle.resolver_doc.specs.Naming.{naming_breaks};
ghost use Rattle.resolver_doc.specs.ResolverView.{resolver_view};
ghost use Rattle.resolver_doc.specs.View.{sets_view, order_view};
ghost use Rattle.resolver_doc.specs.inner.Faults.{break_fault};
ghost use Rattle.resolver_doc.specs.inner.Known.{known_sets};

use crate::document::form_break;
use crate::fault::PlanFault;
use crate::items::{check_modifiers, order, sets};
use crate::known::Known;
use crate::repeats::repeats;
use crate::resolver::Resolver;
use crate::rings::check_rings;
use crate::rule::Break;
use crate::written::{Order, Sets};
use json_span::{Node, NodeRef};
use name_path::Trail;
use std::alloc::Global;
use tk_io::NoMemory;

// What a document says, what is known of its sets and modifiers, and the first break of its references and names.
#[derive(Drop)]
struct Said<'a, 's> {
    known: Known<'a, 's>,
    sets: Sets<'a, 's>,
    order: Order<'a, 's>,
    first: Option<Break>,
}

// The refusal of a break that has no ring.
fn broken<'s>(alloc: Global, found: Break) -> PlanFault<'s>
    ensures { result ≡ break_fault found [] }
{
    PlanFault::Broken {
        rule: found.rule,
        start: found.start,
        end: found.end,
        ring: Trail::new(alloc),
    }
}

// What the document says, and its first break of references and names. Its form need not be met.
fn read_said<'a, 's>(alloc: Global, root: NodeRef<'a, 's>) -> Result<Said<'a, 's>, NoMemory>
    ensures known { IfOk result
        (λ said. known_sets said.known ≡ set_entries (ref_view root.entry)) }
    ensures sets { IfOk result
        (λ said. sets_view said.sets ≡ (resolver_of (ref_view root.entry)).sets) }
    ensures order { IfOk result
        (λ said. order_view said.order ≡ (resolver_of (ref_view root.entry)).order) }
    ensures first { IfOk result
        (λ said. said.first ≡ first_of (naming_breaks (ref_view root.entry))) }
{
    let known = Known::new(alloc, root)?;
    let mut first = None;
    let sets = sets(alloc, &known, &mut first)?;
    check_modifiers(alloc, &known, &mut first)?;
    let order = order(alloc, &known, root, &mut first)?;
    repeats(alloc, &known, root, &mut first)?;
    Ok(Said {
        known,
        sets,
        order,
        first,
    })
}

/// What a resolver document says (Design Tokens Resolver Module 2025.10, in this project's profile): its sets and the items
/// of its order, in document order. `root` is the document's value; spans are byte offsets of its text.
///
/// # Errors
///
/// [`PlanFault::Broken`] exactly where a rule is broken, with the first break of the first phase that has one: first the
/// forms of the document, then its references and the names of its items, and then rings of sets. Of the breaks of a phase
/// the first is the one whose span starts first, and of equal starts that of the lower rule's number.
pub fn read_resolver<'a, 's>(
    alloc: Global,
    root: &'a Node<'s>,
) -> Result<Resolver<'a, 's>, PlanFault<'s>>
    ensures sound { OnOk result (IsUnbroken (node_view root.entry.now)) }
    ensures ok { IfOk result (λ r. resolver_view r ≡ resolver_of (node_view root.entry.now)) }
    ensures broken { IfErr result (IsPlanFault (node_view root.entry.now)) }
{
    let root = root.as_ref();
    let form = form_break(alloc, root)?;
    let said = read_said(alloc, root)?;
    // (a break of the form comes before all of references and names, wherever it stands)
    if let Some(found) = form.or(said.first) {
        return Err(broken(alloc, found));
    }
    check_rings(alloc, &said.known, said.sets.as_slice())?;
    Ok(Resolver {
        sets: said.sets,
        order: said.order,
    })
}
