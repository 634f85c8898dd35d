//! The plan of files.

ghost use Rattle.std.specs.Prelude.{◌≡◌, ℕ, List, IfOk, IfErr, Option, Some, option_copied};
ghost use Rattle.std.specs.Prelude.{option_map, unwrap_or};
ghost use Rattle.json_span.specs.Tree.{Placed, start_of, end_of};
ghost use Rattle.json_span.specs.View.{node_view};
ghost use Rattle.json_span.specs.Answer.{IsJsonFault};
ghost use Rattle.permutations.specs.Answer.{IsListFault};
ghost use Rattle.resolver_doc.specs.Answer.{IsUnbroken, IsPlanFault};
ghost use Rattle.resolver_doc.specs.Document.{resolver_of};
ghost use Rattle.resolver_doc.specs.ResolverView.{resolver_view};
ghost use Rattle.file_plan.specs.Plan.{OfDocument, Plans, default_plan, order_of, planned};
ghost use Rattle.file_plan.specs.Trees.{IsRead, IsTreeOf};
ghost use Rattle.file_plan.specs.View.{IsPlanRefusal, plan_view};

use crate::keeping::kept_plan;
use crate::refusal::PlanRefusal;
use crate::source::{Plan, PlanPerm, PlanSource, PlanSources};
use crate::tree::Tree;
use json_span::{JsonFault, Node};
use permutations::{ListFault, list};
use resolver_doc::{PlanFault, Resolver, read_resolver};
use std::alloc::Global;
use tk_io::{NoMemory, Text};

// Where the order of a document stands.
fn order_span(root: &Node<'_>) -> (usize, usize)
    ensures start { result.0 ≡ unwrap_or (option_map start_of (order_of (node_view root.now))) 0 }
    ensures end { result.1 ≡ unwrap_or (option_map end_of (order_of (node_view root.now))) 0 }
{
    let Some(fields) = root.as_object() else {
        return (0, 0);
    };
    let Some(order) = fields.get("resolutionOrder") else {
        return (0, 0);
    };
    (order.start(), order.end())
}

// Why a text that is not read has no plan.
fn unread<'s>(fault: &JsonFault) -> PlanRefusal<'s>
    ensures { (text : List ℕ)
        → IsJsonFault text fault.now → IsPlanRefusal (Plans (Some text)) result }
{
    match fault {
        JsonFault::Syntax(at) => PlanRefusal::Syntax(*at),
        JsonFault::Dup(start, end) => PlanRefusal::Duplicate(*start, *end),
        JsonFault::Deep(start, end) => PlanRefusal::Depth(*start, *end),
        JsonFault::NoMemory => PlanRefusal::NoMemory,
    }
}

// Why a document that breaks a rule has no plan.
fn broken<'s>(fault: PlanFault<'s>) -> PlanRefusal<'s>
    ensures { (root : Placed)
        → IsPlanFault root fault.entry → IsPlanRefusal (OfDocument root) result }
{
    match fault {
        PlanFault::Broken {
            rule,
            start,
            end,
            ring,
        } => PlanRefusal::Broken {
            rule,
            start,
            end,
            ring,
        },
        PlanFault::NoMemory => PlanRefusal::NoMemory,
    }
}

// Why a document beyond a limit has no plan.
fn beyond<'s>(root: &Node<'s>, fault: ListFault) -> PlanRefusal<'s>
    requires { IsUnbroken (node_view root.now) }
    ensures { IsListFault (resolver_of (node_view root.now)) fault
        → IsPlanRefusal (OfDocument (node_view root.now)) result }
{
    let (start, end) = order_span(root);
    match fault {
        ListFault::TooMany(count) => PlanRefusal::TooMany { start, end, count },
        ListFault::TooManySources(count) => PlanRefusal::TooManySources { start, end, count },
        ListFault::NoMemory => PlanRefusal::NoMemory,
    }
}

// The plan of a document that was read.
fn plan_of_resolver<'s>(
    alloc: Global,
    root: &Node<'s>,
    resolver: &Resolver<'_, 's>,
) -> Result<Plan<'s>, PlanRefusal<'s>>
    requires sound { IsUnbroken (node_view root.now) }
    requires says { resolver_view resolver.now ≡ resolver_of (node_view root.now) }
    ensures plan { IfOk result
        (λ plan. OfDocument (node_view root.now) (planned (plan_view plan))) }
    ensures refused { IfErr result (IsPlanRefusal (OfDocument (node_view root.now))) }
{
    match list(alloc, resolver) {
        Ok(perms) => Ok(kept_plan(alloc, perms.as_slice())?),
        Err(fault) => Err(beyond(root, fault)),
    }
}

// The plan of a document.
fn plan_of_document<'s>(alloc: Global, root: &Node<'s>) -> Result<Plan<'s>, PlanRefusal<'s>>
    ensures plan { IfOk result
        (λ plan. OfDocument (node_view root.now) (planned (plan_view plan))) }
    ensures refused { IfErr result (IsPlanRefusal (OfDocument (node_view root.now))) }
{
    match read_resolver(alloc, root) {
        Ok(resolver) => plan_of_resolver(alloc, root, &resolver),
        Err(fault) => Err(broken(fault)),
    }
}

// The plan of a resolver document by its tree.
fn plan_of_tree<'s>(alloc: Global, tree: &Tree<'s>) -> Result<Plan<'s>, PlanRefusal<'s>>
    ensures plan { (text : List ℕ) → IsTreeOf text tree.now
        → IfOk result (λ plan. Plans (Some text) (planned (plan_view plan))) }
    ensures refused { (text : List ℕ) → IsTreeOf text tree.now
        → IfErr result (IsPlanRefusal (Plans (Some text))) }
{
    match tree {
        Tree::Read(root) => plan_of_document(alloc, root),
        Tree::Flawed(fault) => Err(unread(fault)),
    }
}

// The plan of files without a resolver document.
fn plan_by_default<'s>(alloc: Global) -> Result<Plan<'s>, NoMemory>
    ensures { IfOk result (λ plan. plan_view plan ≡ default_plan) }
{
    let mut sources = PlanSources::new(alloc);
    sources.push(PlanSource::File(Text::of("tokens.json"), 0, 0))?;
    let mut plan = Plan::new(alloc);
    plan.push(PlanPerm {
        name: Text::of("default"),
        sources,
    })?;
    Ok(plan)
}

/// The plan of files, by the tree of their resolver document where they have one: the permutations that it lists, else one
/// permutation `default` of `tokens.json`. The plan borrows from the document's text alone.
///
/// # Errors
/// The first rule that the document breaks: [`PlanRefusal::Syntax`], [`PlanRefusal::Duplicate`], [`PlanRefusal::Depth`],
/// [`PlanRefusal::Broken`], [`PlanRefusal::TooMany`], [`PlanRefusal::TooManySources`], in this order; or
/// [`PlanRefusal::NoMemory`].
pub fn plan_of<'s>(alloc: Global, resolver: Option<&Tree<'s>>) -> Result<Plan<'s>, PlanRefusal<'s>>
    // The plan by the text of which this is the tree.
    ensures plan { (text : Option (List ℕ)) → IsRead text (option_copied resolver.entry)
        → IfOk result (λ plan. Plans text (planned (plan_view plan))) }
    ensures refused { (text : Option (List ℕ)) → IsRead text (option_copied resolver.entry)
        → IfErr result (IsPlanRefusal (Plans text)) }
{
    match resolver {
        Some(tree) => plan_of_tree(alloc, tree),
        None => Ok(plan_by_default(alloc)?),
    }
}
