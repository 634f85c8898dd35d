//! The list of a plan's permutations.

ghost use Rattle.std.specs.Prelude.{◌≡◌, IfOk, IfErr, map};
ghost use Rattle.permutations.specs.Answer.{IsWithin, IsListFault};
ghost use Rattle.resolver_doc.specs.ResolverView.{resolver_view};
ghost use Rattle.permutations.specs.Permutation.{permutations};
ghost use Rattle.permutations.specs.View.{perm_view, perms_view};
ghost use Rattle.permutations.specs.inner.Drafts.{draft_view, drafts_view, finished};
ghost use Rattle.permutations.specs.inner.Drafts.{name_by_labels};

use crate::counting::{most_sources, permutation_count};
use crate::draft::Draft;
use crate::fault::{ListFault, MOST_PERMUTATIONS, MOST_SOURCES};
use crate::options::drafts_of;
use crate::perm::{Perm, Perms};
use crate::table::Table;
use resolver_doc::Resolver;
use std::alloc::Global;
use tk_io::{NoMemory, Text};

// The name that labels make.
fn name_by_labels<'s>(alloc: Global, labels: &str) -> Result<Text<'s>, NoMemory>
    ensures { IfOk result (λ name. name ≡ name_by_labels labels.now) }
{
    if labels.is_empty() {
        return Ok(Text::of("default"));
    }
    Ok(Text::owned(alloc, labels)?)
}

// The permutation that a draft of all items is.
fn finished<'a, 's>(alloc: Global, draft: Draft<'a, 's>) -> Result<Perm<'a, 's>, NoMemory>
    ensures { IfOk result (λ p. perm_view p ≡ finished (draft_view draft.entry)) }
{
    let name = name_by_labels(alloc, draft.labels.as_str())?;
    Ok(Perm {
        name,
        sources: draft.sources,
    })
}

// The permutations that drafts of all items are.
fn all_finished<'a, 's>(
    alloc: Global,
    drafts: Vec<Draft<'a, 's>>,
) -> Result<Perms<'a, 's>, NoMemory>
    ensures { IfOk result (λ ps. perms_view ps ≡ map finished (drafts_view drafts.entry.items)) }
{
    let mut perms = Perms::new(alloc);
    for draft in drafts {
        perms.push(finished(alloc, draft)?)?;
    }
    Ok(perms)
}

/// The permutations of a plan, in the order of their contexts' places with the last modifier fastest (Resolver Module
/// 2025.10, resolution). Each has its name, and its sources in order with references to sets replaced by the sets' sources.
/// The time is linear in the document and the answer.
///
/// # Errors
/// [`ListFault::TooMany`] exactly where there are more than 64 permutations; else [`ListFault::TooManySources`] exactly where
/// one of them has more than 1,024 sources. A number above 1,000,000 is told as 1,000,000. [`ListFault::NoMemory`].
pub fn list<'a, 's>(alloc: Global, plan: &Resolver<'a, 's>) -> Result<Perms<'a, 's>, ListFault>
    ensures perms { IfOk result
        (λ perms. perms_view perms ≡ permutations (resolver_view plan.now)) }
    ensures within { IfOk result (λ perms. IsWithin (resolver_view plan.now)) }
    ensures fault { IfErr result (IsListFault (resolver_view plan.now)) }
{
    let order = plan.order.as_slice();
    let count = permutation_count(order);
    if count > MOST_PERMUTATIONS {
        return Err(ListFault::TooMany(count));
    }
    let table = Table::new(alloc, plan)?;
    let most = most_sources(order, &table);
    if most > MOST_SOURCES {
        return Err(ListFault::TooManySources(most));
    }
    let drafts = drafts_of(alloc, order, &table)?;
    Ok(all_finished(alloc, drafts)?)
}
