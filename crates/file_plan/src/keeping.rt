//! Permutations that are kept without the document that they were listed of.

ghost use Rattle.std.specs.Prelude.{◌≡◌, IfOk};
ghost use Rattle.permutations.specs.View.{token_source_view, token_sources_view, perm_view};
ghost use Rattle.permutations.specs.View.{perms_view};
ghost use Rattle.file_plan.specs.View.{plan_source_view, plan_sources_view, plan_perm_view};
ghost use Rattle.file_plan.specs.View.{plan_view};

use crate::source::{Plan, PlanPerm, PlanSource, PlanSources};
use permutations::{Perm, Source};
use std::alloc::Global;
use tk_io::NoMemory;

fn kept_source<'s>(source: &Source<'_, 's>) -> Result<PlanSource<'s>, NoMemory>
    ensures { IfOk result (λ kept. plan_source_view kept ≡ token_source_view source.now) }
{
    match source {
        Source::File(name, start, end) => Ok(PlanSource::File(name.copy()?, *start, *end)),
        Source::Inline(node) => Ok(PlanSource::Inline(node.node()?)),
    }
}

fn kept_sources<'s>(alloc: Global, sources: &[Source<'_, 's>]) -> Result<PlanSources<'s>, NoMemory>
    ensures { IfOk result (λ kept. plan_sources_view kept ≡ token_sources_view sources.now) }
{
    let mut kept = PlanSources::new(alloc);
    for source in sources {
        kept.push(kept_source(source)?)?;
    }
    Ok(kept)
}

fn kept_perm<'s>(alloc: Global, perm: &Perm<'_, 's>) -> Result<PlanPerm<'s>, NoMemory>
    ensures { IfOk result (λ kept. plan_perm_view kept ≡ perm_view perm.now) }
{
    let name = perm.name.copy()?;
    let sources = kept_sources(alloc, perm.sources.as_slice())?;
    Ok(PlanPerm { name, sources })
}

/// The permutations, which borrow from the text alone.
pub(crate) fn kept_plan<'s>(alloc: Global, perms: &[Perm<'_, 's>]) -> Result<Plan<'s>, NoMemory>
    ensures { IfOk result (λ kept. plan_view kept ≡ perms_view perms.now) }
{
    let mut kept = Plan::new(alloc);
    for perm in perms {
        kept.push(kept_perm(alloc, perm)?)?;
    }
    Ok(kept)
}
