//! Permutations that are put together item by item.

ghost use Rattle.std.specs.Prelude.{◌≡◌, ◌++◌, ◌∷◌, [], IfOk, OnOk, map};
ghost use Rattle.std.specs.String.{string_bytes};
ghost use Rattle.permutations.specs.View.{token_source_view, token_sources_view};
ghost use Rattle.permutations.specs.inner.Drafts.{draft_view, drafts_view, joined_labels};
ghost use Rattle.permutations.specs.inner.Drafts.{with_more, with_each, no_draft};

use crate::perm::{Source, Sources};
use std::alloc::Global;
use tk_io::NoMemory;

/// What items add to a permutation: labels joined by `+`, and sources.
#[derive(Drop)]
pub(crate) struct Draft<'a, 's> {
    pub(crate) labels: String,
    pub(crate) sources: Sources<'a, 's>,
}

// What no items add.
fn empty_draft<'a, 's>(alloc: Global) -> Draft<'a, 's>
    ensures { draft_view result ≡ no_draft }
{
    Draft {
        labels: String::new(alloc),
        sources: Sources::new(alloc),
    }
}

/// Adds what no items add to the drafts.
pub(crate) fn push_empty(alloc: Global, drafts: &mut Vec<Draft<'_, '_>>) -> Result<(), NoMemory>
    ensures { OnOk result
        (drafts_view drafts.new.items ≡ drafts_view drafts.old.items ++ no_draft ∷ []) }
{
    drafts.push(empty_draft(alloc))?;
    Ok(())
}

// Appends labels, with a `+` between them and those that stand there.
fn append_labels(more: &str, labels: &mut String) -> Result<(), NoMemory>
    ensures { OnOk result
        (string_bytes labels.new ≡ joined_labels (string_bytes labels.old) more.now) }
{
    if more.is_empty() {
        return Ok(());
    }
    if labels.is_empty() {
        labels.push_str(more)?;
        return Ok(());
    }
    labels.push('+')?;
    labels.push_str(more)?;
    Ok(())
}

// A copy of a source; of a file its name is copied.
fn copy_of<'a, 's>(source: &Source<'a, 's>) -> Result<Source<'a, 's>, NoMemory>
    ensures { IfOk result (λ copy. token_source_view copy ≡ token_source_view source.now) }
{
    match source {
        Source::File(name, start, end) => Ok(Source::File(name.copy()?, *start, *end)),
        Source::Inline(node) => Ok(Source::Inline(*node)),
    }
}

fn append_copies<'a, 's>(
    more: &[Source<'a, 's>],
    sources: &mut Sources<'a, 's>,
) -> Result<(), NoMemory>
    ensures { OnOk result (token_sources_view sources.new
        ≡ token_sources_view sources.old ++ token_sources_view more.now) }
{
    for source in more {
        sources.push(copy_of(source)?)?;
    }
    Ok(())
}

// Adds the labels and the sources of one draft to another.
fn add<'a, 's>(more: &Draft<'a, 's>, draft: &mut Draft<'a, 's>) -> Result<(), NoMemory>
    ensures { OnOk result
        (draft_view draft.new ≡ with_more (draft_view draft.old) (draft_view more.now)) }
{
    append_labels(more.labels.as_str(), &mut draft.labels)?;
    append_copies(more.sources.as_slice(), &mut draft.sources)?;
    Ok(())
}

// A draft with the labels and the sources of both, in this order.
fn both<'a, 's>(
    alloc: Global,
    draft: &Draft<'a, 's>,
    more: &Draft<'a, 's>,
) -> Result<Draft<'a, 's>, NoMemory>
    ensures { IfOk result
        (λ d. draft_view d ≡ with_more (draft_view draft.now) (draft_view more.now)) }
{
    let mut new = empty_draft(alloc);
    add(draft, &mut new)?;
    add(more, &mut new)?;
    Ok(new)
}

// Appends the draft with each of the options added to it.
fn append_each<'a, 's>(
    alloc: Global,
    draft: &Draft<'a, 's>,
    options: &[Draft<'a, 's>],
    out: &mut Vec<Draft<'a, 's>>,
) -> Result<(), NoMemory>
    ensures { OnOk result (drafts_view out.new.items
        ≡ drafts_view out.old.items
        ++ map (with_more (draft_view draft.now)) (drafts_view options.now)) }
{
    for option in options {
        out.push(both(alloc, draft, option)?)?;
    }
    Ok(())
}

// Each draft with each of the options added to it, draft by draft.
fn each_with_each<'a, 's>(
    alloc: Global,
    drafts: &[Draft<'a, 's>],
    options: &[Draft<'a, 's>],
) -> Result<Vec<Draft<'a, 's>>, NoMemory>
    ensures { IfOk result (λ new. drafts_view new.items
        ≡ with_each (drafts_view drafts.now) (drafts_view options.now)) }
{
    let mut new = Vec::new(alloc);
    for draft in drafts {
        append_each(alloc, draft, options, &mut new)?;
    }
    Ok(new)
}

// Adds one option to all drafts.
fn add_to_each<'a, 's>(more: &Draft<'a, 's>, drafts: &mut [Draft<'a, 's>]) -> Result<(), NoMemory>
    ensures { OnOk result (drafts_view drafts.new
        ≡ map (λ d. with_more d (draft_view more.now)) (drafts_view drafts.old)) }
{
    for draft in drafts.iter_mut() {
        add(more, draft)?;
    }
    Ok(())
}

/// Each draft with each option, the options fastest. A single option is added in place.
pub(crate) fn extended<'a, 's>(
    alloc: Global,
    mut drafts: Vec<Draft<'a, 's>>,
    options: &[Draft<'a, 's>],
) -> Result<Vec<Draft<'a, 's>>, NoMemory>
    ensures { IfOk result (λ new. drafts_view new.items
        ≡ with_each (drafts_view drafts.entry.items) (drafts_view options.now)) }
{
    if options.len() == 1 {
        add_to_each(&options[0], drafts.as_mut_slice())?;
        return Ok(drafts);
    }
    each_with_each(alloc, drafts.as_slice(), options)
}
