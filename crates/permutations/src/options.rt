//! What the items of an order add to permutations.

ghost use Rattle.std.specs.Prelude.{◌≡◌, ◌∷◌, [], IfOk, All, length, map};
ghost use Rattle.std.specs.String.{string_bytes};
ghost use Rattle.resolver_doc.specs.View.{sets_view, set_view, item_view, order_view};
ghost use Rattle.resolver_doc.specs.View.{sources_view as written_list};
ghost use Rattle.permutations.specs.Name.{label};
ghost use Rattle.permutations.specs.Permutation.{context_pick, sources_from};
ghost use Rattle.permutations.specs.View.{token_sources_view};
ghost use Rattle.permutations.specs.inner.Drafts.{draft_view, drafts_view, pick_draft, options};
ghost use Rattle.permutations.specs.inner.Drafts.{drafts_of};
ghost use Rattle.permutations.specs.inner.Expanding.{Tells};
ghost use Rattle.permutations.specs.inner.Parts.{HaveRows, ItemHasRows};

use crate::draft::{Draft, extended, push_empty};
use crate::expanding::append_sources;
use crate::name::append_escaped;
use crate::perm::Sources;
use crate::table::Table;
use resolver_doc::{Item, SetDef, WrittenSource};
use std::alloc::Global;
use tk_io::NoMemory;

// The sources that a list of the document comes to.
fn sources_from<'p, 'a, 's>(
    alloc: Global,
    written: &'p [WrittenSource<'a, 's>],
    table: &Table<'p, 'a, 's>,
) -> Result<Sources<'a, 's>, NoMemory>
    requires tells { Tells table.now }
    requires known { HaveRows (length table.now.rows.items) written.now }
    ensures { IfOk result (λ s. token_sources_view s
        ≡ sources_from (sets_view table.now.sets.now) (written_list written.entry.now)) }
{
    let mut sources = Sources::new(alloc);
    append_sources(alloc, table, written, &mut sources)?;
    Ok(sources)
}

// A modifier and one of its contexts, as the name of a permutation has them.
fn label_of(alloc: Global, modifier: &str, context: &str) -> Result<String, NoMemory>
    ensures { IfOk result (λ text. string_bytes text
        ≡ label (record { modifier = modifier.now; context = context.now })) }
{
    let mut text = String::new(alloc);
    append_escaped(modifier, &mut text)?;
    text.push('=')?;
    append_escaped(context, &mut text)?;
    Ok(text)
}

// The choice of a context: its label, and what its sources come to.
fn context_option<'p, 'a, 's>(
    alloc: Global,
    modifier: &str,
    context: &'p SetDef<'a, 's>,
    table: &Table<'p, 'a, 's>,
) -> Result<Draft<'a, 's>, NoMemory>
    requires tells { Tells table.now }
    requires known { HaveRows (length table.now.rows.items) context.now.sources }
    ensures { IfOk result (λ d. draft_view d
        ≡ pick_draft (sets_view table.now.sets.now)
        (context_pick modifier.now (set_view context.entry.now))) }
{
    let labels = label_of(alloc, modifier, context.name.as_str())?;
    let sources = sources_from(alloc, context.sources.as_slice(), table)?;
    Ok(Draft { labels, sources })
}

// The choices of a modifier, one for each context.
fn context_options<'p, 'a, 's>(
    alloc: Global,
    modifier: &str,
    contexts: &'p [SetDef<'a, 's>],
    table: &Table<'p, 'a, 's>,
) -> Result<Vec<Draft<'a, 's>>, NoMemory>
    requires tells { Tells table.now }
    requires known { All (λ c. HaveRows (length table.now.rows.items) c.sources) contexts.now }
    ensures { IfOk result (λ ds. drafts_view ds.items
        ≡ map (pick_draft (sets_view table.now.sets.now))
        (map (context_pick modifier.now) (sets_view contexts.entry.now))) }
{
    let mut options = Vec::new(alloc);
    for context in contexts {
        options.push(context_option(alloc, modifier, context, table)?)?;
    }
    Ok(options)
}

// The one choice of a set, which has no label.
fn set_options<'p, 'a, 's>(
    alloc: Global,
    written: &'p [WrittenSource<'a, 's>],
    table: &Table<'p, 'a, 's>,
) -> Result<Vec<Draft<'a, 's>>, NoMemory>
    requires tells { Tells table.now }
    requires known { HaveRows (length table.now.rows.items) written.now }
    ensures { IfOk result (λ ds. drafts_view ds.items
        ≡ pick_draft (sets_view table.now.sets.now)
        (record { chosen = []; sources = written_list written.entry.now }) ∷ []) }
{
    let sources = sources_from(alloc, written, table)?;
    let mut options = Vec::new(alloc);
    options.push(Draft {
        labels: String::new(alloc),
        sources,
    })?;
    Ok(options)
}

// The choices that an item leaves, as drafts.
fn options_of<'p, 'a, 's>(
    alloc: Global,
    item: &'p Item<'a, 's>,
    table: &Table<'p, 'a, 's>,
) -> Result<Vec<Draft<'a, 's>>, NoMemory>
    requires tells { Tells table.now }
    requires known { ItemHasRows (length table.now.rows.items) item.now }
    ensures { IfOk result (λ ds. drafts_view ds.items
        ≡ options (sets_view table.now.sets.now) (item_view item.entry.now)) }
{
    match item {
        Item::Set(written) => set_options(alloc, written.as_slice(), table),
        Item::Modifier(name, contexts, _) => {
            context_options(alloc, name.as_str(), contexts.as_slice(), table)
        }
    }
}

/// The permutations of an order, as drafts.
pub(crate) fn drafts_of<'p, 'a, 's>(
    alloc: Global,
    order: &'p [Item<'a, 's>],
    table: &Table<'p, 'a, 's>,
) -> Result<Vec<Draft<'a, 's>>, NoMemory>
    requires tells { Tells table.now }
    requires known { All (ItemHasRows (length table.now.rows.items)) order.now }
    ensures { IfOk result (λ ds. drafts_view ds.items
        ≡ drafts_of (sets_view table.now.sets.now) (order_view order.entry.now)) }
{
    let mut drafts = Vec::new(alloc);
    push_empty(alloc, &mut drafts)?;
    for item in order {
        let options = options_of(alloc, item, table)?;
        drafts = extended(alloc, drafts, options.as_slice())?;
    }
    Ok(drafts)
}
