//! How many permutations there are, and how many sources the one with the most has. Numbers end at a million.

ghost use Rattle.std.specs.Prelude.{◌≡◌, ◌<◌, All, length, map};
ghost use Rattle.permutations.specs.Answer.{told_number};
ghost use Rattle.resolver_doc.specs.View.{sources_view, sets_view, item_view};
ghost use Rattle.resolver_doc.specs.View.{order_view};
ghost use Rattle.permutations.specs.Permutation.{choices, picks, greatest};
ghost use Rattle.permutations.specs.inner.Counting.{source_count, item_most, order_most};
ghost use Rattle.permutations.specs.inner.Expanding.{Tells};
ghost use Rattle.permutations.specs.inner.Parts.{HaveRows, ItemHasRows};

use crate::fault::LAST_NUMBER;
use crate::part::counts_of;
use crate::table::Table;
use resolver_doc::{Item, SetDef, WrittenSource};

// How many choices an item leaves: the contexts of a modifier, or the one of a set.
fn option_count(item: &Item<'_, '_>) -> u64
    ensures { result ≡ length (picks (item_view item.now)) }
{
    match item {
        Item::Set(_) => 1,
        Item::Modifier(_, contexts, _) => contexts.len() as u64,
    }
}

/// How many permutations there are: the product of the numbers of contexts.
pub(crate) fn permutation_count(order: &[Item<'_, '_>]) -> u64
    ensures { result ≡ told_number (length (choices (order_view order.now))) }
{
    let mut count: u64 = 1;
    for item in order {
        count = count.saturating_mul(option_count(item)).min(LAST_NUMBER);
    }
    count
}

// How many sources these come to.
fn source_count(written: &[WrittenSource<'_, '_>], table: &Table<'_, '_, '_>) -> u64
    requires tells { Tells table.now }
    requires known { HaveRows (length table.now.rows.items) written.now }
    ensures { result
        ≡ told_number (source_count (sets_view table.now.sets.now) (sources_view written.now)) }
{
    counts_of(written, table.rows.as_slice())
}

// The most sources that one of these contexts comes to.
fn most_in(contexts: &[SetDef<'_, '_>], table: &Table<'_, '_, '_>) -> u64
    requires tells { Tells table.now }
    requires known { All (λ c. HaveRows (length table.now.rows.items) c.sources) contexts.now }
    ensures { result ≡ told_number (greatest
        (map (λ c. source_count (sets_view table.now.sets.now) c.sources)
        (sets_view contexts.now))) }
{
    let mut most = 0;
    for context in contexts {
        most = source_count(context.sources.as_slice(), table).max(most);
    }
    most
}

// The most sources that a choice of the item comes to.
fn item_most(item: &Item<'_, '_>, table: &Table<'_, '_, '_>) -> u64
    requires tells { Tells table.now }
    requires known { ItemHasRows (length table.now.rows.items) item.now }
    ensures { result ≡ told_number (item_most (sets_view table.now.sets.now) (item_view item.now)) }
{
    match item {
        Item::Set(written) => source_count(written.as_slice(), table),
        Item::Modifier(_, contexts, _) => most_in(contexts.as_slice(), table),
    }
}

/// The greatest number of sources of a permutation: of each item the most that one of its options comes to.
pub(crate) fn most_sources(order: &[Item<'_, '_>], table: &Table<'_, '_, '_>) -> u64
    requires tells { Tells table.now }
    requires known { All (ItemHasRows (length table.now.rows.items)) order.now }
    ensures { result
        ≡ told_number (order_most (sets_view table.now.sets.now) (order_view order.now)) }
{
    let mut most: u64 = 0;
    for item in order {
        most = most.saturating_add(item_most(item, table)).min(LAST_NUMBER);
    }
    most
}
