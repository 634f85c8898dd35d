//! The contexts of all permutations of a plan, the usual ones, and the others.

ghost use Rattle.std.specs.Prelude.{◌≡◌, [], ◌∷◌, ◌++◌, IfOk, OnOk, drop, map};
ghost use Rattle.permutations.specs.Name.{Choice as ChoiceData};
ghost use Rattle.permutations.specs.Permutation.{picks};
ghost use Rattle.resolver_doc.specs.View.{item_view, order_view, set_view, sets_view};
ghost use Rattle.theme_css.specs.Themes.{odd, pages, usual, usual_in};
ghost use Rattle.theme_css.specs.inner.Pages.{row_view, rows_view, with_each};
ghost use Rattle.theme_css.specs.inner.Choices.{choice_of, is_usual, odd_at, options, usual_by};
ghost use Rattle.theme_css.specs.inner.Views.{choice_view, choices_view};

use crate::choice::Choice;
use resolver_doc::{Item, SetDef};
use std::alloc::Global;
use tk_io::{NoMemory, Text};

/// The contexts of a permutation, modifier by modifier.
#[derive(Drop)]
pub(crate) struct Row<'p> {
    pub(crate) choices: Vec<Choice<'p>>,
}

// A row with one choice more.
fn longer<'p>(alloc: Global, row: &Row<'p>, choice: Choice<'p>) -> Result<Row<'p>, NoMemory>
    ensures { IfOk result (λ longer.
        row_view longer ≡ row_view row.now ++ choice_view choice.entry ∷ []) }
{
    let mut choices = Vec::with_capacity(alloc, row.choices.len())?;
    choices.extend_from_slice(row.choices.as_slice())?;
    choices.push(choice)?;
    Ok(Row { choices })
}

// Adds the row with each of a modifier's contexts.
fn add_longer<'p>(
    alloc: Global,
    row: &Row<'p>,
    modifier: &'p str,
    contexts: &'p [SetDef<'_, '_>],
    rows: &mut Vec<Row<'p>>,
) -> Result<(), NoMemory>
    ensures { OnOk result (rows_view rows.new.items ≡ rows_view rows.old.items
        ++ map (λ o. row_view row.now ++ o)
        (map (choice_of modifier.entry.now) (sets_view contexts.entry.now))) }
{
    for context in contexts {
        let choice = Choice {
            modifier,
            context: context.name.as_str(),
        };
        rows.push(longer(alloc, row, choice)?)?;
    }
    Ok(())
}

// Each row with each of a modifier's contexts.
fn with_contexts<'p>(
    alloc: Global,
    rows: &[Row<'p>],
    modifier: &'p str,
    contexts: &'p [SetDef<'_, '_>],
) -> Result<Vec<Row<'p>>, NoMemory>
    ensures { IfOk result (λ all. rows_view all.items ≡ with_each (rows_view rows.now)
        (map (choice_of modifier.entry.now) (sets_view contexts.entry.now))) }
{
    let mut all = Vec::new(alloc);
    for row in rows {
        add_longer(alloc, row, modifier, contexts, &mut all)?;
    }
    Ok(all)
}

// The rows with each of an item's options.
fn extended<'p>(
    alloc: Global,
    rows: Vec<Row<'p>>,
    item: &'p Item<'_, '_>,
) -> Result<Vec<Row<'p>>, NoMemory>
    ensures { IfOk result (λ all. rows_view all.items
        ≡ with_each (rows_view rows.entry.items) (options (item_view item.entry.now))) }
{
    match item {
        Item::Set(_) => Ok(rows),
        Item::Modifier(name, contexts, _) => {
            with_contexts(alloc, rows.as_slice(), name.as_str(), contexts.as_slice())
        }
    }
}

// The row of no choice.
fn no_choices<'p>(alloc: Global) -> Result<Vec<Row<'p>>, NoMemory>
    ensures { IfOk result (λ all. rows_view all.items ≡ [] ∷ []) }
{
    let mut rows = Vec::new(alloc);
    rows.push(Row {
        choices: Vec::new(alloc),
    })?;
    Ok(rows)
}

/// The contexts of each permutation, in the order of permutations.
pub(crate) fn rows_of<'p>(
    alloc: Global,
    order: &'p [Item<'_, '_>],
) -> Result<Vec<Row<'p>>, NoMemory>
    ensures { IfOk result (λ rows. rows_view rows.items ≡ pages (order_view order.entry.now)) }
{
    let mut rows = no_choices(alloc)?;
    for item in order {
        rows = extended(alloc, rows, item)?;
    }
    Ok(rows)
}

// Adds the usual context of a modifier: its default, or else its first one.
fn add_usual<'p>(
    name: &'p str,
    contexts: &'p [SetDef<'_, '_>],
    default: &'p Option<Text<'_>>,
    usual: &mut Vec<Choice<'p>>,
) -> Result<(), NoMemory>
    ensures { OnOk result (choices_view usual.new.items ≡ choices_view usual.old.items
        ++ usual_by name.entry.now (sets_view contexts.entry.now) default.entry.now) }
{
    let Some(first) = contexts.first() else {
        return Ok(());
    };
    let context = match default {
        Some(default) => default.as_str(),
        None => first.name.as_str(),
    };
    usual.push(Choice {
        modifier: name,
        context,
    })?;
    Ok(())
}

// Adds the usual context of an item that is a modifier.
fn add_usual_in<'p>(item: &'p Item<'_, '_>, usual: &mut Vec<Choice<'p>>) -> Result<(), NoMemory>
    ensures { OnOk result (choices_view usual.new.items
        ≡ choices_view usual.old.items ++ usual_in (item_view item.entry.now)) }
{
    match item {
        Item::Set(_) => Ok(()),
        Item::Modifier(name, contexts, default) => {
            add_usual(name.as_str(), contexts.as_slice(), default, usual)
        }
    }
}

/// The usual contexts of all modifiers.
pub(crate) fn usual_of<'p>(
    alloc: Global,
    order: &'p [Item<'_, '_>],
) -> Result<Vec<Choice<'p>>, NoMemory>
    ensures { IfOk result (λ cs. choices_view cs.items ≡ usual (order_view order.entry.now)) }
{
    let mut usual = Vec::new(alloc);
    for item in order {
        add_usual_in(item, &mut usual)?;
    }
    Ok(usual)
}

// Whether the context at a place is the usual one.
fn is_usual(usual: &[Choice<'_>], at: usize, choice: &Choice<'_>) -> bool
    ensures { result ≡ is_usual (choices_view (drop at usual.now)) (choice_view choice.now) }
{
    match usual.get(at) {
        Some(other) => choice.context == other.context,
        None => false,
    }
}

// Adds the context at a place, where it is not the usual one.
fn add_if_odd<'p>(
    usual: &[Choice<'_>],
    at: usize,
    choice: &Choice<'p>,
    others: &mut Vec<Choice<'p>>,
) -> Result<(), NoMemory>
    ensures { OnOk result (choices_view others.new.items ≡ choices_view others.old.items
        ++ odd_at (choices_view (drop at usual.now)) (choice_view choice.now)) }
{
    if is_usual(usual, at, choice) {
        return Ok(());
    }
    others.push(*choice)?;
    Ok(())
}

/// Those of a permutation's contexts that are not the usual ones.
pub(crate) fn odd_of<'p>(
    alloc: Global,
    usual: &[Choice<'_>],
    page: &[Choice<'p>],
) -> Result<Vec<Choice<'p>>, NoMemory>
    ensures { IfOk result (λ cs. choices_view cs.items
        ≡ odd (choices_view usual.now) (choices_view page.now)) }
{
    let mut others = Vec::new(alloc);
    for at in 0..page.len() {
        add_if_odd(usual, at, &page[at], &mut others)?;
    }
    Ok(others)
}
