//! What each set comes to, in one table.

ghost use Rattle.std.specs.Prelude.{◌≡◌, ◌+◌, IfOk, OnOk, All, fold, length};
ghost use Rattle.resolver_doc.specs.View.{sets_view};
ghost use Rattle.permutations.specs.inner.Orders.{IsSetOrder};
ghost use Rattle.permutations.specs.inner.Parts.{HaveRows, rows_view, with_row};

use crate::part::{Row, row_of};
use resolver_doc::{Resolver, SetDef};
use ring::{Found, ring_or_order};
use std::alloc::Global;
use tk_io::NoMemory;

/// The sets of a document, with a row for each.
#[derive(Drop)]
pub(crate) struct Table<'p, 'a, 's> {
    pub(crate) sets: &'p [SetDef<'a, 's>],
    pub(crate) rows: Vec<Row<'p, 'a, 's>>,
}

// The sets in a topological order, each after those that it names, and after them the number of the document itself.
fn set_order(alloc: Global, plan: &Resolver<'_, '_>) -> Result<Vec<usize>, NoMemory>
    ensures { IfOk result (λ order. IsSetOrder (sets_view plan.now.sets) order.items) }
{
    let graph = plan.set_graph(alloc)?;
    match ring_or_order(alloc, graph.as_slice(), plan.sets.len())? {
        Found::Order(order) => Ok(order),
        Found::Ring(_) => unreachable!(),
    }
}

// Pushes a row without parts for each of so many sets.
fn push_empty_rows(
    alloc: Global,
    sets: usize,
    rows: &mut Vec<Row<'_, '_, '_>>,
) -> Result<(), NoMemory>
    ensures { OnOk result (length rows.new.items ≡ length rows.old.items + sets) }
{
    for _number in 0..sets {
        rows.push(Row {
            parts: Vec::new(alloc),
            count: 0,
        })?;
    }
    Ok(())
}

// Puts the row of a set; the number of the document itself has none.
fn put_row<'p, 'a, 's>(
    alloc: Global,
    sets: &'p [SetDef<'a, 's>],
    number: usize,
    rows: &mut Vec<Row<'p, 'a, 's>>,
) -> Result<(), NoMemory>
    requires known { All (λ s. HaveRows (length sets.now) s.sources) sets.now }
    requires long { length rows.old.items ≡ length sets.now }
    ensures long { length rows.new.items ≡ length rows.old.items }
    ensures row { OnOk result (rows_view rows.new.items
        ≡ with_row (sets_view sets.entry.now) (rows_view rows.old.items) number) }
{
    let Some(set) = sets.get(number) else {
        return Ok(());
    };
    rows[number] = row_of(alloc, set.sources.as_slice(), rows.as_slice())?;
    Ok(())
}

// Puts the rows of sets in an order in which each comes after those that it names.
fn fill<'p, 'a, 's>(
    alloc: Global,
    sets: &'p [SetDef<'a, 's>],
    order: &[usize],
    rows: &mut Vec<Row<'p, 'a, 's>>,
) -> Result<(), NoMemory>
    requires known { All (λ s. HaveRows (length sets.now) s.sources) sets.now }
    requires long { length rows.old.items ≡ length sets.now }
    ensures { OnOk result (rows_view rows.new.items
        ≡ fold (with_row (sets_view sets.entry.now)) (rows_view rows.old.items) order.now) }
{
    for number in order {
        put_row(alloc, sets, *number, rows)?;
    }
    Ok(())
}

impl<'p, 'a, 's> Table<'p, 'a, 's> {
    ghost use Rattle.permutations.specs.inner.Expanding.{Tells};

    /// What each set of the plan comes to.
    pub(crate) fn new(
        alloc: Global,
        plan: &'p Resolver<'a, 's>,
    ) -> Result<Table<'p, 'a, 's>, NoMemory>
        ensures sets { IfOk result (λ t. t.sets.now ≡ plan.entry.now.sets) }
        ensures tells { IfOk result Tells }
    {
        let sets = plan.sets.as_slice();
        let order = set_order(alloc, plan)?;
        let mut rows = Vec::new(alloc);
        push_empty_rows(alloc, sets.len(), &mut rows)?;
        fill(alloc, sets, order.as_slice(), &mut rows)?;
        Ok(Table { sets, rows })
    }
}
