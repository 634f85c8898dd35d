//! Runs of `run_store` over stores in memory whose calls fail where the table says. Each run has to end as it is stored, and to leave
//! as many paths; and one that says that the outputs stand has to leave exactly what is stored.

use crate::recipe::{Unrun, append_recipe};
use crate::table::{Part, RunHead, RunPart, StoreHead, Table};
use out_store::MemStore;
use std::alloc::{AllocError, Global};
use store_cli::run_store;
use tk_io::{Bytes, MemSink, MemSource};

/// The most runs over one store, and the most places that are compared after one.
const MOST_RUNS: usize = 100;

const MOST_PLACES: usize = 1_000;

// Numbers that stand between blanks.
fn numbers_of(alloc: Global, line: &str) -> Result<Vec<u64>, AllocError> {
    let mut numbers = Vec::new(alloc);
    for word in line.split(' ') {
        if let Ok(number) = word.parse::<u64>() {
            numbers.push(number)?;
        }
    }
    Ok(numbers)
}

/// Whether the store holds what the text says: a place, a newline and the bytes that stand there.
fn is_held(store: &MemStore<'_>, text: &str) -> bool {
    match text.split_once('\n') {
        Some((place, body)) => store.get(place) == Some(body.as_bytes()),
        None => false,
    }
}

/// Whether the store holds all with which the table goes on.
fn are_held(store: &MemStore<'_>, table: &mut Table<'_>) -> Result<bool, Unrun> {
    let mut all = true;
    for _ in 0..MOST_PLACES {
        match table.part() {
            Some(Part::Step(step)) => all = is_held(store, step.text) && all,
            Some(Part::End) => return Ok(all),
            None => break,
        }
    }
    Err(Unrun::NoRow)
}

/// How the run of the script over the store ends.
fn status_over(
    alloc: Global,
    script: &[u8],
    store: &mut MemStore<'_>,
) -> Result<usize, AllocError> {
    let mut words = Vec::new(alloc);
    words.push(String::from_str(alloc, "site")?)?;
    let mut error_room = [0u8; 100];
    let mut src = MemSource::new(script, &[]);
    let mut err = MemSink::new(&[], usize::MAX, &mut error_room);
    let ended = run_store(alloc, words.as_slice(), &mut src, store, &mut err);
    Ok(ended.number() as usize)
}

/// Whether the run with whose recipes the table goes on is answered as it is stored.
fn is_answered(
    alloc: Global,
    head: RunHead,
    store: &mut MemStore<'_>,
    table: &mut Table<'_>,
) -> Result<bool, Unrun> {
    let mut script = Bytes::new(alloc);
    append_recipe(&mut script, table)?;
    let Ok(status) = status_over(alloc, script.as_slice(), store) else {
        return Err(Unrun::NoMemory);
    };
    let holds = are_held(store, table)?;
    Ok(holds && status == head.status && store.len() == head.paths)
}

/// Whether the runs with which the table goes on, one after another over the store, are all answered as they are stored.
fn are_answered(
    alloc: Global,
    store: &mut MemStore<'_>,
    table: &mut Table<'_>,
) -> Result<bool, Unrun> {
    let mut all = true;
    for _ in 0..MOST_RUNS {
        match table.run() {
            Some(RunPart::Run(head)) => all = is_answered(alloc, head, store, table)? && all,
            Some(RunPart::End) => return Ok(all),
            None => break,
        }
    }
    Err(Unrun::NoRow)
}

/// The same over a new store whose calls fail as its head says.
pub(crate) fn run_store_row(
    alloc: Global,
    head: &StoreHead<'_>,
    table: &mut Table<'_>,
) -> Result<bool, Unrun> {
    let Ok(fails) = numbers_of(alloc, head.fails) else {
        return Err(Unrun::NoMemory);
    };
    let mut store = MemStore::new(alloc, fails.as_slice(), head.torn.as_bytes(), head.drops);
    are_answered(alloc, &mut store, table)
}
