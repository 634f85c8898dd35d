//! Runs of the command line over stored scripts: many small ones, with the streams that an independent compiler writes for them, and
//! large ones. Out of memory may be answered at any time as far as contracts say, so each has to be answered as it is stored. Beside
//! them two calls are made that no run makes so, and stores in memory whose calls fail are brought to outputs.
//!
//! Standard input is the table that `tools/make-scripts` writes, and the file `stores` that of `tools/make-store-runs`. A program is run
//! as two compilers build it, and has two minutes.
#![tactic(auto)]

mod assembled;
mod recipe;
mod running;
mod stores;
mod table;
mod twice;

use assembled::are_assembled;
use itoa::Buffer;
use recipe::Unrun;
use running::run_row;
use std::alloc::Global;
use std::fs;
use std::process::ExitCode;
use stores::run_store_row;
use table::Table;
use tk_io::{Failed, NoMemory, Sink, StdSink, StdSource, read_all, write_all};
use twice::are_committed;

/// The longest table that is read.
const LIMIT: u64 = 10_000_000;

/// The most rows that a table has.
const MOST_ROWS: usize = 2_000;

/// Tells how a row or a call ended.
fn tell<K: Sink>(out: &mut K, name: &str, ended: &[u8]) -> Result<(), Failed> {
    write_all(out, name.as_bytes())?;
    write_all(out, b": ")?;
    write_all(out, ended)?;
    write_all(out, b"\n")
}

/// Tells how many rows were answered as they are stored.
fn tell_count<K: Sink>(out: &mut K, count: usize, what: &[u8]) -> Result<(), Failed> {
    let mut buffer = Buffer::new();
    write_all(out, buffer.format(count).as_bytes())?;
    write_all(out, what)
}

/// Tells why a row can't be run.
fn tell_unrun<K: Sink>(out: &mut K, name: &str, why: Unrun) -> Result<(), Failed> {
    match why {
        Unrun::NoRow => tell(out, name, b"no row"),
        Unrun::NoMemory => tell(out, name, b"out of memory"),
    }
}

/// Runs the rows, and tells each that has another answer, up to one that can't be run, and how many are answered as they are stored.
fn tell_rows<K: Sink>(alloc: Global, table: &mut Table<'_>, out: &mut K) -> Result<(), Failed> {
    let mut count = 0usize;
    for _ in 0..MOST_ROWS {
        let Some(head) = table.head() else {
            break;
        };
        match run_row(alloc, &head, table) {
            Ok(true) => count = count.saturating_add(1),
            Ok(false) => tell(out, head.name, b"another answer")?,
            Err(why) => return tell_unrun(out, head.name, why),
        }
    }
    tell_count(out, count, b" scripts answered\n")
}

/// The same of the rows of stores.
fn tell_stores<K: Sink>(alloc: Global, table: &mut Table<'_>, out: &mut K) -> Result<(), Failed> {
    let mut count = 0usize;
    for _ in 0..MOST_ROWS {
        let Some(head) = table.store() else {
            break;
        };
        match run_store_row(alloc, &head, table) {
            Ok(true) => count = count.saturating_add(1),
            Ok(false) => tell(out, head.name, b"another answer")?,
            Err(why) => return tell_unrun(out, head.name, why),
        }
    }
    tell_count(out, count, b" stores answered\n")
}

/// Tells how a call went that no run makes.
fn tell_call<K: Sink>(out: &mut K, name: &str, went: Result<bool, NoMemory>) -> Result<(), Failed> {
    let ended = match went {
        Ok(true) => b"answered".as_slice(),
        Ok(false) => b"another answer".as_slice(),
        Err(NoMemory) => b"out of memory".as_slice(),
    };
    tell(out, name, ended)
}

/// Tells it of all such calls.
fn tell_calls<K: Sink>(alloc: Global, out: &mut K) -> Result<(), Failed> {
    let assembled = are_assembled(alloc);
    tell_call(
        out,
        "16,000 tokens put together from their parts",
        assembled,
    )?;
    let committed = are_committed(alloc);
    tell_call(out, "one file committed twice", committed)
}

/// Tells all of it.
fn tell_all<K: Sink>(
    alloc: Global,
    scripts: &[u8],
    stores: &[u8],
    out: &mut K,
) -> Result<(), Failed> {
    tell_rows(alloc, &mut Table::new(scripts), out)?;
    tell_calls(alloc, out)?;
    tell_stores(alloc, &mut Table::new(stores), out)
}

fn main(rt: HostRuntime) -> ExitCode {
    let mut src = StdSource::new(rt.stdin());
    let mut out = StdSink::new(rt.stdout());
    let Ok(text) = read_all(rt.alloc(), &mut src, LIMIT) else {
        return ExitCode::FAILURE;
    };
    let Ok(stores) = fs::read(&rt, "stores") else {
        return ExitCode::FAILURE;
    };
    match tell_all(rt.alloc(), text.as_slice(), stores.as_slice(), &mut out) {
        Ok(()) => ExitCode::SUCCESS,
        Err(_) => ExitCode::FAILURE,
    }
}
