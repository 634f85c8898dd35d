//! The changes from some outputs to others.

ghost use Rattle.std.specs.Prelude.{◌≡◌, ◌<◌, ◌^◌, T, List, map, ◌++◌, length, None, IfOk, OnOk};
ghost use Rattle.std.specs.Prelude.{MatchOption};
ghost use Rattle.std.specs.List.{slice_get};
ghost use Rattle.std.specs.Option.{option_copied, option_map};
ghost use Rattle.std.specs.FinMap.{is_sorted};
ghost use Rattle.std.specs.FinMap as finite;
ghost use Rattle.tk_io.specs.Order.{text_cmp};
ghost use Rattle.edit_script.specs.Delta.{Delta, ChangeData, IsDelta};
ghost use Rattle.edit_script.specs.inner.Merge.{Entries, AreChanges, IsStep, found_changes};
ghost use Rattle.edit_script.specs.inner.Merge.{outputs_view, lent_view};
ghost use Rattle.edit_script.specs.View.{with_line};

use crate::record_line::{file_line, gone_line};
use crate::{Change, Changes};
use lane_scan::are_same;
use std::alloc::Global;
use std::cmp::Ordering;
use tk_io::{Body, NoMemory, Outputs};

/// The changes from the old outputs to the new ones, in byte order of paths: gone where only the old have the path, and
/// written where only the new have it or have other bytes there. An output that stays as it was has no change. Each
/// change carries its record's first line.
pub fn delta<'a>(alloc: Global, old: &'a Outputs, new: &'a Outputs) -> Result<Changes<'a>, NoMemory>
    ensures { IfOk result
        (λ cs. (d : Delta) × IsDelta old.entry.now new.entry.now d
        × (cs ≡ map with_line (finite.entries d))) }
{
    merge(alloc, old.entries(), new.entries())
}

// The path of an output, with its bytes.
type Entry = (String, Body);

// The changes from one list of entries in path order to another.
fn merge<'a>(alloc: Global, old: &'a [Entry], new: &'a [Entry]) -> Result<Changes<'a>, NoMemory>
    requires old { T (is_sorted text_cmp (outputs_view old.now))
        × (length (outputs_view old.now) < 2 ^ 64) }
    requires new { T (is_sorted text_cmp (outputs_view new.now))
        × (length (outputs_view new.now) < 2 ^ 64) }
    ensures { IfOk result
        (λ cs. (ds : List ChangeData)
        × AreChanges (outputs_view old.entry.now) (outputs_view new.entry.now) ds
        × (cs ≡ map with_line ds)) }
{
    let mut changes = Changes::new(alloc);
    let mut i = 0;
    let mut j = 0;
    while let Some((found, olds, news)) = first_found(output_at(old, i), output_at(new, j)) {
        add(alloc, &mut changes, found)?;
        i += olds;
        j += news;
    }
    Ok(changes)
}

// The i-th entry, counted from 0.
fn entry_at(entries: &[Entry], i: usize) -> Option<&Entry>
    ensures { option_copied result ≡ slice_get entries.now i }
{
    entries.get(i)
}

// Its path and its bytes.
fn output_at(entries: &[Entry], i: usize) -> Option<(&str, &[u8])>
    ensures { option_map lent_view result ≡ slice_get (outputs_view entries.now) i }
{
    match entry_at(entries, i) {
        Some((path, body)) => Some((path.as_str(), body.as_slice())),
        None => None,
    }
}

// What became of a path.
enum Found<'a> {
    Same,
    Gone(&'a str),
    Written(&'a str, &'a [u8]),
}

// What became of the first path of two lists of entries, by their first entries, and how many entries of each list have
// that path; none where both lists are empty.
fn first_found<'a>(
    old: Option<(&'a str, &'a [u8])>,
    new: Option<(&'a str, &'a [u8])>,
) -> Option<(Found<'a>, usize, usize)>
    ensures { MatchOption result ((old.entry ≡ None) × (new.entry ≡ None))
        (λ s. (os : Entries) → (ns : Entries)
        → slice_get os 0 ≡ option_map lent_view old.entry
        → slice_get ns 0 ≡ option_map lent_view new.entry
        → IsStep os ns (found_changes s.0) s.1 s.2) }
{
    let Some((old_path, old_bytes)) = old else {
        let (path, bytes) = new?;
        return Some((Found::Written(path, bytes), 0, 1));
    };
    let Some((new_path, new_bytes)) = new else {
        return Some((Found::Gone(old_path), 1, 0));
    };
    match old_path.cmp(new_path) {
        Ordering::Less => Some((Found::Gone(old_path), 1, 0)),
        Ordering::Greater => Some((Found::Written(new_path, new_bytes), 0, 1)),
        Ordering::Equal => {
            if are_same(old_bytes, new_bytes) {
                return Some((Found::Same, 1, 1));
            }
            Some((Found::Written(new_path, new_bytes), 1, 1))
        }
    }
}

// Adds the change that was found, with its line.
fn add<'a>(alloc: Global, changes: &mut Changes<'a>, found: Found<'a>) -> Result<(), NoMemory>
    ensures { OnOk result (changes.new ≡ changes.old ++ map with_line (found_changes found.entry)) }
{
    match found {
        Found::Same => Ok(()),
        Found::Gone(path) => {
            let line = gone_line(alloc, path)?;
            changes.push(Change::Gone(path, line))
        }
        Found::Written(path, bytes) => {
            let line = file_line(alloc, path, bytes)?;
            changes.push(Change::Written(path, bytes, line))
        }
    }
}
