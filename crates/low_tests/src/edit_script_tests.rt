//! Scripts with what is read of them, and changes with the records that are written.

ghost use Rattle.std.specs.Prelude.{◌≡◌, Some};
ghost use Rattle.std.specs.List.{slice_get};
ghost use Rattle.edit_script.specs.View.{Lined, with_line};

use crate::checks::{check, check_at};
use bumpalo::Bump;
use edit_script::{
    Change, Changes, Event, Events, Line, Outcome, ScriptStop, delta, effect, made_length,
    read_script, stats_line, write_change, write_line,
};
use std::alloc::Global;
use tk_io::{Bytes, MemSink, NoMemory, Outputs};

// Whether so many events are read of the text, or it is refused at this byte.
fn comes_to(alloc: Global, text: &str, expected: Result<usize, usize>) -> bool {
    match read_script(alloc, text) {
        Ok(events) => expected == Ok(events.len()),
        Err(ScriptStop::BadScript(at)) => expected == Err(at),
        Err(ScriptStop::NoMemory) => false,
    }
}

// Texts, and how many events each has, or the byte at which it is refused.
const TEXTS: &[(&str, Result<usize, usize>)] = &[
    ("", Err(0)),
    ("tokc-script 1", Err(0)),
    ("tokc-script 3\n", Err(0)),
    ("tokc-script 1\r\n", Err(0)),
    ("tokc-script 1\n", Ok(0)),
    ("tokc-script 1\n\n", Err(14)),
    ("tokc-script 1\ncommit", Err(14)),
    ("tokc-script 1\ncommit \n", Err(14)),
    ("tokc-script 1\nmove a.json b.json\n", Err(14)),
    ("tokc-script 1\nput a.json 5\n{}\n", Err(14)),
    ("tokc-script 1\ncommit\nput a.json 02\n{}\n", Err(21)),
    ("tokc-script 1\nput a 00\n\n", Err(14)),
    ("tokc-script 1\nput a +1\nx\n", Err(14)),
    ("tokc-script 1\nput a 100000000\n", Err(14)),
    ("tokc-script 1\nput a 1\nxy", Err(14)),
    ("tokc-script 1\nput a 1\né\n", Err(14)),
    ("tokc-script 1\nput a 2\né\ncommit\n", Ok(2)),
    ("tokc-script 1\ndel .\n", Err(14)),
    ("tokc-script 1\ndel a/..\n", Err(14)),
    ("tokc-script 1\ndel a//b\n", Err(14)),
    ("tokc-script 1\ndel /a\n", Err(14)),
    ("tokc-script 1\ndel a/\n", Err(14)),
    ("tokc-script 1\ndel é\n", Err(14)),
    ("tokc-script 1\ndel a b\n", Err(14)),
    ("tokc-script 1\ndel a/.b/..c/-_9Z\n", Ok(1)),
    ("tokc-script 1\ncommit\npatch a 0 0 0\n\n", Err(21)),
    ("tokc-script 2", Err(0)),
    ("tokc-script 2\n", Ok(0)),
    (
        "tokc-script 2\nput a 1\nx\nmove a a\ndel a\ncommit\n",
        Ok(4),
    ),
    ("tokc-script 2\nmove a.json b.json\n", Ok(1)),
    ("tokc-script 2\nmove a.json\n", Err(14)),
    ("tokc-script 2\nmove a  b\n", Err(14)),
    ("tokc-script 2\nmove a b c\n", Err(14)),
    ("tokc-script 2\nmove a ..\n", Err(14)),
    ("tokc-script 2\npatch a 0 0 0\n\n", Ok(1)),
    ("tokc-script 2\npatch a 99999999 0 2\né\ncommit\n", Ok(2)),
    ("tokc-script 2\npatch a 00 0 0\n\n", Err(14)),
    ("tokc-script 2\npatch a 0 01 0\n\n", Err(14)),
    ("tokc-script 2\npatch a 0 -1 0\n\n", Err(14)),
    ("tokc-script 2\npatch a 100000000 0 0\n\n", Err(14)),
    ("tokc-script 2\npatch a 0 0\n\n", Err(14)),
    ("tokc-script 2\npatch a 0 0 0 \n\n", Err(14)),
    ("tokc-script 2\npatch . 0 0 0\n\n", Err(14)),
    ("tokc-script 2\npatch a 0 0 1\né\n", Err(14)),
    ("tokc-script 2\ncommit\npatch a 0 0 1\nxy", Err(21)),
];

const EVENTS: &str =
    "tokc-script 1\nput a/b.json 4\nab\n\n\ncommit\ndel a/b.json\nput c 0\n\ncommit\n";

// What comes of the first bytes of these events: of each number of bytes from the first to the second.
const CUTS: &[(usize, usize, Result<usize, usize>)] = &[
    (0, 13, Err(0)),
    (14, 14, Ok(0)),
    (15, 33, Err(14)),
    (34, 34, Ok(1)),
    (35, 40, Err(34)),
    (41, 41, Ok(2)),
    (42, 53, Err(41)),
    (54, 54, Ok(3)),
    (55, 62, Err(54)),
    (63, 63, Ok(4)),
    (64, 69, Err(63)),
    (70, 70, Ok(5)),
];

// Whether each number of bytes from the first to the last comes to this.
fn are_cut(alloc: Global, first: usize, last: usize, expected: Result<usize, usize>) -> bool {
    for n in first..=last {
        let Some(text) = EVENTS.get(..n) else {
            return false;
        };
        if !comes_to(alloc, text, expected) {
            return false;
        }
    }
    true
}

#[test]
fn reads_scripts_and_refuses_other_texts(rt: HostRuntime) {
    for (text, expected) in TEXTS {
        check(&rt, comes_to(rt.alloc(), text, *expected), text);
    }
    for (first, last, expected) in CUTS {
        check_at(&rt, are_cut(rt.alloc(), *first, *last, *expected), *first);
    }
}

// Whether these are the events of the whole text.
fn are_events(events: &Events<'_>) -> bool {
    events.at(0) == Some(&Event::Put("a/b.json", "ab\n\n"))
        && events.at(1) == Some(&Event::Commit)
        && events.at(2) == Some(&Event::Del("a/b.json"))
        && events.at(5).is_none()
}

fn events_are_read(alloc: Global) -> bool {
    match read_script(alloc, EVENTS) {
        Ok(events) => are_events(&events),
        Err(_) => false,
    }
}

const SECOND: &str = "tokc-script 2\nmove a/b.json c\npatch c 3 14 5\nx\n é\n";

// Whether these are the events of the text of the second version.
fn are_second(events: &Events<'_>) -> bool {
    events.at(0) == Some(&Event::Move("a/b.json", "c"))
        && events.at(1) == Some(&Event::Patch("c", 3, 14, "x\n é"))
        && events.at(2).is_none()
}

fn second_events_are_read(alloc: Global) -> bool {
    match read_script(alloc, SECOND) {
        Ok(events) => are_second(&events),
        Err(_) => false,
    }
}

#[test]
fn reads_each_event(rt: HostRuntime) {
    assert!(rt; events_are_read(rt.alloc()));
    assert!(rt; second_events_are_read(rt.alloc()));
}

// An event, the text of its path, what earlier patches made, what comes of it, and how much it made.
type EffectRow<'s> = (Event<'s>, Option<&'s str>, u64, Outcome<'s>, u64);

const EFFECTS: &[EffectRow<'_>] = &[
    (
        Event::Put("p", "x"),
        Some("abc"),
        7,
        Outcome::Put("p", "x"),
        0,
    ),
    (Event::Del("p"), None, 7, Outcome::Del("p"), 0),
    (Event::Commit, None, 7, Outcome::Commit, 0),
    (
        Event::Move("p", "q"),
        Some("abc"),
        7,
        Outcome::Move("p", "q", "abc"),
        0,
    ),
    (
        Event::Move("p", "p"),
        Some(""),
        7,
        Outcome::Move("p", "p", ""),
        0,
    ),
    (Event::Move("p", "p"), None, 7, Outcome::Unfit, 0),
    (
        Event::Patch("p", 1, 2, "x"),
        Some("abc"),
        0,
        Outcome::Put("p", "axc"),
        3,
    ),
    (
        Event::Patch("p", 3, 3, "é"),
        Some("abc"),
        0,
        Outcome::Put("p", "abcé"),
        5,
    ),
    (
        Event::Patch("p", 0, 2, ""),
        Some("é"),
        0,
        Outcome::Put("p", ""),
        0,
    ),
    (
        Event::Patch("p", 0, 0, ""),
        Some(""),
        0,
        Outcome::Put("p", ""),
        0,
    ),
    (Event::Patch("p", 0, 0, ""), None, 0, Outcome::Unfit, 0),
    (
        Event::Patch("p", 4, 4, ""),
        Some("abc"),
        0,
        Outcome::Unfit,
        0,
    ),
    (
        Event::Patch("p", 2, 1, ""),
        Some("abc"),
        0,
        Outcome::Unfit,
        0,
    ),
    (Event::Patch("p", 1, 1, ""), Some("é"), 0, Outcome::Unfit, 0),
    (Event::Patch("p", 1, 2, ""), Some("é"), 0, Outcome::Unfit, 0),
    (Event::Patch("p", 0, 1, ""), Some("é"), 0, Outcome::Unfit, 0),
    (
        Event::Patch("p", 0, 1, "xy"),
        Some("ab"),
        1_073_741_821,
        Outcome::Put("p", "xyb"),
        3,
    ),
    (
        Event::Patch("p", 0, 1, "xy"),
        Some("ab"),
        1_073_741_822,
        Outcome::Unfit,
        0,
    ),
    (
        Event::Patch("p", 0, 2, ""),
        Some("ab"),
        1_073_741_824,
        Outcome::Put("p", ""),
        0,
    ),
    (
        Event::Patch("p", 0, 1, ""),
        Some("ab"),
        1_073_741_824,
        Outcome::Unfit,
        0,
    ),
];

// Whether this comes of the row's event, and it makes so much.
fn is_effect(alloc: Global, row: &EffectRow<'_>) -> bool {
    let (event, present, made, expected, length) = row;
    if *made > 1_073_741_824 {
        return false;
    }
    let arena = Bump::new(alloc);
    match effect(event, *present, *made, &arena) {
        Ok(outcome) => outcome == *expected && made_length(event, &outcome) == *length,
        Err(_) => false,
    }
}

#[test]
fn tells_what_comes_of_events(rt: HostRuntime) {
    for (i, row) in EFFECTS.iter().enumerate() {
        check_at(&rt, is_effect(rt.alloc(), row), i);
    }
}

#[test]
fn tells_which_path_an_event_looks_at(rt: HostRuntime) {
    assert!(rt; Event::Move("p", "q").path() == Some("p"));
    assert!(rt; Event::Patch("p", 0, 0, "q").path() == Some("p"));
    assert!(rt; Event::Commit.path().is_none());
}

fn put(outputs: &mut Outputs, alloc: Global, path: &str, text: &str) -> Result<(), NoMemory> {
    let mut bytes = Bytes::new(alloc);
    bytes.append(text.as_bytes())?;
    outputs.insert(path, bytes)
}

fn outputs_of(alloc: Global, files: &[(&str, &str)]) -> Result<Outputs, NoMemory> {
    let mut outputs = Outputs::new(alloc);
    for (path, text) in files {
        put(&mut outputs, alloc, path, text)?;
    }
    Ok(outputs)
}

fn append_record(records: &mut Bytes, change: &Change<'_>) -> Result<(), NoMemory> {
    match change {
        Change::Gone(_, line) => records.append(line.as_slice()),
        Change::Written(_, bytes, line) => {
            records.append(line.as_slice())?;
            records.append(bytes)?;
            records.append(b"\n")
        }
    }
}

fn are_records(alloc: Global, changes: &[Change<'_>], expected: &str) -> bool {
    let mut records = Bytes::new(alloc);
    for change in changes {
        if append_record(&mut records, change).is_err() {
            return false;
        }
    }
    records.as_slice() == expected.as_bytes()
}

// Whether these are the records from the old outputs to the new.
fn are_told(alloc: Global, old: &Outputs, new: &Outputs, expected: &str) -> bool {
    match delta(alloc, old, new) {
        Ok(changes) => are_records(alloc, changes.as_slice(), expected),
        Err(_) => false,
    }
}

fn is_told(alloc: Global, old: &[(&str, &str)], new: &[(&str, &str)], expected: &str) -> bool {
    let Ok(old_outputs) = outputs_of(alloc, old) else {
        return false;
    };
    let Ok(new_outputs) = outputs_of(alloc, new) else {
        return false;
    };
    are_told(alloc, &old_outputs, &new_outputs, expected)
}

const FEW: &[(&str, &str)] = &[("a.css", "x"), ("b/c.xml", "12345678901"), ("d.json", "{}")];

const FEW_LATER: &[(&str, &str)] = &[("a.css", "y"), ("a/z", ""), ("d.json", "{}")];

const LONG: &[(&str, &str)] = &[("b/c.xml", "12345678901")];

// Outputs, later ones, and the records between them.
const TOLD: &[(&[(&str, &str)], &[(&str, &str)], &str)] = &[
    (FEW, FEW, ""),
    (&[("a.css", "x")], &[], "gone a.css\n"),
    (&[], LONG, "file b/c.xml 11\n12345678901\n"),
    (
        FEW,
        FEW_LATER,
        "file a.css 1\ny\nfile a/z 0\n\ngone b/c.xml\n",
    ),
];

#[test]
fn tells_changes_by_records(rt: HostRuntime) {
    for (old, new, expected) in TOLD {
        check(&rt, is_told(rt.alloc(), old, new, expected), expected);
    }
}

// Whether the line is written.
fn writes(out: &mut MemSink<'_>, line: &Line) -> bool {
    write_line(out, line).is_ok()
}

// Whether the record of the i-th change is written.
fn writes_record(out: &mut MemSink<'_>, changes: &Changes<'_>, i: usize) -> bool
    requires lined { (change : Lined) → slice_get changes.now i ≡ Some change
        → change ≡ with_line change.0 }
{
    match changes.at(i) {
        Some(change) => write_change(out, change).is_ok(),
        None => false,
    }
}

// Whether the records of two changes are written, from the old outputs to the new.
fn writes_both(out: &mut MemSink<'_>, alloc: Global, old: &Outputs, new: &Outputs) -> bool {
    match delta(alloc, old, new) {
        Ok(changes) => {
            let both = writes_record(out, &changes, 0) && writes_record(out, &changes, 1);
            both && changes.len() == 2
        }
        Err(_) => false,
    }
}

fn writes_two(
    out: &mut MemSink<'_>,
    alloc: Global,
    old: &[(&str, &str)],
    new: &[(&str, &str)],
) -> bool {
    let Ok(old_outputs) = outputs_of(alloc, old) else {
        return false;
    };
    let Ok(new_outputs) = outputs_of(alloc, new) else {
        return false;
    };
    writes_both(out, alloc, &old_outputs, &new_outputs)
}

fn a_stream_is_written(alloc: Global) -> bool {
    let mut room = [0u8; 100];
    let mut out = MemSink::new(&[], 7, &mut room);
    let done = writes(&mut out, &Line::StreamHead)
        && writes(&mut out, &Line::Commit(1))
        && writes_two(&mut out, alloc, &[("a.css", "x")], &[("b", "xy")])
        && writes(&mut out, &Line::Done(18446744073709551615));
    let stream = "tokc-stream 1\ncommit 1\ngone a.css\nfile b 2\nxy\ndone 18446744073709551615\n";
    done && out.written() == stream.as_bytes()
}

#[test]
fn writes_lines_and_records(rt: HostRuntime) {
    assert!(rt; a_stream_is_written(rt.alloc()));
}

// The line of the first commit, from the old outputs to the new.
fn stats_of(alloc: Global, old: &Outputs, new: &Outputs) -> Option<Line> {
    match delta(alloc, old, new) {
        Ok(changes) => Some(stats_line(1, 3, 4, 5, &changes)),
        Err(_) => None,
    }
}

fn few_numbers(alloc: Global) -> Option<Line> {
    let Ok(old) = outputs_of(alloc, FEW) else {
        return None;
    };
    let Ok(new) = outputs_of(alloc, FEW_LATER) else {
        return None;
    };
    stats_of(alloc, &old, &new)
}

fn writes_statistics(first: &Line) -> bool {
    let most = Line::Stats {
        commit: 18446744073709551615,
        parsed: 18446744073709551615,
        merged: 18446744073709551615,
        evaluated: 18446744073709551615,
        written: 18446744073709551615,
        gone: 18446744073709551615,
    };
    let mut room = [0u8; 300];
    let mut out = MemSink::new(&[], 7, &mut room);
    let done = writes(&mut out, &Line::StatsHead)
        && writes(&mut out, first)
        && writes(&mut out, &most);
    let lines =
        "tokc-stats 1\ncommit 1 parsed 3 merged 4 evaluated 5 written 2 gone 1\ncommit 18446744073709551615 parsed 18446744073709551615 merged 18446744073709551615 evaluated 18446744073709551615 written 18446744073709551615 gone 18446744073709551615\n";
    done && out.written() == lines.as_bytes()
}

fn few_statistics_are_written(alloc: Global) -> bool {
    match few_numbers(alloc) {
        Some(first) => writes_statistics(&first),
        None => false,
    }
}

#[test]
fn writes_the_statistics(rt: HostRuntime) {
    assert!(rt; few_statistics_are_written(rt.alloc()));
}

// Whether the events are empty, and then hold one.
fn take_an_event(events: &mut Events<'_>) -> bool {
    events.is_empty()
        && events.push(Event::Del("a")).is_ok()
        && events.len() == 1
        && events.as_slice() == [Event::Del("a")].as_slice()
}

#[test]
fn events_grow_at_their_end(rt: HostRuntime) {
    assert!(rt; take_an_event(&mut Events::new(rt.alloc())));
}

fn are_one_gone(changes: &Changes<'_>, path: &str) -> bool {
    let one = changes.len() == 1 && !changes.is_empty();
    one && matches!(changes.at(0), Some(Change::Gone(found, _)) if *found == path)
}

// Whether the changes are empty, and then hold one.
fn take_a_change(changes: &mut Changes<'_>, line: Bytes) -> bool {
    changes.is_empty()
        && changes.push(Change::Gone("a", line)).is_ok()
        && are_one_gone(changes, "a")
}

#[test]
fn changes_grow_at_their_end(rt: HostRuntime) {
    let line = Bytes::new(rt.alloc());
    assert!(rt; take_a_change(&mut Changes::new(rt.alloc()), line));
}
