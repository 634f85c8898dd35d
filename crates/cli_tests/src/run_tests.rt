//! Runs of the command line: what is written, what is said of a failure, and how it ends.

mod stops;
mod table;

use self::stops::STOPS;
use self::table::{CASES, Case};
use std::alloc::{AllocError, Global};
use std::process::Abort;
use std::test::Fail;
use tk_io::{CleanSource, MemSink, MemSource};
use token_cli::{Status, run, run_clean};

// Arguments that stand between blanks.
fn words_of(alloc: Global, line: &str) -> Result<Vec<String>, AllocError> {
    let mut words = Vec::new(alloc);
    for word in line.split(' ') {
        words.push(String::from_str(alloc, word)?)?;
    }
    Ok(words)
}

// Whether the run writes, says and answers what the case says, where these calls fail by their numbers.
fn runs_so(alloc: Global, case: &Case, read_fails: &[u64], report_fails: &[u64]) -> bool {
    let Ok(words) = words_of(alloc, case.words) else {
        return false;
    };
    let mut room = [0u8; 8000];
    let mut error_room = [0u8; 100];
    let mut src = MemSource::new(case.script, read_fails);
    let mut out = MemSink::new(&[], 8000, &mut room);
    let mut err = MemSink::new(report_fails, 3, &mut error_room);
    let ended = run(alloc, words.as_slice(), &mut src, &mut out, &mut err);
    let told = out.written() == case.written.as_bytes() && err.written() == case.said.as_bytes();
    told && ended == case.status
}

// Asserts that a row of a table holds, and names it by its number and its arguments where it does not.
fn check_row(rt: &impl Abort, holds: bool, row: usize, words: &str) {
    assert!(rt; holds, "row {row}: {words}");
}

#[test]
fn runs_write_and_say_what_their_words_ask_for(rt: HostRuntime) {
    for (i, case) in CASES.iter().enumerate() {
        check_row(&rt, runs_so(rt.alloc(), case, &[], &[]), i, case.words);
        let is_done = case.status == Status::Done;
        check_row(&rt, (case.status.number() == 0) == is_done, i, case.words);
    }
}

#[test]
fn runs_that_stop_write_nothing_and_say_why(rt: HostRuntime) {
    for (i, case) in STOPS.iter().enumerate() {
        check_row(&rt, runs_so(rt.alloc(), case, &[], &[]), i, case.words);
    }
}

static READ_FAULT: Case = Case {
    words: "build",
    script: b"tokc-script 1\n",
    written: "",
    said: "tokc: read failed\n",
    status: Status::ReadFault,
};

static UNSAID: Case = Case {
    words: "build",
    script: b"tokc-script 1\n",
    written: "",
    said: "",
    status: Status::ReadFault,
};

#[test]
fn a_read_that_fails_ends_the_run(rt: HostRuntime) {
    assert!(rt; runs_so(rt.alloc(), &READ_FAULT, &[1], &[]));
    assert!(rt; runs_so(rt.alloc(), &UNSAID, &[1], &[1]));
}

static GENERATED: Case = Case {
    words: "gen 7 12",
    script: b"",
    written: "tokc-stats 1\ncommit 1 parsed 6 merged 4 evaluated 56 written 16 gone 0\ncommit 2 parsed 1 merged 4 evaluated 40 written 16 gone 0\ncommit 3 parsed 1 merged 4 evaluated 8 written 16 gone 0\ncommit 4 parsed 1 merged 4 evaluated 40 written 16 gone 0\ncommit 5 parsed 1 merged 4 evaluated 8 written 16 gone 0\ncommit 6 parsed 1 merged 4 evaluated 40 written 16 gone 0\ncommit 7 parsed 1 merged 4 evaluated 8 written 16 gone 0\ncommit 8 parsed 1 merged 4 evaluated 40 written 16 gone 0\ncommit 9 parsed 1 merged 4 evaluated 8 written 16 gone 0\ncommit 10 parsed 1 merged 4 evaluated 40 written 16 gone 0\ncommit 11 parsed 1 merged 4 evaluated 8 written 16 gone 0\ncommit 12 parsed 1 merged 4 evaluated 40 written 16 gone 0\ncommit 13 parsed 1 merged 4 evaluated 8 written 16 gone 0\ncommit 14 parsed 1 merged 4 evaluated 40 written 16 gone 0\ncommit 15 parsed 1 merged 4 evaluated 8 written 16 gone 0\ncommit 16 parsed 1 merged 4 evaluated 40 written 16 gone 0\ncommit 17 parsed 1 merged 4 evaluated 8 written 16 gone 0\ncommit 18 parsed 1 merged 4 evaluated 40 written 16 gone 0\ncommit 19 parsed 1 merged 4 evaluated 8 written 16 gone 0\ncommit 20 parsed 1 merged 4 evaluated 40 written 16 gone 0\ncommit 21 parsed 1 merged 4 evaluated 8 written 16 gone 0\ndone 21\n",
    said: "",
    status: Status::Done,
};

static UNREAD_USAGE: Case = Case {
    words: "build x",
    script: b"",
    written: "",
    said: "usage: tokc build | replay | stats | gen SEED SIZE\n",
    status: Status::Usage,
};

// Each read of the source would fail.
#[test]
fn neither_gen_nor_other_words_read_the_source(rt: HostRuntime) {
    assert!(rt; runs_so(rt.alloc(), &GENERATED, &[1], &[]));
    assert!(rt; runs_so(rt.alloc(), &UNREAD_USAGE, &[1], &[]));
}

const TWO_COMMITS: &[u8] =
    b"tokc-script 1\nput tokens.json 2\n{}\ncommit\ndel tokens.json\ncommit\n";

/// The pieces of its stream, each with the number of the call that writes it.
static PIECES: [(u64, &str); 23] = [
    (1, "tokc-stream 1\n"),
    (2, "commit 1\n"),
    (3, "file default/Tokens.swift 37\n"),
    (4, "import UIKit\n\npublic enum Tokens {\n}\n"),
    (5, "\n"),
    (6, "file default/tokens.css 10\n"),
    (7, ":root {\n}\n"),
    (8, "\n"),
    (9, "file default/tokens.json 4\n"),
    (10, "{\n}\n"),
    (11, "\n"),
    (12, "file default/tokens.xml 64\n"),
    (
        13,
        r#"<?xml version="1.0" encoding="utf-8"?>
<resources>
</resources>
"#,
    ),
    (14, "\n"),
    (15, "commit 2\n"),
    (16, "file default/REFUSED 61\n"),
    (
        17,
        "rule file-missing\nfile tokens.json\nline 1 column 1\nbytes 0 0\n",
    ),
    (18, "\n"),
    (19, "gone default/Tokens.swift\n"),
    (20, "gone default/tokens.css\n"),
    (21, "gone default/tokens.json\n"),
    (22, "gone default/tokens.xml\n"),
    (23, "done 2\n"),
];

/// Two commits of a chain of three tokens.
const CHAIN: &[u8] = br#"tokc-script 1
put tokens.json 102
{"a":{"$value":"{b}"},"b":{"$value":"{c}"},"c":{"$type":"dimension","$value":{"value":4,"unit":"px"}}}
commit
put tokens.json 102
{"a":{"$value":"{b}"},"b":{"$value":"{c}"},"c":{"$type":"dimension","$value":{"value":5,"unit":"px"}}}
commit
"#;

/// The pieces of its stream, each with the number of the call that writes it.
static CHAIN_PIECES: [(u64, &str); 28] = [
    (1, "tokc-stream 1\n"),
    (2, "commit 1\n"),
    (3, "file default/Tokens.swift 148\n"),
    (
        4,
        "import UIKit\n\npublic enum Tokens {\n  public static let a: CGFloat = 4.0\n  public static let b: CGFloat = 4.0\n  public static let c: CGFloat = 4.0\n}\n",
    ),
    (5, "\n"),
    (6, "file default/tokens.css 56\n"),
    (
        7,
        ":root {\n  --a: var(--b);\n  --b: var(--c);\n  --c: 4px;\n}\n",
    ),
    (8, "\n"),
    (9, "file default/tokens.json 210\n"),
    (
        10,
        r#"{
  "a": {"$type": "dimension", "$value": {"value": 4, "unit": "px"}},
  "b": {"$type": "dimension", "$value": {"value": 4, "unit": "px"}},
  "c": {"$type": "dimension", "$value": {"value": 4, "unit": "px"}}
}
"#,
    ),
    (11, "\n"),
    (12, "file default/tokens.xml 154\n"),
    (
        13,
        r#"<?xml version="1.0" encoding="utf-8"?>
<resources>
  <dimen name="a">4dp</dimen>
  <dimen name="b">4dp</dimen>
  <dimen name="c">4dp</dimen>
</resources>
"#,
    ),
    (14, "\n"),
    (15, "commit 2\n"),
    (16, "file default/Tokens.swift 148\n"),
    (
        17,
        "import UIKit\n\npublic enum Tokens {\n  public static let a: CGFloat = 5.0\n  public static let b: CGFloat = 5.0\n  public static let c: CGFloat = 5.0\n}\n",
    ),
    (18, "\n"),
    (19, "file default/tokens.css 56\n"),
    (
        20,
        ":root {\n  --a: var(--b);\n  --b: var(--c);\n  --c: 5px;\n}\n",
    ),
    (21, "\n"),
    (22, "file default/tokens.json 210\n"),
    (
        23,
        r#"{
  "a": {"$type": "dimension", "$value": {"value": 5, "unit": "px"}},
  "b": {"$type": "dimension", "$value": {"value": 5, "unit": "px"}},
  "c": {"$type": "dimension", "$value": {"value": 5, "unit": "px"}}
}
"#,
    ),
    (24, "\n"),
    (25, "file default/tokens.xml 154\n"),
    (
        26,
        r#"<?xml version="1.0" encoding="utf-8"?>
<resources>
  <dimen name="a">5dp</dimen>
  <dimen name="b">5dp</dimen>
  <dimen name="c">5dp</dimen>
</resources>
"#,
    ),
    (27, "\n"),
    (28, "done 2\n"),
];

/// The pieces of the statistics of the first two commits.
static STATS_PIECES: [(u64, &str); 4] = [
    (1, "tokc-stats 1\n"),
    (
        2,
        "commit 1 parsed 1 merged 1 evaluated 0 written 4 gone 0\n",
    ),
    (
        3,
        "commit 2 parsed 0 merged 0 evaluated 0 written 1 gone 4\n",
    ),
    (4, "done 2\n"),
];

// Whether the run in which this write fails has written the pieces before it, and says so.
fn stops_at(alloc: Global, script: &[u8], word: &str, fails: u64, written: &[u8]) -> bool {
    let Ok(words) = words_of(alloc, word) else {
        return false;
    };
    let mut room = [0u8; 2000];
    let mut error_room = [0u8; 100];
    let numbers = [fails];
    let mut src = MemSource::new(script, &[]);
    let mut out = MemSink::new(&numbers, 2000, &mut room);
    let mut err = MemSink::new(&[], 100, &mut error_room);
    let ended = run(alloc, words.as_slice(), &mut src, &mut out, &mut err);
    let told = out.written() == written && err.written() == "tokc: write failed\n".as_bytes();
    told && ended == Status::WriteFault
}

fn check_writes(
    rt: &impl Abort,
    alloc: Global,
    script: &[u8],
    word: &str,
    pieces: &[(u64, &str)],
) -> Result<(), Fail> {
    let mut written = Vec::new(alloc);
    for (number, piece) in pieces {
        let stops = stops_at(alloc, script, word, *number, written.as_slice());
        assert!(rt; stops, "{word}: write {number}");
        written.extend_from_slice(piece.as_bytes())?;
    }
    Ok(())
}

#[test]
fn a_write_that_fails_leaves_the_pieces_before_it(rt: HostRuntime) -> Result<(), Fail> {
    check_writes(&rt, rt.alloc(), TWO_COMMITS, "replay", &PIECES)?;
    check_writes(&rt, rt.alloc(), TWO_COMMITS, "stats", &STATS_PIECES)?;
    check_writes(&rt, rt.alloc(), CHAIN, "replay", &CHAIN_PIECES)
}

// The status of a run over a source and sinks that never fail. None where memory ran out for its arguments.
fn clean(alloc: Global, line: &str, script: &[u8]) -> Option<Status> {
    let Ok(words) = words_of(alloc, line) else {
        return None;
    };
    let mut src = CleanSource::new(script);
    Some(run_clean(alloc, words.as_slice(), &mut src))
}

static CLEAN: [(&str, &[u8], Status); 5] = [
    ("replay", TWO_COMMITS, Status::Refused),
    ("stats", TWO_COMMITS, Status::Refused),
    ("stats", b"commit", Status::BadScript),
    ("gen 0 1", b"commit", Status::Done),
    ("gen 0 01", b"commit", Status::Usage),
];

#[test]
fn a_clean_run_ends_by_its_words_and_script(rt: HostRuntime) {
    for (i, (words, script, status)) in CLEAN.iter().enumerate() {
        let ended = clean(rt.alloc(), words, script);
        check_row(&rt, ended == Some(*status), i, words);
    }
}
