//! Arguments of command lines, and the command that each list is.

use crate::checks::check_at;
use command_words::{Command, WordStop, read_words};
use std::alloc::{AllocError, Global};
use std::test::Fail;

fn words_of(alloc: Global, words: &[&str]) -> Result<Vec<String>, AllocError> {
    let mut owned = Vec::new(alloc);
    for word in words {
        owned.push(String::from_str(alloc, word)?)?;
    }
    Ok(owned)
}

// Whether the arguments are this command, or where it is none are refused.
fn are_read_as(alloc: Global, words: &[&str], expected: Option<Command>) -> bool {
    let Ok(owned) = words_of(alloc, words) else {
        return false;
    };
    match read_words(alloc, owned.as_slice()) {
        Ok(command) => expected == Some(command),
        Err(WordStop::Usage) => expected.is_none(),
        Err(WordStop::NoMemory) => false,
    }
}

const READ: &[(&[&str], Command)] = &[
    (&["build"], Command::Build),
    (&["replay"], Command::Replay),
    (&["stats"], Command::Stats),
    (&["gen", "7", "500"], Command::Gen(7, 500)),
    (&["gen", "0", "1"], Command::Gen(0, 1)),
    (
        &["gen", "4294967295", "4000"],
        Command::Gen(4_294_967_295, 4_000),
    ),
];

#[test]
fn words_are_read(rt: HostRuntime) {
    for (i, (words, command)) in READ.iter().enumerate() {
        check_at(&rt, are_read_as(rt.alloc(), words, Some(*command)), i);
    }
}

const REFUSED: &[&[&str]] = &[
    &[],
    &[""],
    &["-h"],
    &["--version"],
    &["help"],
    &["Build"],
    &["build "],
    &["build", "x"],
    &["build", ""],
    &["build", "--help"],
    &["replay", "replay"],
    &["stats", "a", "b", "c", "d"],
    &["gen"],
    &["gen", "7"],
    &["gen", "7", ""],
    &["gen", "", "7"],
    &["gen", "07", "1"],
    &["gen", "7", "01"],
    &["gen", "+7", "1"],
    &["gen", "-7", "1"],
    &["gen", "7", "0"],
    &["gen", "7", "4001"],
    &["gen", "4294967296", "1"],
    &["gen", "18446744073709551623", "1"],
    &["gen", "0x7", "1"],
    &["gen", "7", "1", "1"],
    &["gen", "7", "-h"],
    &["gen", "--", "7", "1"],
];

#[test]
fn other_words_are_refused(rt: HostRuntime) {
    for (i, words) in REFUSED.iter().enumerate() {
        check_at(&rt, are_read_as(rt.alloc(), words, None), i);
    }
}

#[test]
fn a_refusal_says_the_usage(rt: HostRuntime) -> Result<(), Fail> {
    let said = format!(in rt.alloc(); "{}", WordStop::Usage)?;
    let usage = "usage: tokc build | replay | stats | gen SEED SIZE";
    assert!(rt; said.as_str() == usage);
    Ok(())
}
