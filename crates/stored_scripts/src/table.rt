//! The table of scripts. A row is the line `row STATUS ARGUMENTS`, the line of its name, the recipe of its script and that of its
//! stream, and where the status is above 1, that of what is said. A recipe is a list of steps that the line `end` closes. A step is
//! the line `FIRST LAST LEN`, LEN bytes and a newline.
//!
//! In the table of stores a row is the line `store DROPS TORN FAILS`, the line of its name, and a list of runs that the line `end`
//! closes. A run is the line `run STATUS PATHS`, the recipe of its script, and steps of what the store has to hold after it.

use std::str;

/// What is left of a table.
#[derive(Drop)]
pub(crate) struct Table<'a> {
    left: &'a [u8],
}

/// What stands before the recipes of a row: the number of the status, the arguments with a blank between them, and the name.
#[derive(Clone, Copy)]
pub(crate) struct Head<'a> {
    pub(crate) status: usize,
    pub(crate) words: &'a str,
    pub(crate) name: &'a str,
}

/// A text that is appended once for each number from the first to the last.
#[derive(Clone, Copy)]
pub(crate) struct Step<'a> {
    pub(crate) first: usize,
    pub(crate) last: usize,
    pub(crate) text: &'a str,
}

/// What stands before the runs of a store: whether a remove that fails takes the path away, what a write that fails leaves, the
/// numbers of the calls that fail with a blank between them, and the name.
#[derive(Clone, Copy)]
pub(crate) struct StoreHead<'a> {
    pub(crate) drops: bool,
    pub(crate) torn: &'a str,
    pub(crate) fails: &'a str,
    pub(crate) name: &'a str,
}

/// How a run over a store ends, and how many paths it leaves.
#[derive(Clone, Copy)]
pub(crate) struct RunHead {
    pub(crate) status: usize,
    pub(crate) paths: usize,
}

/// What the runs of a store go on with.
#[derive(Clone, Copy)]
pub(crate) enum RunPart {
    Run(RunHead),
    End,
}

/// What a recipe goes on with.
#[derive(Clone, Copy)]
pub(crate) enum Part<'a> {
    Step(Step<'a>),
    End,
}

/// Where the first line ends; at the end where there is no newline.
fn line_end(bytes: &[u8]) -> usize {
    for (place, byte) in bytes.iter().enumerate() {
        if *byte == b'\n' {
            return place;
        }
    }
    bytes.len()
}

fn number(word: Option<&str>) -> Option<usize> {
    word?.parse::<usize>().ok()
}

impl<'a> Table<'a> {
    pub(crate) fn new(bytes: &'a [u8]) -> Table<'a> {
        Table { left: bytes }
    }

    /// Takes so many bytes and the newline behind them.
    fn text(&mut self, len: usize) -> Option<&'a str> {
        let (text, rest) = self.left.split_at_checked(len)?;
        let (_, rest) = rest.split_at_checked(1)?;
        self.left = rest;
        str::from_utf8(text).ok()
    }

    /// Takes a line.
    fn line(&mut self) -> Option<&'a str> {
        self.text(line_end(self.left))
    }

    /// Takes what stands before the recipes of a row. None where the table goes on with no row.
    pub(crate) fn head(&mut self) -> Option<Head<'a>> {
        let (status, words) = self.line()?.strip_prefix("row ")?.split_once(' ')?;
        let status = number(Some(status))?;
        let name = self.line()?;
        Some(Head {
            status,
            words,
            name,
        })
    }

    /// Takes what stands before the runs of a store. None where the table goes on with no store.
    pub(crate) fn store(&mut self) -> Option<StoreHead<'a>> {
        let (drops, rest) = self.line()?.strip_prefix("store ")?.split_once(' ')?;
        let (torn, fails) = rest.split_once(' ')?;
        let name = self.line()?;
        Some(StoreHead {
            drops: drops == "true",
            torn,
            fails,
            name,
        })
    }

    /// Takes what the runs of a store go on with. None where it is neither a run's first line nor their end.
    pub(crate) fn run(&mut self) -> Option<RunPart> {
        let line = self.line()?;
        if line == "end" {
            return Some(RunPart::End);
        }
        let (status, paths) = line.strip_prefix("run ")?.split_once(' ')?;
        let status = number(Some(status))?;
        let paths = number(Some(paths))?;
        Some(RunPart::Run(RunHead { status, paths }))
    }

    /// Takes what a recipe goes on with. None where it is neither a step nor the recipe's end.
    pub(crate) fn part(&mut self) -> Option<Part<'a>> {
        let line = self.line()?;
        if line == "end" {
            return Some(Part::End);
        }
        let mut words = line.split(' ');
        let first = number(words.next())?;
        let last = number(words.next())?;
        let text = self.text(number(words.next())?)?;
        Some(Part::Step(Step { first, last, text }))
    }
}
