//! The run of a row's script, compared with its stream and with what is said.

use crate::recipe::{Unrun, append_recipe};
use crate::table::{Head, Table};
use std::alloc::{AllocError, Global};
use tk_io::{Bytes, MemSink, MemSource};
use token_cli::run;

/// The greatest status with which nothing is said.
const MOST_SILENT: usize = 1;

// Arguments that stand between blanks.
fn words_of(alloc: Global, line: &str) -> Result<Vec<String>, AllocError> {
    let mut words = Vec::new(alloc);
    for word in line.split(' ') {
        words.push(String::from_str(alloc, word)?)?;
    }
    Ok(words)
}

/// Whether the run of the script writes the stream into the room, says what it is to say and ends with the status.
fn ends_so(
    alloc: Global,
    words: &[String],
    status: usize,
    script: &[u8],
    stream: &[u8],
    said: &[u8],
    room: &mut [u8],
) -> bool {
    let mut error_room = [0u8; 100];
    let mut src = MemSource::new(script, &[]);
    let mut out = MemSink::new(&[], usize::MAX, room);
    let mut err = MemSink::new(&[], usize::MAX, &mut error_room);
    let ended = run(alloc, words, &mut src, &mut out, &mut err);
    ended.number() as usize == status && out.written() == stream && err.written() == said
}

/// The same of a row, whose stream could have one byte more.
fn is_answered(
    alloc: Global,
    head: &Head<'_>,
    script: &[u8],
    stream: &[u8],
    said: &[u8],
) -> Result<bool, Unrun> {
    let Ok(words) = words_of(alloc, head.words) else {
        return Err(Unrun::NoMemory);
    };
    let Ok(mut room) = vec![in alloc; 0u8; stream.len().saturating_add(1)] else {
        return Err(Unrun::NoMemory);
    };
    let status = head.status;
    Ok(ends_so(
        alloc,
        words.as_slice(),
        status,
        script,
        stream,
        said,
        room.as_mut_slice(),
    ))
}

/// Whether the row with whose recipes the table goes on is answered as it is stored.
pub(crate) fn run_row(
    alloc: Global,
    head: &Head<'_>,
    table: &mut Table<'_>,
) -> Result<bool, Unrun> {
    let mut script = Bytes::new(alloc);
    append_recipe(&mut script, table)?;
    let mut stream = Bytes::new(alloc);
    append_recipe(&mut stream, table)?;
    let mut said = Bytes::new(alloc);
    if head.status > MOST_SILENT {
        append_recipe(&mut said, table)?;
    }
    is_answered(
        alloc,
        head,
        script.as_slice(),
        stream.as_slice(),
        said.as_slice(),
    )
}
