//! Reading the arguments of the command line.

ghost use Rattle.std.specs.Prelude.{◌≡◌, true, Some, None, Err, IfOk, map, string_bytes};
ghost use Rattle.command_words.specs.Words.{command_of};
ghost use Rattle.command_words.specs.inner.ClapWords.{is_ready};

use crate::finding::command_found;
use crate::grammar::tokc_command;
use crate::positional::is_ready;
use crate::{Command, WordStop};
use clap::error::ErrorKind;
use std::alloc::Global;

// The command that clap reads.
fn parse_words(alloc: Global, words: &[String]) -> Result<Command, WordStop>
    requires { is_ready (map string_bytes words.now) ≡ true }
    ensures ok { IfOk result (λ c. command_of (map string_bytes words.now) ≡ Some c) }
    ensures usage { result ≡ Err WordStop.Usage → command_of (map string_bytes words.now) ≡ None }
{
    let command = tokc_command(alloc)?;
    match command.try_get_matches_from(words) {
        Ok(matches) => match command_found(&matches) {
            Some(found) => Ok(found),
            None => Err(WordStop::Usage),
        },
        Err(error) => match error.kind() {
            ErrorKind::OutOfMemory => Err(WordStop::NoMemory),
            _ => Err(WordStop::Usage),
        },
    }
}

/// Reads the arguments of the command line, which are without the program's name: `build`, `replay`
/// or `stats` alone, or `gen` with a seed of 0 to 4,294,967,295 and a size of 1 to 4,000, each in
/// decimal digits without sign and without a leading zero but for `0` itself.
///
/// # Errors
/// `Usage` exactly where the arguments are none of these; `NoMemory`.
pub fn read_words(alloc: Global, words: &[String]) -> Result<Command, WordStop>
    ensures ok { IfOk result (λ c. command_of (map string_bytes words.now) ≡ Some c) }
    ensures usage { result ≡ Err WordStop.Usage → command_of (map string_bytes words.now) ≡ None }
{
    if !is_ready(words) {
        return Err(WordStop::Usage);
    }
    parse_words(alloc, words)
}
