//! Which command clap's matches show.

ghost use Rattle.std.specs.Prelude.{◌≡◌, Some, codes, option_map};
ghost use Rattle.clap.specs.Matches.{found_of};
ghost use Rattle.clap.specs.Simple.{subcommand_rows_of};
ghost use Rattle.clap.specs.Walk.{first_of, rows_of};
ghost use Rattle.command_words.specs.inner.ClapWords.{command_in, gen_in};

use crate::Command;
use crate::command::{GREATEST_SEED, MOST_TOKENS};
use crate::number::decimal_within;
use clap::ArgMatches;

// The value of the argument.
fn value_of<'a>(inner: &ArgMatches<'a>, id: &str) -> Option<&'a str>
    ensures { option_map (λ s. s.now) result ≡ first_of id.now (rows_of (found_of inner.now)) }
{
    inner.get_str(id)
}

fn gen_found(inner: &ArgMatches<'_>) -> Option<Command>
    ensures { result ≡ gen_in (first_of (codes "seed") (rows_of (found_of inner.now)))
        (first_of (codes "size") (rows_of (found_of inner.now))) }
{
    let seed = value_of(inner, "seed")?;
    let size = value_of(inner, "size")?;
    let seed = decimal_within(0, GREATEST_SEED, seed)?;
    let size = decimal_within(1, MOST_TOKENS, size)?;
    Some(Command::Gen(seed, size))
}

// The command of this name with these arguments.
fn command_named(name: &str, inner: &ArgMatches<'_>) -> Option<Command>
    ensures { result ≡ command_in (Some (name.now, rows_of (found_of inner.now))) }
{
    if name == "build" {
        Some(Command::Build)
    } else if name == "replay" {
        Some(Command::Replay)
    } else if name == "stats" {
        Some(Command::Stats)
    } else {
        gen_found(inner)
    }
}

/// The command that the matches show; none where the numbers of `gen` are not spelled or not in their bounds.
pub(crate) fn command_found(matches: &ArgMatches<'_>) -> Option<Command>
    ensures { result ≡ command_in (subcommand_rows_of matches.now) }
{
    match matches.subcommand() {
        Some((name, inner)) => command_named(name, inner),
        None => None,
    }
}
