//! Commands, and why arguments are none.

ghost use Rattle.std.specs.Prelude.{◌≡◌};
ghost use Rattle.command_words.specs.declared.command.WordStop.TheVariants as stops;

use std::alloc::AllocError;
use thiserror::Error;

/// The greatest seed of a generated script.
pub const GREATEST_SEED: u32 = 4_294_967_295;

/// The most tokens that a generated script has.
pub const MOST_TOKENS: u32 = 4_000;

/// What the arguments of a command line ask for.
#[derive(Clone, Copy, Debug, PartialEq, Eq)]
pub enum Command {
    /// The stream of the script as if its commits were taken out and one stood at its end.
    Build,
    /// The stream of the script.
    Replay,
    /// The statistics of the script.
    Stats,
    /// The statistics of the script that is generated from a seed and a number of tokens, which is 1 to 4,000.
    Gen(u32, u32),
}

/// Why arguments give no command.
#[derive(Debug, Drop, Error)]
pub enum WordStop {
    /// The arguments are no command.
    #[error("usage: tokc build | replay | stats | gen SEED SIZE")]
    Usage,
    /// Memory ran out.
    #[error("out of memory")]
    NoMemory,
}

impl From<AllocError> for WordStop {
    ghost from_gives = { λ _ e. e ≡ stops.NoMemory };

    fn from(_: AllocError) -> WordStop {
        WordStop::NoMemory
    }
}
