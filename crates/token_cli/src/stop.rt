//! Why a run ends before all is written.

ghost use Rattle.std.specs.Prelude.{◌≡◌};
ghost use Rattle.token_cli.specs.declared.stop.Stop.TheVariants.{NoMemory as OutOfMemory};
ghost use Rattle.token_cli.specs.declared.stop.Stop.TheVariants.{WriteFault as Faulted};
ghost use Rattle.token_cli.specs.inner.Causes.{of_load, of_read, of_script, of_words};

use command_words::WordStop;
use edit_script::ScriptStop;
use file_plan::LoadStop;
use tk_io::{Failed, NoMemory, ReadStop};

/// Why a run ends before all is written.
#[derive(Clone, Copy, Debug, PartialEq, Eq)]
pub enum Stop {
    /// The arguments are none that the program has.
    Usage,
    /// The script has no reading; it is refused at this byte.
    BadScript(usize),
    /// The script could not be read.
    ReadFault,
    /// The output could not be written.
    WriteFault,
    /// Memory ran out.
    NoMemory,
    /// The script is longer than 67,108,864 bytes.
    TooLong,
    /// The event with this number, counted from 1, does not fit what stands before it.
    BadEvent(usize),
}

impl From<NoMemory> for Stop {
    ghost from_gives = { λ _ e. e ≡ OutOfMemory };

    fn from(_: NoMemory) -> Stop {
        Stop::NoMemory
    }
}

impl From<Failed> for Stop {
    ghost from_gives = { λ _ e. e ≡ Faulted };

    fn from(_: Failed) -> Stop {
        Stop::WriteFault
    }
}

impl From<ReadStop> for Stop {
    ghost from_gives = { λ s e. e ≡ of_read s };

    fn from(stop: ReadStop) -> Stop {
        match stop {
            ReadStop::ReadFault => Stop::ReadFault,
            ReadStop::TooLong => Stop::TooLong,
            ReadStop::NoMemory => Stop::NoMemory,
        }
    }
}

impl From<ScriptStop> for Stop {
    ghost from_gives = { λ s e. e ≡ of_script s };

    fn from(stop: ScriptStop) -> Stop {
        match stop {
            ScriptStop::BadScript(at) => Stop::BadScript(at),
            ScriptStop::NoMemory => Stop::NoMemory,
        }
    }
}

impl From<LoadStop> for Stop {
    ghost from_gives = { λ s e. e ≡ of_load s };

    fn from(stop: LoadStop) -> Stop {
        match stop {
            LoadStop::Unfit(number) => Stop::BadEvent(number),
            LoadStop::NoMemory => Stop::NoMemory,
        }
    }
}

impl From<WordStop> for Stop {
    ghost from_gives = { λ s e. e ≡ of_words s };

    fn from(stop: WordStop) -> Stop {
        match stop {
            WordStop::Usage => Stop::Usage,
            WordStop::NoMemory => Stop::NoMemory,
        }
    }
}
