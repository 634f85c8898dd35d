//! Why a run ends before the store has the outputs.

ghost use Rattle.std.specs.Prelude.{◌≡◌};
ghost use Rattle.store_cli.specs.declared.stop.Stop.TheVariants.{NoMemory as OutOfMemory};
ghost use Rattle.store_cli.specs.inner.Ending.{of_load, of_read, of_script, of_sync};

use edit_script::ScriptStop;
use file_plan::LoadStop;
use out_store::SyncStop;
use tk_io::{NoMemory, ReadStop};

/// Why a run ends before the store has the outputs.
#[derive(Clone, Copy, PartialEq, Eq)]
pub(crate) enum Stop {
    /// The arguments are not one word.
    Usage,
    /// The script has no reading; it is refused at this byte.
    BadScript(usize),
    /// The script could not be read.
    ReadFault,
    /// Memory ran out.
    NoMemory,
    /// The script is longer than 67,108,864 bytes.
    TooLong,
    /// A call on the store failed.
    StoreFault,
    /// The store holds a gate without a manifest.
    BadManifest,
    /// The event with this number, counted from 1, does not fit what stands before it.
    BadEvent(usize),
}

impl From<NoMemory> for Stop {
    ghost from_gives = { λ _ e. e ≡ OutOfMemory };

    fn from(_: NoMemory) -> Stop {
        Stop::NoMemory
    }
}

impl From<ReadStop> for Stop {
    ghost from_gives = { λ s e. e ≡ of_read s };

    fn from(stop: ReadStop) -> Stop {
        match stop {
            ReadStop::ReadFault => Stop::ReadFault,
            ReadStop::TooLong => Stop::TooLong,
            ReadStop::NoMemory => Stop::NoMemory,
        }
    }
}

impl From<ScriptStop> for Stop {
    ghost from_gives = { λ s e. e ≡ of_script s };

    fn from(stop: ScriptStop) -> Stop {
        match stop {
            ScriptStop::BadScript(at) => Stop::BadScript(at),
            ScriptStop::NoMemory => Stop::NoMemory,
        }
    }
}

impl From<LoadStop> for Stop {
    ghost from_gives = { λ s e. e ≡ of_load s };

    fn from(stop: LoadStop) -> Stop {
        match stop {
            LoadStop::Unfit(number) => Stop::BadEvent(number),
            LoadStop::NoMemory => Stop::NoMemory,
        }
    }
}

impl From<SyncStop> for Stop {
    ghost from_gives = { λ s e. e ≡ of_sync s };

    fn from(stop: SyncStop) -> Stop {
        match stop {
            SyncStop::StoreFault => Stop::StoreFault,
            SyncStop::BadManifest(_) => Stop::BadManifest,
            SyncStop::NoMemory => Stop::NoMemory,
        }
    }
}
