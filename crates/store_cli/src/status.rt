//! How a run ends.

ghost use Rattle.std.specs.Prelude.{◌≡◌};
ghost use Rattle.store_cli.specs.Report.{status_number};
ghost use Rattle.store_cli.specs.inner.Ending.{status_of};

use crate::stop::Stop;

/// How a run ends.
#[derive(Clone, Copy, PartialEq, Eq)]
pub enum StoreStatus {
    /// The store has the outputs, and none of them is a refusal.
    Done,
    /// The store has the outputs, and one of them is a refusal.
    Refused,
    /// The arguments are not one word.
    Usage,
    /// The script has no reading.
    BadScript,
    /// The script could not be read.
    ReadFault,
    /// Memory ran out.
    NoMemory,
    /// The script is longer than 67,108,864 bytes.
    TooLong,
    /// A call on the store failed.
    StoreFault,
    /// The store holds a gate without a manifest.
    BadManifest,
    /// An event of the script does not fit what stands before it.
    BadEvent,
}

impl StoreStatus {
    /// The number that the program ends with.
    pub fn number(self) -> u8
        ensures { result ≡ status_number self }
    {
        match self {
            StoreStatus::Done => 0,
            StoreStatus::Refused => 1,
            StoreStatus::Usage => 2,
            StoreStatus::BadScript => 3,
            StoreStatus::ReadFault => 4,
            StoreStatus::NoMemory => 6,
            StoreStatus::TooLong => 7,
            StoreStatus::StoreFault => 10,
            StoreStatus::BadManifest => 11,
            StoreStatus::BadEvent => 9,
        }
    }
}

/// The status of a run that brought the store to the outputs, with or without a refusal among them, or that stopped.
pub(crate) fn status_of(ended: Result<bool, Stop>) -> StoreStatus
    ensures { result ≡ status_of ended }
{
    match ended {
        Ok(true) => StoreStatus::Refused,
        Ok(false) => StoreStatus::Done,
        Err(Stop::Usage) => StoreStatus::Usage,
        Err(Stop::BadScript(_)) => StoreStatus::BadScript,
        Err(Stop::ReadFault) => StoreStatus::ReadFault,
        Err(Stop::NoMemory) => StoreStatus::NoMemory,
        Err(Stop::TooLong) => StoreStatus::TooLong,
        Err(Stop::StoreFault) => StoreStatus::StoreFault,
        Err(Stop::BadManifest) => StoreStatus::BadManifest,
        Err(Stop::BadEvent(_)) => StoreStatus::BadEvent,
    }
}
