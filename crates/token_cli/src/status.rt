//! How a run ends.

ghost use Rattle.std.specs.Prelude.{◌≡◌};
ghost use Rattle.token_cli.specs.inner.Ending.{status_of};
ghost use Rattle.token_cli.specs.Report.{status_number};

use crate::stop::Stop;

/// How a run ends.
#[derive(Clone, Copy, Debug, PartialEq, Eq)]
pub enum Status {
    /// All was written, and no refusal is held after the last commit.
    Done,
    /// All was written, and a refusal is held after the last commit.
    Refused,
    /// The arguments are none that are known.
    Usage,
    /// The script has no reading.
    BadScript,
    /// The script could not be read.
    ReadFault,
    /// The output could not be written.
    WriteFault,
    /// Memory ran out.
    NoMemory,
    /// The script is longer than 67,108,864 bytes.
    TooLong,
    /// An event of the script does not fit what stands before it.
    BadEvent,
}

impl Status {
    /// The number that the program ends with.
    pub fn number(self) -> u8
        ensures { result ≡ status_number self }
    {
        match self {
            Status::Done => 0,
            Status::Refused => 1,
            Status::Usage => 2,
            Status::BadScript => 3,
            Status::ReadFault => 4,
            Status::WriteFault => 5,
            Status::NoMemory => 6,
            Status::TooLong => 7,
            Status::BadEvent => 9,
        }
    }
}

/// The status of a run that wrote all, with or without a refusal held at its end, or that stopped.
pub fn status_of(ended: Result<bool, Stop>) -> Status
    ensures { result ≡ status_of ended }
{
    match ended {
        Ok(true) => Status::Refused,
        Ok(false) => Status::Done,
        Err(Stop::Usage) => Status::Usage,
        Err(Stop::BadScript(_)) => Status::BadScript,
        Err(Stop::ReadFault) => Status::ReadFault,
        Err(Stop::WriteFault) => Status::WriteFault,
        Err(Stop::NoMemory) => Status::NoMemory,
        Err(Stop::TooLong) => Status::TooLong,
        Err(Stop::BadEvent(_)) => Status::BadEvent,
    }
}
