//! How a run ends.

ghost use Rattle.std.specs.Prelude.{◌≡◌};
ghost use Rattle.check_cli.specs.Report.{status_number};
ghost use Rattle.check_cli.specs.inner.Ending.{status_of};

use token_cli::Stop;

/// How a run ends.
#[derive(Clone, Copy, PartialEq, Eq)]
pub enum CheckStatus {
    /// The files have no break, and nothing was written.
    Done,
    /// The files have breaks, and all of them were written.
    Broken,
    /// There are arguments.
    Usage,
    /// The script has no reading.
    BadScript,
    /// The script could not be read.
    ReadFault,
    /// The breaks could not be written.
    WriteFault,
    /// Memory ran out.
    NoMemory,
    /// The script is longer than 67,108,864 bytes.
    TooLong,
    /// An event of the script does not fit what stands before it.
    BadEvent,
}

impl CheckStatus {
    /// The number that the program ends with.
    pub fn number(self) -> u8
        ensures { result ≡ status_number self }
    {
        match self {
            CheckStatus::Done => 0,
            CheckStatus::Broken => 1,
            CheckStatus::Usage => 2,
            CheckStatus::BadScript => 3,
            CheckStatus::ReadFault => 4,
            CheckStatus::WriteFault => 5,
            CheckStatus::NoMemory => 6,
            CheckStatus::TooLong => 7,
            CheckStatus::BadEvent => 9,
        }
    }
}

/// The status of a run that wrote all breaks, of which there are some or none, or that stopped.
pub(crate) fn status_of(ended: Result<bool, Stop>) -> CheckStatus
    ensures { result ≡ status_of ended }
{
    match ended {
        Ok(true) => CheckStatus::Broken,
        Ok(false) => CheckStatus::Done,
        Err(Stop::Usage) => CheckStatus::Usage,
        Err(Stop::BadScript(_)) => CheckStatus::BadScript,
        Err(Stop::ReadFault) => CheckStatus::ReadFault,
        Err(Stop::WriteFault) => CheckStatus::WriteFault,
        Err(Stop::NoMemory) => CheckStatus::NoMemory,
        Err(Stop::TooLong) => CheckStatus::TooLong,
        Err(Stop::BadEvent(_)) => CheckStatus::BadEvent,
    }
}
