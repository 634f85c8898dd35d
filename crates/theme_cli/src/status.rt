//! How a run ends.

ghost use Rattle.std.specs.Prelude.{◌≡◌};
ghost use Rattle.theme_cli.specs.Report.{status_number};
ghost use Rattle.theme_cli.specs.inner.Ending.{status_of};

use crate::answer::ThemeAnswer;
use token_cli::Stop;

/// How a run ends.
#[derive(Clone, Copy, PartialEq, Eq)]
pub enum ThemeStatus {
    /// The sheet was written.
    Done,
    /// The files have a refusal, and nothing was written.
    Refused,
    /// There are arguments.
    Usage,
    /// The script has no reading.
    BadScript,
    /// The script could not be read.
    ReadFault,
    /// The sheet could not be written.
    WriteFault,
    /// Memory ran out.
    NoMemory,
    /// The script is longer than 67,108,864 bytes.
    TooLong,
    /// An event of the script does not fit what stands before it.
    BadEvent,
    /// No selector can hold the name of a modifier or of a context, and nothing was written.
    Name,
}

impl ThemeStatus {
    /// The number that the program ends with.
    pub fn number(self) -> u8
        ensures { result ≡ status_number self }
    {
        match self {
            ThemeStatus::Done => 0,
            ThemeStatus::Refused => 1,
            ThemeStatus::Usage => 2,
            ThemeStatus::BadScript => 3,
            ThemeStatus::ReadFault => 4,
            ThemeStatus::WriteFault => 5,
            ThemeStatus::NoMemory => 6,
            ThemeStatus::TooLong => 7,
            ThemeStatus::BadEvent => 9,
            ThemeStatus::Name => 10,
        }
    }
}

/// The status of a run that came to an answer, or that stopped.
pub(crate) fn status_of(ended: &Result<ThemeAnswer, Stop>) -> ThemeStatus
    ensures { result ≡ status_of ended.now }
{
    match ended {
        Ok(ThemeAnswer::Sheet(_)) => ThemeStatus::Done,
        Ok(ThemeAnswer::Refused(_)) => ThemeStatus::Refused,
        Ok(ThemeAnswer::Name(_)) => ThemeStatus::Name,
        Err(Stop::Usage) => ThemeStatus::Usage,
        Err(Stop::BadScript(_)) => ThemeStatus::BadScript,
        Err(Stop::ReadFault) => ThemeStatus::ReadFault,
        Err(Stop::WriteFault) => ThemeStatus::WriteFault,
        Err(Stop::NoMemory) => ThemeStatus::NoMemory,
        Err(Stop::TooLong) => ThemeStatus::TooLong,
        Err(Stop::BadEvent(_)) => ThemeStatus::BadEvent,
    }
}
