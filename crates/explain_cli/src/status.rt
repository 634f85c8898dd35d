//! How a run ends.

ghost use Rattle.std.specs.Prelude.{◌≡◌, Some};
ghost use Rattle.explain_cli.specs.Explained.{status_by};
ghost use Rattle.explain_cli.specs.Report.{status_number};
ghost use Rattle.explain_cli.specs.inner.Ending.{status_of};

use crate::answer::Refusal;
use token_cli::Stop;

/// How a run ends.
#[derive(Clone, Copy, PartialEq, Eq)]
pub enum ExplainStatus {
    /// The certificate was written, or that one holds.
    Done,
    /// The configuration or the resolver document breaks a rule, or the permutation does.
    Refused,
    /// The arguments ask nothing.
    Usage,
    /// The script has no reading.
    BadScript,
    /// The script could not be read.
    ReadFault,
    /// The answer could not be written.
    WriteFault,
    /// Memory ran out.
    NoMemory,
    /// The script is longer than 67,108,864 bytes.
    TooLong,
    /// An event of the script does not fit what stands before it.
    BadEvent,
    /// No permutation has the name.
    NoPermutation,
    /// The place is not written.
    NoPlace,
    /// The file of the certificate is not there.
    NoFile,
    /// The file is no certificate, or one that does not hold.
    BadCertificate,
}

impl ExplainStatus {
    /// The number that the program ends with.
    pub fn number(self) -> u8
        ensures { result ≡ status_number self }
    {
        match self {
            ExplainStatus::Done => 0,
            ExplainStatus::Refused => 1,
            ExplainStatus::Usage => 2,
            ExplainStatus::BadScript => 3,
            ExplainStatus::ReadFault => 4,
            ExplainStatus::WriteFault => 5,
            ExplainStatus::NoMemory => 6,
            ExplainStatus::TooLong => 7,
            ExplainStatus::BadEvent => 9,
            ExplainStatus::NoPermutation => 10,
            ExplainStatus::NoPlace => 11,
            ExplainStatus::NoFile => 12,
            ExplainStatus::BadCertificate => 13,
        }
    }
}

// The status of a refusal.
fn status_by(why: Refusal) -> ExplainStatus
    ensures { result ≡ status_by (Some why) }
{
    match why {
        Refusal::NoFile => ExplainStatus::NoFile,
        Refusal::BadCertificate => ExplainStatus::BadCertificate,
        Refusal::Refused => ExplainStatus::Refused,
        Refusal::NoPermutation => ExplainStatus::NoPermutation,
        Refusal::NoPlace => ExplainStatus::NoPlace,
    }
}

/// The status of a run that wrote an answer, that has none, or that stopped.
pub(crate) fn status_of(ended: Result<Option<Refusal>, Stop>) -> ExplainStatus
    ensures { result ≡ status_of ended }
{
    match ended {
        Ok(None) => ExplainStatus::Done,
        Ok(Some(why)) => status_by(why),
        Err(Stop::Usage) => ExplainStatus::Usage,
        Err(Stop::BadScript(_)) => ExplainStatus::BadScript,
        Err(Stop::ReadFault) => ExplainStatus::ReadFault,
        Err(Stop::WriteFault) => ExplainStatus::WriteFault,
        Err(Stop::NoMemory) => ExplainStatus::NoMemory,
        Err(Stop::TooLong) => ExplainStatus::TooLong,
        Err(Stop::BadEvent(_)) => ExplainStatus::BadEvent,
    }
}
