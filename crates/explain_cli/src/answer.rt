//! Why a question has no answer.

/// Why nothing is written of a question.
#[derive(Clone, Copy, PartialEq, Eq)]
pub enum Refusal {
    /// The file of the certificate is not there.
    NoFile,
    /// The text of that file is no certificate, or one that does not hold.
    BadCertificate,
    /// The configuration or the resolver document breaks a rule, or the permutation does.
    Refused,
    /// No permutation has the name.
    NoPermutation,
    /// The place is not written in the permutation.
    NoPlace,
}
