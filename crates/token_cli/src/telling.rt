//! How commits are told.

/// How the commits of a script are told.
#[derive(Clone, Copy, Debug, PartialEq, Eq)]
pub enum Telling {
    /// By the records of what changed: the stream.
    Records,
    /// By how much was done, and how many outputs were written and given up: the statistics.
    Numbers,
}
