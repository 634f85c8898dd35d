//! The versions of scripts.

/// The version of a script, as its first line tells it.
#[derive(Clone, Copy, Debug, PartialEq, Eq)]
pub enum Version {
    /// `tokc-script 1`: files are put and given up.
    First,
    /// `tokc-script 2`: they are moved and patched too.
    Second,
}
