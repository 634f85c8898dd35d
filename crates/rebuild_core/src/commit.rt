//! What a commit tells.

use tk_io::Outputs;

/// How much a commit did.
#[derive(Clone, Copy, Debug)]
pub struct Counts {
    /// The files in use that were read: those that were not in use before with an equal text.
    pub parsed: u64,
    /// The permutations whose sources were merged: those without a break in a source whose sources hold other than before.
    pub merged: u64,
    /// The tokens that were evaluated: of each permutation those that a change since its tree before reaches.
    pub evaluated: u64,
}

/// What a commit did, and the outputs that were held before it.
#[derive(Debug, Drop)]
pub struct Commit {
    pub counts: Counts,
    pub before: Outputs,
}
