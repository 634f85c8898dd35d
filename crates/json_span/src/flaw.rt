//! Flaws of texts that the grammar reads.

/// A flaw of a text that the grammar reads, with the offsets of a name's string or of a bracket.
#[derive(Clone, Copy)]
pub(crate) enum Flaw {
    /// The name repeats an earlier one of its object.
    Dup(usize, usize),
    /// The bracket opens one level too many.
    Deep(usize, usize),
}
