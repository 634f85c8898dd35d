//! What stands beside a token's value.

use token_tree::Mark;

/// What only JSON shows of a token, beside its type and value (Format Module 2025.10, properties of tokens).
#[derive(Debug, Drop)]
pub struct Extras<'a> {
    /// `$description`, where given.
    pub description: Option<&'a str>,
    /// The object under `$extensions` as its source spells it, where given.
    pub extensions: Option<&'a str>,
    /// Whether the token is deprecated, by itself or by a group around it.
    pub mark: Mark<'a>,
}
