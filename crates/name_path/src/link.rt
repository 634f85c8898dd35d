//! References that stand in a value and name a whole token.

use crate::{Kind, Path, Trail};
use tk_io::Sequence;

/// A reference without steps that stands in a value.
#[derive(Debug, Drop)]
pub struct Link<'s> {
    /// The steps to the reference from the whole value.
    pub trail: Trail<'s>,
    /// The path of the token that it names.
    pub target: Path<'s>,
    /// That token's kind, where it has one.
    pub kind: Option<Kind>,
}

/// The links of a value, in written order.
pub type Links<'s> = Sequence<Link<'s>>;
