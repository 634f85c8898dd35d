//! Places in the values of tokens.

ghost use Rattle.std.specs.Prelude.{◌≡◌, IfOk};

use crate::{Path, Trail};
use tk_io::{NoMemory, Sequence};

/// A place: a token and the steps into its written value. Places are ordered by token and then by trail.
#[derive(Debug, PartialEq, Eq, PartialOrd, Ord, Drop)]
pub struct Place<'s> {
    /// The token's path.
    pub token: Path<'s>,
    /// The steps from the token's whole value.
    pub trail: Trail<'s>,
}

/// Places in the order in which each leads to the next and the last to the first.
pub type Ring<'s> = Sequence<Place<'s>>;

impl<'s> Place<'s> {
    /// The same place, which shares its names and steps.
    pub fn copy(&self) -> Result<Place<'s>, NoMemory>
        ensures { IfOk result (λ p. p ≡ self.now) }
    {
        let token = self.token.copy()?;
        let trail = self.trail.copy()?;
        Ok(Place { token, trail })
    }
}
