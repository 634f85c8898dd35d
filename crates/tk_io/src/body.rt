//! Bytes that are held in several places.

ghost use Rattle.std.specs.Prelude.{◌≡◌, IfOk};

use crate::{Bytes, NoMemory};
use std::marker::Model;
use std::rc::Rc;

/// Bytes that grow no more, in one place or more: a further place is a count and no copy.
#[derive(Debug, Drop)]
pub struct Body {
    bytes: Rc<Bytes>,
}

impl Model for Body {
    ghost use Rattle.std.specs.Prelude.{List, ℕ};

    ghost Value = { List ℕ };

    ghost view = { λ b. b.bytes.value };
}

impl Body {
    /// The bytes, in one place. Where memory runs out they are dropped.
    pub fn new(bytes: Bytes) -> Result<Body, NoMemory>
        ensures { IfOk result (λ body. body ≡ bytes) }
    {
        let alloc = bytes.allocator();
        let bytes = Rc::new(alloc, bytes)?;
        Ok(Body { bytes })
    }

    /// The same bytes, in one place more.
    pub fn share(&self) -> Result<Body, NoMemory>
        ensures { IfOk result (λ body. body ≡ self.now) }
    {
        let bytes = self.bytes.clone()?;
        Ok(Body { bytes })
    }

    /// The bytes.
    pub fn as_slice(&self) -> &[u8]
        ensures { result.now ≡ self.now }
    {
        self.bytes.as_slice()
    }
}
