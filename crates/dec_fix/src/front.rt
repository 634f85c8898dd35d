//! A short text that grows at its beginning.

ghost use Rattle.std.specs.Prelude.{◌≡◌, ◌≤◌, ◌<◌, ℕ, List, [], ◌∷◌, length, drop};
ghost use Rattle.dec_fix.specs.declared.front.TheConstants.{ROOM};

use std::marker::Model;

/// The most bytes of a text; a number needs fewer.
const ROOM: usize = 80;

/// A text of at most `ROOM` bytes.
#[derive(Drop)]
pub(crate) struct Front {
    bytes: [u8; ROOM],
    at: usize,
}

impl Model for Front {
    ghost Value = { List ℕ };

    ghost view = { λ f. drop f.at f.bytes };

    ghost invariant = { λ f. f.at ≤ ROOM };
}

impl Front {
    pub(crate) fn new() -> Front
        ensures { result ≡ [] }
    {
        Front {
            bytes: [0; ROOM],
            at: ROOM,
        }
    }

    /// Puts a byte before the rest.
    pub(crate) fn put(&mut self, byte: u8)
        requires { length self.old < ROOM }
        ensures { self.new ≡ byte ∷ self.old }
    {
        self.at -= 1;
        self.bytes[self.at] = byte;
    }

    pub(crate) fn as_slice(&self) -> &[u8]
        ensures { result.now ≡ self.now }
    {
        &self.bytes[self.at..]
    }
}
