//! The platforms whose code names tokens.

ghost use Rattle.std.specs.Prelude.{◌≡◌};
ghost use Rattle.transforms.specs.PlatformName.{joint, is_kept};

/// A platform whose code names tokens.
#[derive(Clone, Copy, Debug, PartialEq, Eq)]
pub enum Platform {
    Css,
    Android,
    Swift,
}

impl Platform {
    /// What joins the pieces of a name, and stands for an ASCII character that a name cannot hold.
    pub(crate) fn joint(self) -> u8
        ensures { result ≡ joint self }
    {
        match self {
            Platform::Css => b'-',
            Platform::Android => b'_',
            Platform::Swift => b'_',
        }
    }

    /// Whether a name can hold the character.
    pub(crate) fn keeps(self, byte: u8) -> bool
        ensures { result ≡ is_kept self byte }
    {
        // Most bytes of names are letters.
        if byte.is_ascii_alphabetic() {
            return true;
        }
        byte.is_ascii_digit() || byte == b'_' || byte == self.joint()
    }
}
