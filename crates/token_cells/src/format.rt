//! The files that a permutation gives.

ghost use Rattle.std.specs.Prelude.{◌≡◌};
ghost use Rattle.transforms.specs.View.{frame_view};
ghost use Rattle.token_cells.specs.Sheets.{frame_for};

use transforms::Frame;

/// A file for each platform, and one for programs.
#[derive(Clone, Copy, Debug, PartialEq, Eq)]
pub enum Format {
    Css,
    Android,
    Swift,
    Json,
}

impl Format {
    /// What stands around the fragments of tokens.
    pub(crate) fn frame(self) -> Frame
        ensures { frame_view result ≡ frame_for self }
    {
        match self {
            Format::Css => css_out::frame(),
            Format::Android => android_out::frame(),
            Format::Swift => ios_out::frame(),
            Format::Json => json_out::frame(),
        }
    }
}
