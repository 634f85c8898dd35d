//! Buffers in which a token's names and lines are made.

ghost use Rattle.std.specs.Prelude.{◌≡◌, OnOk};
ghost use Rattle.css_out.specs.Fragment.{css_name};
ghost use Rattle.css_out.specs.Sources as on_css;
ghost use Rattle.android_out.specs.Spelling.{android_name};
ghost use Rattle.android_out.specs.Sheets as on_android;

use name_path::Path;
use std::alloc::Global;
use tk_io::{Bytes, NoMemory};
use transforms::{Config, Platform, write_name};

/// Buffers for a token's names and lines. They are used again for the next token, so that memory is seldom asked for.
#[derive(Drop)]
pub(crate) struct Drafts {
    /// The name on CSS.
    pub(crate) property: Bytes,
    /// The name on Android, which is that in Swift.
    pub(crate) identifier: Bytes,
    /// The lines of one platform.
    pub(crate) lines: Bytes,
}

impl Drafts {
    /// Buffers with nothing in them.
    pub(crate) fn new(alloc: Global) -> Drafts {
        Drafts {
            property: Bytes::new(alloc),
            identifier: Bytes::new(alloc),
            lines: Bytes::new(alloc),
        }
    }

    /// Writes the names of the token at the path in place of those that stand there.
    pub(crate) fn write_names(
        &mut self,
        alloc: Global,
        path: &Path<'_>,
        cfg: &Config,
    ) -> Result<(), NoMemory>
        ensures property { OnOk result ((self.new.property ≡ css_name cfg.now.prefix path.now)
            × on_css.IsNamed cfg.now path.now) }
        ensures identifier { OnOk result ((self.new.identifier ≡ android_name cfg.now path.now)
            × on_android.IsNamed cfg.now path.now) }
    {
        write_name(alloc, Platform::Css, path, cfg, &mut self.property)?;
        write_name(alloc, Platform::Android, path, cfg, &mut self.identifier)?;
        Ok(())
    }
}
