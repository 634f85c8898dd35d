//! Sheets of fragments.

ghost use Rattle.std.specs.Prelude.{◌≡◌, [], IfOk, OnOk, OnErr};
ghost use Rattle.tk_io.specs.Writing.{Extends};
ghost use Rattle.transforms.specs.Extent.{EndsWith};
ghost use Rattle.transforms.specs.Sheet.{Holds, Gains, IsSheetText};
ghost use Rattle.transforms.specs.View.{frame_view};
ghost use Rattle.transforms.specs.inner.Glue.{behind_glue, OnlyTextGrows};

use crate::Extent;
use std::alloc::Global;
use std::marker::Model;
use tk_io::{Bytes, NoMemory};

/// What stands around the bodies of a sheet: before all, between each two, after the last where there is one, and at the
/// end.
#[derive(Clone, Copy, Debug)]
pub struct Frame {
    pub head: &'static [u8],
    pub glue: &'static [u8],
    pub last: &'static [u8],
    pub tail: &'static [u8],
}

/// A sheet that grows in one buffer.
#[derive(Debug, Drop)]
pub struct Sheet {
    frame: Frame,
    text: Bytes,
    has_body: bool,
}

impl Model for Sheet {
    ghost use Rattle.transforms.specs.Sheet.{OpenSheet};
    ghost use Rattle.transforms.specs.View.{frame_view};

    ghost Value = { OpenSheet };

    ghost view = { λ s.
        record { frame = frame_view s.frame; text = s.text; has_body = s.has_body } };
}

impl Sheet {
    /// A sheet without a body, with room for this many bytes, which decides only how often memory is asked for.
    pub fn start(alloc: Global, frame: Frame, room: usize) -> Result<Sheet, NoMemory>
        ensures { IfOk result (λ sheet. Holds sheet (frame_view frame) []) }
    {
        let mut text = Bytes::with_room(alloc, room)?;
        text.append(frame.head)?;
        Ok(Sheet {
            frame,
            text,
            has_body: false,
        })
    }

    // The glue, where a body stands before it.
    fn append_glue(&mut self) -> Result<(), NoMemory>
        ensures ok { OnOk result (self.new ≡ behind_glue self.old) }
        ensures err { OnErr result (self.new ≡ self.old) }
    {
        if !self.has_body || self.frame.glue.is_empty() {
            return Ok(());
        }
        self.text.append(self.frame.glue)
    }

    // The body behind the glue. Where memory runs out, the glue may stay.
    fn append_glued(&mut self, body: &[u8]) -> Result<Extent, NoMemory>
        ensures ok { OnOk result (Gains self.old self.new body.now) }
        ensures there { IfOk result
            (λ extent. EndsWith self.old.text body.now extent self.new.text) }
        ensures err { OnErr result (OnlyTextGrows self.old self.new) }
    {
        self.append_glue()?;
        let Some(extent) = Extent::from(self.text.len(), body.len()) else {
            return Err(NoMemory);
        };
        self.text.append(body)?;
        self.has_body = true;
        Ok(extent)
    }

    /// Adds the body at the end, after the glue where there is a body before it, and says where it stands. Where memory
    /// runs out the sheet stays; it has less than 4 GiB.
    pub fn add_body(&mut self, body: &[u8]) -> Result<Extent, NoMemory>
        ensures ok { OnOk result (Gains self.old self.new body.now) }
        ensures there { IfOk result
            (λ extent. EndsWith self.old.text body.now extent self.new.text) }
        ensures err { OnErr result (self.new ≡ self.old) }
    {
        let start = self.text.len();
        match self.append_glued(body) {
            Ok(extent) => Ok(extent),
            Err(NoMemory) => {
                self.text.truncate(start);
                Err(NoMemory)
            }
        }
    }

    /// The bytes of the sheet: the head, the bodies with the glue between, `last` where there is a body, and the tail. Where
    /// memory runs out nothing is handed back.
    pub fn finish(self) -> Result<Bytes, NoMemory>
        ensures sheet { IfOk result (IsSheetText self) }
        // What stood in it stands there still.
        ensures grows { IfOk result (Extends self.text) }
    {
        let mut text = self.text;
        if self.has_body {
            text.append(self.frame.last)?;
        }
        text.append(self.frame.tail)?;
        Ok(text)
    }
}
