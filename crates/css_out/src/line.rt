//! Lines that grow piece by piece in one buffer.

ghost use Rattle.std.specs.Prelude.{◌≡◌, [], ◌++◌, codes, OnOk};
ghost use Rattle.css_out.specs.Piece.{mark, var, number, percent, unit, string, word, opens};
ghost use Rattle.css_out.specs.Piece.{closes, comma, slash};
ghost use Rattle.css_out.specs.inner.Added.{gap, with_piece, started};

use dec_fix::Dec;
use std::alloc::Global;
use std::mem;
use tk_io::{Bytes, NoMemory};
use transforms::append_escaped;

/// The lines of a fragment so far, and whether no blank stands before the next piece.
#[derive(Drop)]
pub(crate) struct Line {
    pub(crate) text: Bytes,
    pub(crate) is_tight: bool,
}

impl Line {
    /// No line, in the memory of the draft, which is left without bytes.
    pub(crate) fn over(alloc: Global, draft: &mut Bytes) -> Line
        ensures text { result.text ≡ [] }
    {
        let mut text = mem::replace(draft, Bytes::new(alloc));
        text.truncate(0);
        Line {
            text,
            is_tight: true,
        }
    }

    /// The start of a declaration of the name.
    pub(crate) fn start(&mut self, name: &[u8]) -> Result<(), NoMemory>
        ensures { OnOk result (self.new ≡ started self.old name.now) }
    {
        self.text.append(b"  ")?;
        self.text.append(name)?;
        self.text.append(b": ")?;
        self.is_tight = true;
        Ok(())
    }

    /// The end of a declaration.
    pub(crate) fn end(&mut self) -> Result<(), NoMemory>
        ensures { OnOk result (self.new.text ≡ self.old.text ++ codes ";\n") }
    {
        self.text.append(b";\n")?;
        Ok(())
    }

    // A blank, where the line is not tight.
    fn blank(&mut self) -> Result<(), NoMemory>
        ensures { OnOk result (self.new ≡ record {
          text = self.old.text ++ gap self.old.is_tight;
          is_tight = self.old.is_tight;
        }) }
    {
        if self.is_tight {
            return Ok(());
        }
        self.text.append(b" ")?;
        Ok(())
    }

    pub(crate) fn number(&mut self, value: &Dec) -> Result<(), NoMemory>
        ensures { OnOk result (self.new ≡ with_piece self.old (mark (number value.now))) }
    {
        self.blank()?;
        value.write(&mut self.text)?;
        self.is_tight = false;
        Ok(())
    }

    pub(crate) fn percent(&mut self, value: &Dec) -> Result<(), NoMemory>
        ensures { OnOk result (self.new ≡ with_piece self.old (mark (percent value.now))) }
    {
        self.blank()?;
        value.write(&mut self.text)?;
        self.text.append(b"%")?;
        self.is_tight = false;
        Ok(())
    }

    /// A number with its unit, as `4px`.
    pub(crate) fn unit(&mut self, value: &Dec, name: &str) -> Result<(), NoMemory>
        ensures { OnOk result (self.new ≡ with_piece self.old (mark (unit value.now name.now))) }
    {
        self.blank()?;
        value.write(&mut self.text)?;
        self.text.append(name.as_bytes())?;
        self.is_tight = false;
        Ok(())
    }

    pub(crate) fn string(&mut self, text: &str) -> Result<(), NoMemory>
        ensures { OnOk result (self.new ≡ with_piece self.old (mark (string text.now))) }
    {
        self.blank()?;
        self.text.append(b"\"")?;
        append_escaped(&mut self.text, text.as_bytes())?;
        self.text.append(b"\"")?;
        self.is_tight = false;
        Ok(())
    }

    pub(crate) fn word(&mut self, text: &str) -> Result<(), NoMemory>
        ensures { OnOk result (self.new ≡ with_piece self.old (mark (word text.now))) }
    {
        self.blank()?;
        self.text.append(text.as_bytes())?;
        self.is_tight = false;
        Ok(())
    }

    /// The name of a function and `(`.
    pub(crate) fn opens(&mut self, name: &str) -> Result<(), NoMemory>
        ensures { OnOk result (self.new ≡ with_piece self.old (mark (opens name.now))) }
    {
        self.blank()?;
        self.text.append(name.as_bytes())?;
        self.text.append(b"(")?;
        self.is_tight = true;
        Ok(())
    }

    /// The `)` of a function.
    pub(crate) fn closes(&mut self) -> Result<(), NoMemory>
        ensures { OnOk result (self.new ≡ with_piece self.old (mark closes)) }
    {
        self.text.append(b")")?;
        self.is_tight = false;
        Ok(())
    }

    pub(crate) fn comma(&mut self) -> Result<(), NoMemory>
        ensures { OnOk result (self.new ≡ with_piece self.old (mark comma)) }
    {
        self.text.append(b",")?;
        self.is_tight = false;
        Ok(())
    }

    pub(crate) fn slash(&mut self) -> Result<(), NoMemory>
        ensures { OnOk result (self.new ≡ with_piece self.old (mark slash)) }
    {
        self.blank()?;
        self.text.append(b"/")?;
        self.is_tight = false;
        Ok(())
    }

    /// `var()` of the name.
    pub(crate) fn var(&mut self, name: &[u8]) -> Result<(), NoMemory>
        ensures { OnOk result (self.new ≡ with_piece self.old (var name.now)) }
    {
        self.blank()?;
        self.text.append(b"var(")?;
        self.text.append(name)?;
        self.text.append(b")")?;
        self.is_tight = false;
        Ok(())
    }

    /// `var()` of the name with an ending.
    pub(crate) fn ended_var(&mut self, name: &[u8], ending: &str) -> Result<(), NoMemory>
        ensures { OnOk result (self.new ≡ with_piece self.old (var (name.now ++ ending.now))) }
    {
        self.blank()?;
        self.text.append(b"var(")?;
        self.text.append(name)?;
        self.text.append(ending.as_bytes())?;
        self.text.append(b")")?;
        self.is_tight = false;
        Ok(())
    }
}
