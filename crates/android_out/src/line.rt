//! Elements on lines of their own.

ghost use Rattle.std.specs.Prelude.{◌≡◌, ◌++◌, OnOk};
ghost use Rattle.android_out.specs.Element.{tag_of, dimen_tag};
ghost use Rattle.android_out.specs.Spelling.{content_text, line_text};
ghost use Rattle.android_out.specs.inner.View.{unit_view, content_view};
ghost use Rattle.android_out.specs.inner.Written.{opening, closing};

use crate::content::{Content, DimenUnit};
use tk_io::{Bytes, NoMemory};
use transforms::hex8;

impl DimenUnit {
    // The unit, and what stands after the content.
    fn closing(self) -> &'static [u8]
        ensures { result.now ≡ unit_view self ++ closing dimen_tag }
    {
        match self {
            DimenUnit::Dp => b"dp</dimen>\n",
            DimenUnit::Sp => b"sp</dimen>\n",
        }
    }
}

impl Content<'_> {
    // What stands before the name.
    fn opening(&self) -> &'static [u8]
        ensures { result.now ≡ opening (tag_of (content_view self.now)) }
    {
        match self {
            Content::Color(_, _, _, _) => b"  <color name=\"",
            Content::Dimen(_, _) => b"  <dimen name=\"",
            Content::Integer(_) => b"  <integer name=\"",
            Content::Item(_) => b"  <item type=\"dimen\" format=\"float\" name=\"",
            Content::Text(_) => b"  <string name=\"",
        }
    }

    // The content, and what stands after it.
    fn append_rest(&self, out: &mut Bytes) -> Result<(), NoMemory>
        ensures { OnOk result (out.new ≡ out.old
            ++ (content_text (content_view self.now) ++ closing (tag_of (content_view self.now)))) }
    {
        match self {
            Content::Color(alpha, red, green, blue) => {
                out.append(&hex8(*alpha, *red, *green, *blue))?;
                out.append(b"</color>\n")
            }
            Content::Dimen(number, unit) => {
                number.write(out)?;
                out.append(unit.closing())
            }
            Content::Integer(number) => {
                number.write(out)?;
                out.append(b"</integer>\n")
            }
            Content::Item(number) => {
                number.write(out)?;
                out.append(b"</item>\n")
            }
            Content::Text(text) => {
                out.append(text.as_bytes())?;
                out.append(b"</string>\n")
            }
        }
    }

    /// Appends the element of this name on a line of its own.
    pub(crate) fn append_line(&self, name: &[u8], out: &mut Bytes) -> Result<(), NoMemory>
        ensures { OnOk result (out.new ≡ out.old ++ line_text (name.now, content_view self.now)) }
    {
        out.append(self.opening())?;
        out.append(name)?;
        out.append(b"\">")?;
        self.append_rest(out)?;
        Ok(())
    }
}
