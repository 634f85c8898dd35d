//! Constants on lines of their own.

ghost use Rattle.std.specs.Prelude.{◌≡◌, ◌∷◌, [], ◌++◌, codes, OnOk};
ghost use Rattle.ios_out.specs.Constant.{over_255, number, string, made};
ghost use Rattle.ios_out.specs.PlatformValue.{text_type};
ghost use Rattle.ios_out.specs.Spelling.{quantity_text, argument_text, content_text, line_text};
ghost use Rattle.ios_out.specs.inner.View.{quantity_view, argument_view, type_view, content_view};

use crate::content::{Argument, Content, NumberType, Quantity};
use dec_fix::Dec;
use tk_io::{Bytes, NoMemory};
use transforms::append_escaped;

fn append_byte(out: &mut Bytes, byte: u8) -> Result<(), NoMemory>
    ensures { OnOk result (out.new ≡ out.old ++ quantity_text (over_255 byte)) }
{
    Dec::whole(u16::from(byte)).write_point(out)?;
    out.append(b"/255.0")?;
    Ok(())
}

fn append_quantity(out: &mut Bytes, quantity: &Quantity) -> Result<(), NoMemory>
    ensures { OnOk result (out.new ≡ out.old ++ quantity_text (quantity_view quantity.now)) }
{
    match quantity {
        Quantity::Number(number) => number.write_point(out),
        Quantity::Byte(byte) => append_byte(out, *byte),
    }
}

fn append_labelled(out: &mut Bytes, label: &str, quantity: &Quantity) -> Result<(), NoMemory>
    ensures { OnOk result (out.new
        ≡ out.old ++ (label.now ++ (codes ": " ++ quantity_text (quantity_view quantity.now)))) }
{
    out.append(label.as_bytes())?;
    out.append(b": ")?;
    append_quantity(out, quantity)?;
    Ok(())
}

fn append_argument(out: &mut Bytes, argument: &Argument) -> Result<(), NoMemory>
    ensures { OnOk result (out.new ≡ out.old ++ argument_text (argument_view argument.now)) }
{
    match argument {
        Argument::Labelled(label, quantity) => append_labelled(out, label, quantity),
        Argument::Bare(quantity) => append_quantity(out, quantity),
    }
}

// A comma and a blank before an argument.
fn append_further(out: &mut Bytes, argument: &Argument) -> Result<(), NoMemory>
    ensures { OnOk result (out.new
        ≡ out.old ++ (codes ", " ++ argument_text (argument_view argument.now))) }
{
    out.append(b", ")?;
    append_argument(out, argument)?;
    Ok(())
}

impl NumberType {
    // What stands between the name and the number.
    fn opening(self) -> &'static [u8]
        ensures { result.now ≡ codes ": " ++ (type_view self ++ codes " = ") }
    {
        match self {
            NumberType::CgFloat => b": CGFloat = ",
            NumberType::TimeInterval => b": TimeInterval = ",
            NumberType::Double => b": Double = ",
        }
    }
}

fn append_number(out: &mut Bytes, number_type: NumberType, value: &Dec) -> Result<(), NoMemory>
    ensures { OnOk result (out.new
        ≡ out.old ++ content_text (number (type_view number_type) value.now)) }
{
    out.append(number_type.opening())?;
    value.write_point(out)?;
    Ok(())
}

fn append_string(out: &mut Bytes, text: &str) -> Result<(), NoMemory>
    ensures { OnOk result (out.new ≡ out.old ++ content_text (string text_type text.now)) }
{
    out.append(b": String = \"")?;
    append_escaped(out, text.as_bytes())?;
    out.append(b"\"")?;
    Ok(())
}

// Appends what a constructor makes of four arguments.
fn append_made(
    out: &mut Bytes,
    maker: &str,
    first: &Argument,
    second: &Argument,
    third: &Argument,
    fourth: &Argument,
) -> Result<(), NoMemory>
    ensures { OnOk result (out.new ≡ out.old ++ content_text (made maker.now
        (argument_view first.now ∷ argument_view second.now
        ∷ argument_view third.now ∷ argument_view fourth.now ∷ []))) }
{
    out.append(b" = ")?;
    out.append(maker.as_bytes())?;
    out.append(b"(")?;
    append_argument(out, first)?;
    append_further(out, second)?;
    append_further(out, third)?;
    append_further(out, fourth)?;
    out.append(b")")?;
    Ok(())
}

/// Appends the constant of this name, which is a number of a type, on a line of its own.
pub(crate) fn append_number_line(
    out: &mut Bytes,
    name: &[u8],
    number_type: NumberType,
    value: &Dec,
) -> Result<(), NoMemory>
    ensures { OnOk result (out.new
        ≡ out.old ++ line_text (name.now, number (type_view number_type) value.now)) }
{
    out.append(b"  public static let ")?;
    out.append(name)?;
    append_number(out, number_type, value)?;
    out.append(b"\n")?;
    Ok(())
}

impl Content<'_> {
    // Appends what stands behind the name of the constant: its type, where it has one, and its value.
    fn append_rest(&self, out: &mut Bytes) -> Result<(), NoMemory>
        ensures { OnOk result (out.new ≡ out.old ++ content_text (content_view self.now)) }
    {
        match self {
            Content::Number(number_type, value) => append_number(out, *number_type, value),
            Content::Text(text) => append_string(out, text),
            Content::Made(maker, first, second, third, fourth) => {
                append_made(out, maker, first, second, third, fourth)
            }
        }
    }

    /// Appends the constant of this name on a line of its own.
    pub(crate) fn append_line(&self, name: &[u8], out: &mut Bytes) -> Result<(), NoMemory>
        ensures { OnOk result (out.new ≡ out.old ++ line_text (name.now, content_view self.now)) }
    {
        out.append(b"  public static let ")?;
        out.append(name)?;
        self.append_rest(out)?;
        out.append(b"\n")?;
        Ok(())
    }
}
