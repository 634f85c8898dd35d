//! What comes of files: their sheet, or why they have none.

ghost use Rattle.std.specs.Prelude.{◌≡◌, IfOk};
ghost use Rattle.json_span.specs.Spelling.{string_text};
ghost use Rattle.theme_cli.specs.inner.Answer.{IsAnswerTo, IsReasonOf};

use json_span::write_string_bytes;
use std::alloc::Global;
use theme_css::ThemeStop;
use tk_io::{Bytes, NoMemory};

/// What comes of files: their sheet, or why they have none.
#[derive(Drop)]
pub(crate) enum ThemeAnswer {
    /// The sheet.
    Sheet(Bytes),
    /// The path of the first refusal.
    Refused(Bytes),
    /// The first name that no selector can hold, as a JSON string.
    Name(Bytes),
}

// The name as a JSON string.
fn spelled(alloc: Global, name: &[u8]) -> Result<Bytes, NoMemory>
    ensures { IfOk result (λ text. text ≡ string_text name.now) }
{
    let mut text = Bytes::new(alloc);
    write_string_bytes(name, &mut text)?;
    Ok(text)
}

// Why there is no sheet.
fn reason_of(alloc: Global, stop: ThemeStop) -> Result<ThemeAnswer, NoMemory>
    ensures { IfOk result (IsReasonOf stop) }
{
    match stop {
        ThemeStop::Refused(path) => Ok(ThemeAnswer::Refused(path)),
        ThemeStop::Name(name) => Ok(ThemeAnswer::Name(spelled(alloc, name.as_slice())?)),
        ThemeStop::NoMemory => Err(NoMemory),
    }
}

/// What comes of files, by what `themes` answers.
pub(crate) fn answer_to(
    alloc: Global,
    sheet: Result<Bytes, ThemeStop>,
) -> Result<ThemeAnswer, NoMemory>
    ensures { IfOk result (IsAnswerTo sheet) }
{
    match sheet {
        Ok(sheet) => Ok(ThemeAnswer::Sheet(sheet)),
        Err(stop) => reason_of(alloc, stop),
    }
}
