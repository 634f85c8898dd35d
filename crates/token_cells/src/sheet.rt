//! The sheets of platforms from what their tokens come to.

ghost use Rattle.std.specs.Prelude.{◌≡◌, IfOk};
ghost use Rattle.token_cells.specs.Sheets.{sheet_for};

use crate::cells::Cells;
use crate::format::Format;
use tk_io::{Body, NoMemory};

/// The sheet of tokens in this format. It was made with them, and is not copied.
pub fn sheet_of(format: Format, cells: &Cells<'_>) -> Result<Body, NoMemory>
    ensures { IfOk result (λ b. b ≡ sheet_for format cells.now) }
{
    let (_, pages) = cells.parts();
    pages.page(format).share()
}
