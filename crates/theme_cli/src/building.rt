//! What comes of a script's files.

ghost use Rattle.std.specs.Prelude.{◌≡◌, ℕ, Err, IfOk};
ghost use Rattle.edit_script.specs.Files.{IsUnfit};
ghost use Rattle.theme_cli.specs.inner.Answer.{IsAnswerAfter};

use crate::answer::{ThemeAnswer, answer_to};
use bumpalo::Bump;
use edit_script::Events;
use file_plan::{Files, LoadStop};
use std::alloc::Global;
use theme_css::themes;

/// What comes of the files after all events. Patched texts are made in the arena.
///
/// # Errors
/// `Unfit` exactly where an event does not fit what stands before it, with the number of the first; `NoMemory`.
pub(crate) fn answer_after<'s>(
    alloc: Global,
    events: &Events<'s>,
    arena: &'s Bump,
) -> Result<ThemeAnswer, LoadStop>
    ensures answer { IfOk result (IsAnswerAfter events.now) }
    ensures unfit { (number : ℕ) → result ≡ Err (LoadStop.Unfit number)
        → IsUnfit events.now number }
{
    let files = Files::load(alloc, events, arena)?;
    let sheet = themes(alloc, &files);
    Ok(answer_to(alloc, sheet)?)
}
