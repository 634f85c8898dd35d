//! What an event makes of what stands.

ghost use Rattle.std.specs.Prelude.{◌≡◌, ◌≤◌, ◌↔◌, Some, length, IfOk, IsTrue, IsCharBoundary};
ghost use Rattle.std.specs.Prelude.{option_map};
ghost use Rattle.edit_script.specs.Effect.{IsOutcome, given_length, made_with};
ghost use Rattle.edit_script.specs.Files.{FitsText, most_patched, patched};
ghost use Rattle.edit_script.specs.Script.{patch};
ghost use Rattle.edit_script.specs.View.{event_view, outcome_view};

use crate::{Event, Outcome};
use bumpalo::Bump;
use bumpalo::collections::into_bump_str;
use tk_io::NoMemory;

/// What becomes of the files by the event. `present` is the text of the event's path, or of a move's first path; `made`
/// is the sum, in bytes, of the lengths of the texts that earlier patches made. A patched text is made in the arena.
///
/// # Errors
/// `NoMemory`.
pub fn effect<'s>(
    event: &Event<'s>,
    present: Option<&'s str>,
    made: u64,
    arena: &'s Bump,
) -> Result<Outcome<'s>, NoMemory>
    requires { made ≤ most_patched }
    ensures { IfOk result (λ outcome. IsOutcome (event_view event.now)
        (option_map (λ text. text.now) present.entry) made (outcome_view outcome)) }
{
    match event {
        Event::Put(path, text) => Ok(Outcome::Put(path, text)),
        Event::Del(path) => Ok(Outcome::Del(path)),
        Event::Commit => Ok(Outcome::Commit),
        Event::Move(first, second) => match present {
            Some(text) => Ok(Outcome::Move(first, second, text)),
            None => Ok(Outcome::Unfit),
        },
        Event::Patch(path, start, end, bytes) => match present {
            Some(text) => patch_effect(path, text, *start, *end, bytes, made, arena),
            None => Ok(Outcome::Unfit),
        },
    }
}

// What becomes of the file at this path, of this text, by a patch.
fn patch_effect<'s>(
    path: &'s str,
    text: &'s str,
    start: usize,
    end: usize,
    bytes: &str,
    made: u64,
    arena: &'s Bump,
) -> Result<Outcome<'s>, NoMemory>
    requires { made ≤ most_patched }
    ensures { IfOk result (λ outcome. IsOutcome (patch path.entry.now start end bytes.now)
        (Some text.entry.now) made (outcome_view outcome)) }
{
    if !fits(text, start, end, bytes, made) {
        return Ok(Outcome::Unfit);
    }
    Ok(Outcome::Put(path, patch(text, start, end, bytes, arena)?))
}

/// The most bytes that patched texts have together.
const MOST_PATCHED: u64 = 1_073_741_824;

// Whether the patch replaces whole characters of the text, and what it makes stays within the bound.
fn fits(text: &str, start: usize, end: usize, bytes: &str, made: u64) -> bool
    requires { made ≤ most_patched }
    ensures { IsTrue result ↔ FitsText start end bytes.now made text.now }
{
    start <= end
        && text.is_char_boundary(start)
        && text.is_char_boundary(end)
        && patched_len(text, start, end, bytes) <= MOST_PATCHED - made
}

// The length of the text with these bytes replaced.
fn patched_len(text: &str, start: usize, end: usize, bytes: &str) -> u64
    requires inside { (start ≤ end) × (end ≤ length text.now) }
    ensures { result ≡ length (patched text.now start end bytes.now) }
{
    (text.len() - (end - start)) as u64 + bytes.len() as u64
}

// The text with these bytes replaced, in the arena.
fn patch<'s>(
    text: &str,
    start: usize,
    end: usize,
    bytes: &str,
    arena: &'s Bump,
) -> Result<&'s str, NoMemory>
    requires order { start ≤ end }
    requires boundaries { IsCharBoundary text.now start × IsCharBoundary text.now end }
    ensures { IfOk result (λ t. t.now ≡ patched text.now start end bytes.now) }
{
    let mut new = String::with_capacity(arena, text.len() - (end - start) + bytes.len())?;
    new.push_str(&text[..start])?;
    new.push_str(bytes)?;
    new.push_str(&text[end..])?;
    Ok(into_bump_str(new))
}

/// The length in bytes of the text that an event of this outcome made, where it is a patch that fits, and else 0: what
/// is added to the sum of the lengths of patched texts.
pub fn made_length(event: &Event<'_>, outcome: &Outcome<'_>) -> u64
    ensures { result ≡ made_with (event_view event.now) (outcome_view outcome.now) }
{
    match event {
        Event::Patch(..) => given_length(outcome),
        _ => 0,
    }
}

// The length of the text that the outcome gives to a path.
fn given_length(outcome: &Outcome<'_>) -> u64
    ensures { result ≡ given_length (outcome_view outcome.now) }
{
    match outcome {
        Outcome::Put(_, text) => text.len() as u64,
        _ => 0,
    }
}
