//! Taking events into the files of an engine.

ghost use Rattle.std.specs.Prelude.{◌≡◌, ◌≤◌, IfOk, MatchOption, OnOk};
ghost use Rattle.std.specs.FinMap as map;
ghost use Rattle.std.specs.Option.{option_map};
ghost use Rattle.edit_script.specs.Effect.{files_by};
ghost use Rattle.edit_script.specs.Files.{most_patched, present_of};
ghost use Rattle.edit_script.specs.View.{event_view, outcome_view};
ghost use Rattle.token_cli.specs.inner.Step.{HoldsAs, IsRefusedBy, IsTakenBy};

use bumpalo::Bump;
use edit_script::{Event, Outcome, effect, made_length};
use rebuild_core::Engine;
use tk_io::NoMemory;

// The text that the event looks at: that of its path, and of a move's first path.
fn present<'s>(engine: &Engine<'s>, event: &Event<'_>) -> Option<&'s str>
    ensures { option_map (λ t. t.now) result
        ≡ present_of (event_view event.now) (map.get engine.now.files) }
{
    match event.path() {
        Some(path) => engine.text(path),
        None => None,
    }
}

// Gives the first path's text to the second path.
fn move_file<'s>(
    engine: &mut Engine<'s>,
    first: &str,
    second: &'s str,
    text: &'s str,
) -> Result<(), NoMemory>
    ensures files { OnOk result (engine.new.files
        ≡ map.insert (map.remove engine.old.files first.now) second.entry.now text.entry.now) }
    ensures held { OnOk result (HoldsAs engine.old engine.new) }
{
    engine.del(first);
    engine.put(second, text)
}

// Does what comes of an event.
fn apply<'s>(engine: &mut Engine<'s>, outcome: &Outcome<'s>) -> Result<(), NoMemory>
    ensures files { OnOk result
        (engine.new.files ≡ files_by (outcome_view outcome.now) engine.old.files) }
    ensures held { OnOk result (HoldsAs engine.old engine.new) }
{
    match outcome {
        Outcome::Put(path, text) => engine.put(path, text),
        Outcome::Move(first, second, text) => move_file(engine, first, second, text),
        Outcome::Del(path) => {
            engine.del(path);
            Ok(())
        }
        Outcome::Commit | Outcome::Unfit => Ok(()),
    }
}

/// Takes the next event of a script into the files of the engine. `made` is the sum, in bytes, of the lengths of the texts
/// that the patches before it made; the answer is that sum with what it made itself, or none where the event does not fit
/// what stands. A patched text is made in the arena.
///
/// # Errors
/// `NoMemory`.
pub fn take_event<'s>(
    engine: &mut Engine<'s>,
    event: &Event<'s>,
    made: u64,
    arena: &'s Bump,
) -> Result<Option<u64>, NoMemory>
    requires { made ≤ most_patched }
    // An event is taken only where it fits, ..
    ensures taken { IfOk result (λ sum. MatchOption sum
        (IsRefusedBy (event_view event.now) made engine.old engine.new)
        (λ next. IsTakenBy (event_view event.now) made engine.old engine.new next)) }
{
    let outcome = effect(event, present(engine, event), made, arena)?;
    if outcome == Outcome::Unfit {
        return Ok(None);
    }
    apply(engine, &outcome)?;
    Ok(Some(made + made_length(event, &outcome)))
}
