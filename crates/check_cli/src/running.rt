//! Running the command line, which has no argument.

ghost use Rattle.std.specs.Prelude.{◌≡◌, ◌≢◌, ◌⊎◌, ◌≤◌, ◌<◌, ◌+◌, ℕ, List, Bool, Some, Err, length};
ghost use Rattle.std.specs.Bool.{Decides};
ghost use Rattle.tk_io.specs.Causes.{Rose};
ghost use Rattle.tk_io.specs.Reading.{TakesAtMost, TakesExactly};
ghost use Rattle.edit_script.specs.Files.{EveryFits, IsUnfit};
ghost use Rattle.edit_script.specs.Script.{EventData, IsScript};
ghost use Rattle.token_cli.specs.Headline.{HasUnfitEvent, IsNoScript, most_bytes};
ghost use Rattle.token_cli.specs.Report.{Reports};
ghost use Rattle.check_cli.specs.Checked.{CutShort, IsChecked, WroteAll};
ghost use Rattle.check_cli.specs.Report.{error_text};
ghost use Rattle.check_cli.specs.inner.Ending.{Ends, Scripted, course};

use crate::building::breaks_after;
use crate::reporting::report;
use crate::status::{CheckStatus, status_of};
use all_breaks::listing;
use bumpalo::Bump;
use std::alloc::Global;
use tk_io::{Sink, Source, read_all, write_all};
use token_cli::{Stop, read_events};

/// How many bytes a script may have.
const LIMIT: u64 = 67_108_864;

// Reads the events of the script, and writes all breaks of their files. Patched texts are made in the arena.
fn check_told<'s, K: Sink>(
    alloc: Global,
    script: &'s [u8],
    arena: &'s Bump,
    out: &mut K,
) -> Result<bool, Stop>
    ensures { Scripted result script.entry.now (K.written out.old) (K.written out.new)
        (K.faults out.old) (K.faults out.new) }
{
    let events = read_events(alloc, script)?;
    let told = breaks_after(alloc, &events, arena)?;
    let text = listing(alloc, &told)?;
    write_all(out, text.as_slice())?;
    Ok(!told.is_empty())
}

// Writes all breaks of the script's files. The arena is made first, so that it outlives the files.
fn check_script<K: Sink>(alloc: Global, script: &[u8], out: &mut K) -> Result<bool, Stop>
    ensures { Scripted result script.now (K.written out.old) (K.written out.new)
        (K.faults out.old) (K.faults out.new) }
{
    let arena = Bump::new(alloc);
    check_told(alloc, script, &arena, out)
}

// Whether there are no words.
fn are_none(words: &[String]) -> bool
    ensures { Decides result (length words.now ≡ 0) }
{
    words.is_empty()
}

// All that is asked for, but for the report.
fn main_job<S: Source, K: Sink>(
    alloc: Global,
    words: &[String],
    src: &mut S,
    out: &mut K,
) -> Result<bool, Stop>
    ensures ends { Ends result (length words.now) (course (S.left src.old) (S.left src.new)
        (S.faults src.old) (S.faults src.new) (K.written out.old) (K.written out.new)
        (K.faults out.old) (K.faults out.new)) }
    ensures words { length words.now ≢ 0 → (result ≡ Err Stop.Usage)
        × (src.new ≡ src.old) × (out.new ≡ out.old) }
    ensures taken { (result ≡ Err Stop.TooLong → ⊥)
        → TakesAtMost most_bytes (S.left src.old) (S.left src.new) }
{
    if !are_none(words) {
        return Err(Stop::Usage);
    }
    let script = read_all(alloc, src, LIMIT)?;
    check_script(alloc, script.as_slice(), out)
}

/// Writes all breaks of the script's files, which are those after its last event: each as a refusal tells it, behind a line
/// for each permutation that has it, with an empty line between two of them; nothing where there is none. There are no
/// arguments. Writes a line about a failure to `err`, and answers how it ended.
pub fn run_check<S: Source, K: Sink, E: Sink>(
    alloc: Global,
    words: &[String],
    src: &mut S,
    out: &mut K,
    err: &mut E,
) -> CheckStatus
    // The files have no break, and nothing was written, ..
    ensures done { result ≡ CheckStatus.Done → WroteAll (S.left src.old) (S.left src.new)
        Bool.false (K.written out.old) (K.written out.new) }
    // .. or they have some, and all were written.
    ensures broken { result ≡ CheckStatus.Broken → WroteAll (S.left src.old) (S.left src.new)
        Bool.true (K.written out.old) (K.written out.new) }
    // The usage is told exactly where there are arguments; nothing is read or written for them.
    ensures usage { result ≡ CheckStatus.Usage → length words.now ≢ 0 }
    ensures words { length words.now ≢ 0 → (result ≡ CheckStatus.Usage)
        × (src.new ≡ src.old) × (out.new ≡ out.old) }
    // What was read to the end is no script, and the place where it is refused is said.
    ensures bad_script { result ≡ CheckStatus.BadScript → (at : ℕ)
        × IsNoScript (S.left src.old) (S.left src.new) at
        × (K.written out.new ≡ K.written out.old)
        × Reports (E.written err.old) (E.written err.new) (E.faults err.old) (E.faults err.new)
        (error_text result at) }
    // An event does not fit, its number is said, and nothing is written.
    ensures bad_event { result ≡ CheckStatus.BadEvent → (number : ℕ)
        × HasUnfitEvent (S.left src.old) (S.left src.new) number
        × (K.written out.new ≡ K.written out.old)
        × Reports (E.written err.old) (E.written err.new) (E.faults err.old) (E.faults err.new)
        (error_text result number) }
    // A fault is answered only where its count rose. Of the breaks a part is written where writing failed, ..
    ensures read_fault { result ≡ CheckStatus.ReadFault → Rose (S.faults src.old) (S.faults src.new)
        × (K.written out.new ≡ K.written out.old) }
    ensures write_fault { result ≡ CheckStatus.WriteFault
        → Rose (K.faults out.old) (K.faults out.new)
        × CutShort (S.left src.old) (S.left src.new) (K.written out.old) (K.written out.new) }
    // .. and nothing where memory ran out or a script is too long.
    ensures no_memory { result ≡ CheckStatus.NoMemory
        → (K.written out.new ≡ K.written out.old) }
    // A script is too long exactly where one byte more than the limit was taken.
    ensures too_long { result ≡ CheckStatus.TooLong
        → TakesExactly (most_bytes + 1) (S.left src.old) (S.left src.new)
        × (K.written out.new ≡ K.written out.old) }
    ensures taken { (result ≡ CheckStatus.TooLong → ⊥)
        → TakesAtMost most_bytes (S.left src.old) (S.left src.new) }
    // Where the script has a reading, each event fits and nothing fails, all breaks were written, or memory ran out.
    ensures complete { (script : List ℕ) (es : List EventData) → length words.now ≡ 0
        → S.left src.old ≡ Some script → length script ≤ most_bytes → IsScript script es
        → EveryFits es
        → (Rose (S.faults src.old) (S.faults src.new) → ⊥)
        → (Rose (K.faults out.old) (K.faults out.new) → ⊥) → IsChecked result }
    // Where an event does not fit and reading doesn't fail, that is said, or memory ran out.
    ensures unfit { (script : List ℕ) (es : List EventData) (number : ℕ) → length words.now ≡ 0
        → S.left src.old ≡ Some script → length script ≤ most_bytes → IsScript script es
        → IsUnfit es number → (Rose (S.faults src.old) (S.faults src.new) → ⊥)
        → (result ≡ CheckStatus.BadEvent) ⊎ (result ≡ CheckStatus.NoMemory) }
    // Where the script has no reading and reading doesn't fail, that is said, or memory ran out.
    ensures unread { (script : List ℕ) → length words.now ≡ 0 → S.left src.old ≡ Some script
        → length script ≤ most_bytes → ((es : List EventData) → IsScript script es → ⊥)
        → (Rose (S.faults src.old) (S.faults src.new) → ⊥)
        → (result ≡ CheckStatus.BadScript) ⊎ (result ≡ CheckStatus.NoMemory) }
    // Where the script is longer than the limit and reading doesn't fail, that is said, or memory ran out.
    ensures endless { (script : List ℕ) → length words.now ≡ 0 → S.left src.old ≡ Some script
        → most_bytes < length script → (Rose (S.faults src.old) (S.faults src.new) → ⊥)
        → (result ≡ CheckStatus.TooLong) ⊎ (result ≡ CheckStatus.NoMemory) }
    // The error text was appended whole, or a part of it was and the error sink failed.
    ensures error { (result ≡ CheckStatus.BadScript → ⊥) → (result ≡ CheckStatus.BadEvent → ⊥)
        → Reports (E.written err.old) (E.written err.new) (E.faults err.old) (E.faults err.new)
        (error_text result 0) }
{
    let ended = main_job(alloc, words, src, out);
    report(err, ended);
    status_of(ended)
}
