//! Running the command line, which has no argument.

ghost use Rattle.std.specs.Prelude.{◌≡◌, ◌≢◌, ◌⊎◌, ◌≤◌, ◌<◌, ◌+◌, ℕ, List, [], Some, Err};
ghost use Rattle.std.specs.Prelude.{OnOk, OnErr, length};
ghost use Rattle.std.specs.Bool.{Decides};
ghost use Rattle.tk_io.specs.Causes.{HasCause, Rose};
ghost use Rattle.tk_io.specs.FilesData.{FilesData};
ghost use Rattle.tk_io.specs.Reading.{TakesAtMost, TakesExactly};
ghost use Rattle.edit_script.specs.Files.{AreFilesAfter, EveryFits, IsUnfit};
ghost use Rattle.edit_script.specs.Script.{EventData, IsScript};
ghost use Rattle.token_cli.specs.Headline.{HasUnfitEvent, IsNoScript, most_bytes};
ghost use Rattle.token_cli.specs.Report.{Reports};
ghost use Rattle.theme_cli.specs.Themed.{CutShort, IsStatusOf, TellsName, TellsRefusal, WroteAll};
ghost use Rattle.theme_cli.specs.Report.{error_text};
ghost use Rattle.theme_cli.specs.inner.Answer.{LeftOf, WrittenOf};
ghost use Rattle.theme_cli.specs.inner.Ending.{Ends, Scripted, course};

use crate::answer::ThemeAnswer;
use crate::building::answer_after;
use crate::reporting::report;
use crate::status::{ThemeStatus, status_of};
use bumpalo::Bump;
use std::alloc::Global;
use tk_io::{Failed, Sink, Source, read_all, write_all};
use token_cli::{Stop, read_events};

/// How many bytes a script may have.
const LIMIT: u64 = 67_108_864;

// Writes the sheet, where there is one.
fn write_sheet<K: Sink>(out: &mut K, answer: &ThemeAnswer) -> Result<(), Failed>
    ensures whole { OnOk result (WrittenOf answer.now (K.written out.old) (K.written out.new)) }
    ensures part { OnErr result (LeftOf answer.now (K.written out.old) (K.written out.new)) }
    ensures cause { HasCause (K.faults out.old) (K.faults out.new) result }
{
    match answer {
        ThemeAnswer::Sheet(sheet) => write_all(out, sheet.as_slice()),
        ThemeAnswer::Refused(_) => Ok(()),
        ThemeAnswer::Name(_) => Ok(()),
    }
}

// Reads the events of the script, and writes the sheet of their files. Patched texts are made in the arena.
fn themes_told<'s, K: Sink>(
    alloc: Global,
    script: &'s [u8],
    arena: &'s Bump,
    out: &mut K,
) -> Result<ThemeAnswer, Stop>
    ensures { Scripted result script.entry.now (K.written out.old) (K.written out.new)
        (K.faults out.old) (K.faults out.new) }
{
    let events = read_events(alloc, script)?;
    let answer = answer_after(alloc, &events, arena)?;
    write_sheet(out, &answer)?;
    Ok(answer)
}

// Writes the sheet of the script's files. The arena is made first, so that it outlives the files.
fn themes_script<K: Sink>(alloc: Global, script: &[u8], out: &mut K) -> Result<ThemeAnswer, Stop>
    ensures { Scripted result script.now (K.written out.old) (K.written out.new)
        (K.faults out.old) (K.faults out.new) }
{
    let arena = Bump::new(alloc);
    themes_told(alloc, script, &arena, out)
}

// Whether there are no words.
fn are_none(words: &[String]) -> bool
    ensures { Decides result (length words.now ≡ 0) }
{
    words.is_empty()
}

// All that is asked for, but for the report.
fn main_job<S: Source, K: Sink>(
    alloc: Global,
    words: &[String],
    src: &mut S,
    out: &mut K,
) -> Result<ThemeAnswer, Stop>
    ensures ends { Ends result (length words.now) (course (S.left src.old) (S.left src.new)
        (S.faults src.old) (S.faults src.new) (K.written out.old) (K.written out.new)
        (K.faults out.old) (K.faults out.new)) }
    ensures words { length words.now ≢ 0 → (result ≡ Err Stop.Usage)
        × (src.new ≡ src.old) × (out.new ≡ out.old) }
    ensures taken { (result ≡ Err Stop.TooLong → ⊥)
        → TakesAtMost most_bytes (S.left src.old) (S.left src.new) }
{
    if !are_none(words) {
        return Err(Stop::Usage);
    }
    let script = read_all(alloc, src, LIMIT)?;
    themes_script(alloc, script.as_slice(), out)
}

/// Writes one style sheet for all permutations of the script's files, which are those after its last event. There are no
/// arguments. Where a permutation is refused, or no selector can hold the name of a modifier or of a context, nothing is
/// written. Writes a line about a failure to `err`, and answers how it ended.
pub fn run_themes<S: Source, K: Sink, E: Sink>(
    alloc: Global,
    words: &[String],
    src: &mut S,
    out: &mut K,
    err: &mut E,
) -> ThemeStatus
    // The sheet was written whole, ..
    ensures done { result ≡ ThemeStatus.Done → WroteAll (S.left src.old) (S.left src.new)
        (K.written out.old) (K.written out.new) }
    // .. or the first path of a refusal is said and nothing was written, ..
    ensures refused { result ≡ ThemeStatus.Refused → (path : List ℕ)
        × TellsRefusal (S.left src.old) (S.left src.new) path
        × (K.written out.new ≡ K.written out.old)
        × Reports (E.written err.old) (E.written err.new) (E.faults err.old) (E.faults err.new)
        (error_text result 0 path) }
    // .. or the first name that no selector can hold is.
    ensures name { result ≡ ThemeStatus.Name → (name : List ℕ)
        × TellsName (S.left src.old) (S.left src.new) name
        × (K.written out.new ≡ K.written out.old)
        × Reports (E.written err.old) (E.written err.new) (E.faults err.old) (E.faults err.new)
        (error_text result 0 name) }
    // The usage is told exactly where there are arguments; nothing is read or written for them.
    ensures usage { result ≡ ThemeStatus.Usage → length words.now ≢ 0 }
    ensures words { length words.now ≢ 0 → (result ≡ ThemeStatus.Usage)
        × (src.new ≡ src.old) × (out.new ≡ out.old) }
    // What was read to the end is no script, and the place where it is refused is said.
    ensures bad_script { result ≡ ThemeStatus.BadScript → (at : ℕ)
        × IsNoScript (S.left src.old) (S.left src.new) at
        × (K.written out.new ≡ K.written out.old)
        × Reports (E.written err.old) (E.written err.new) (E.faults err.old) (E.faults err.new)
        (error_text result at []) }
    // An event does not fit, its number is said, and nothing is written.
    ensures bad_event { result ≡ ThemeStatus.BadEvent → (number : ℕ)
        × HasUnfitEvent (S.left src.old) (S.left src.new) number
        × (K.written out.new ≡ K.written out.old)
        × Reports (E.written err.old) (E.written err.new) (E.faults err.old) (E.faults err.new)
        (error_text result number []) }
    // A fault is answered only where its count rose. Of the sheet a part is written where writing failed, ..
    ensures read_fault { result ≡ ThemeStatus.ReadFault → Rose (S.faults src.old) (S.faults src.new)
        × (K.written out.new ≡ K.written out.old) }
    ensures write_fault { result ≡ ThemeStatus.WriteFault
        → Rose (K.faults out.old) (K.faults out.new)
        × CutShort (S.left src.old) (S.left src.new) (K.written out.old) (K.written out.new) }
    // .. and nothing where memory ran out or a script is too long.
    ensures no_memory { result ≡ ThemeStatus.NoMemory
        → (K.written out.new ≡ K.written out.old) }
    // A script is too long exactly where one byte more than the limit was taken.
    ensures too_long { result ≡ ThemeStatus.TooLong
        → TakesExactly (most_bytes + 1) (S.left src.old) (S.left src.new)
        × (K.written out.new ≡ K.written out.old) }
    ensures taken { (result ≡ ThemeStatus.TooLong → ⊥)
        → TakesAtMost most_bytes (S.left src.old) (S.left src.new) }
    // Where the script has a reading, each event fits and nothing fails, the status is that of the files after all events,
    // which `one_theme_status` says is one, or memory ran out.
    ensures complete { (script : List ℕ) (es : List EventData) → length words.now ≡ 0
        → S.left src.old ≡ Some script → length script ≤ most_bytes → IsScript script es
        → EveryFits es
        → (Rose (S.faults src.old) (S.faults src.new) → ⊥)
        → (Rose (K.faults out.old) (K.faults out.new) → ⊥)
        → ((files : FilesData) × AreFilesAfter es files × IsStatusOf files result)
        ⊎ (result ≡ ThemeStatus.NoMemory) }
    // Where an event does not fit and reading doesn't fail, that is said, or memory ran out.
    ensures unfit { (script : List ℕ) (es : List EventData) (number : ℕ) → length words.now ≡ 0
        → S.left src.old ≡ Some script → length script ≤ most_bytes → IsScript script es
        → IsUnfit es number → (Rose (S.faults src.old) (S.faults src.new) → ⊥)
        → (result ≡ ThemeStatus.BadEvent) ⊎ (result ≡ ThemeStatus.NoMemory) }
    // Where the script has no reading and reading doesn't fail, that is said, or memory ran out.
    ensures unread { (script : List ℕ) → length words.now ≡ 0 → S.left src.old ≡ Some script
        → length script ≤ most_bytes → ((es : List EventData) → IsScript script es → ⊥)
        → (Rose (S.faults src.old) (S.faults src.new) → ⊥)
        → (result ≡ ThemeStatus.BadScript) ⊎ (result ≡ ThemeStatus.NoMemory) }
    // Where the script is longer than the limit and reading doesn't fail, that is said, or memory ran out.
    ensures endless { (script : List ℕ) → length words.now ≡ 0 → S.left src.old ≡ Some script
        → most_bytes < length script → (Rose (S.faults src.old) (S.faults src.new) → ⊥)
        → (result ≡ ThemeStatus.TooLong) ⊎ (result ≡ ThemeStatus.NoMemory) }
    // The error text was appended whole, or a part of it was and the error sink failed.
    ensures error { (result ≡ ThemeStatus.BadScript → ⊥) → (result ≡ ThemeStatus.BadEvent → ⊥)
        → (result ≡ ThemeStatus.Refused → ⊥) → (result ≡ ThemeStatus.Name → ⊥)
        → Reports (E.written err.old) (E.written err.new) (E.faults err.old) (E.faults err.new)
        (error_text result 0 []) }
{
    let ended = main_job(alloc, words, src, out);
    report(err, &ended);
    status_of(&ended)
}
