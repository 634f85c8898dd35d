//! Running the arguments of the command line.

ghost use Rattle.std.specs.Prelude.{◌≡◌, ◌⊎◌, ◌≤◌, ◌<◌, ◌+◌, ℕ, List, Some, Err, length};
ghost use Rattle.std.specs.Prelude.{IfErr, IsErrOf, OnOk};
ghost use Rattle.tk_io.specs.Causes.{Rose};
ghost use Rattle.tk_io.specs.Reading.{TakesAtMost, TakesExactly};
ghost use Rattle.edit_script.specs.Files.{EveryFits, IsUnfit};
ghost use Rattle.edit_script.specs.Script.{EventData, IsScript};
ghost use Rattle.token_cli.specs.Headline.{HasUnfitEvent, IsNoScript, most_bytes};
ghost use Rattle.token_cli.specs.Report.{Reports};
ghost use Rattle.explain_cli.specs.Asked.{Asks, AsksNothing, words_of};
ghost use Rattle.explain_cli.specs.Explained.{CutShort, IsAnswered, Refuses, WroteAll};
ghost use Rattle.explain_cli.specs.Report.{error_text};
ghost use Rattle.explain_cli.specs.declared.answer.Refusal.TheVariants as refusal;
ghost use Rattle.explain_cli.specs.declared.asking.Question.{Question as QuestionData};
ghost use Rattle.explain_cli.specs.inner.Ending.{Ends, Scripted, course};

use crate::answer::Refusal;
use crate::answering::answer;
use crate::asking::read_question;
use crate::reporting::report;
use crate::status::{ExplainStatus, status_of};
use bumpalo::Bump;
use file_plan::Files;
use std::alloc::Global;
use tk_io::{Sink, Source, read_all, write_all};
use token_cli::{Stop, read_events};

/// How many bytes a script may have.
const LIMIT: u64 = 67_108_864;

// Reads the events of the script, and writes the answer of their files. Patched texts are made in the arena.
fn explain_told<'s, K: Sink>(
    alloc: Global,
    words: &[String],
    script: &'s [u8],
    arena: &'s Bump,
    out: &mut K,
) -> Result<Option<Refusal>, Stop>
    requires { (q : QuestionData) × Asks (words_of words.now) q }
    ensures { (q : QuestionData) × Asks (words_of words.now) q × Scripted result script.entry.now q
        (K.written out.old) (K.written out.new) (K.faults out.old) (K.faults out.new) }
{
    let question = read_question(alloc, words)?;
    let events = read_events(alloc, script)?;
    let files = Files::load(alloc, &events, arena)?;
    match answer(alloc, &files, &question)? {
        Ok(text) => {
            write_all(out, text.as_slice())?;
            Ok(None)
        }
        Err(why) => Ok(Some(why)),
    }
}

// Writes the answer of the script's files. The arena is made first, so that it outlives the files.
fn explain_script<K: Sink>(
    alloc: Global,
    words: &[String],
    script: &[u8],
    out: &mut K,
) -> Result<Option<Refusal>, Stop>
    requires { (q : QuestionData) × Asks (words_of words.now) q }
    ensures { (q : QuestionData) × Asks (words_of words.now) q × Scripted result script.now q
        (K.written out.old) (K.written out.new) (K.faults out.old) (K.faults out.new) }
{
    let arena = Bump::new(alloc);
    explain_told(alloc, words, script, &arena, out)
}

// Whether the arguments ask something: before anything is read. What they ask is read again beside the files.
fn ask(alloc: Global, words: &[String]) -> Result<(), Stop>
    ensures asked { OnOk result ((q : QuestionData) × Asks (words_of words.now) q) }
    ensures usage { IsErrOf result Stop.Usage → AsksNothing (words_of words.now) }
    ensures no_other { IfErr result (λ s. (s ≡ Stop.Usage) ⊎ (s ≡ Stop.NoMemory)) }
{
    match read_question(alloc, words) {
        Ok(_) => Ok(()),
        Err(stop) => Err(stop),
    }
}

// All that is asked, but for the report.
fn main_job<S: Source, K: Sink>(
    alloc: Global,
    words: &[String],
    src: &mut S,
    out: &mut K,
) -> Result<Option<Refusal>, Stop>
    ensures ends { Ends result (words_of words.now) (course (S.left src.old) (S.left src.new)
        (S.faults src.old) (S.faults src.new) (K.written out.old) (K.written out.new)
        (K.faults out.old) (K.faults out.new)) }
    ensures words { AsksNothing (words_of words.now)
        → ((result ≡ Err Stop.Usage) ⊎ (result ≡ Err Stop.NoMemory))
        × (src.new ≡ src.old) × (out.new ≡ out.old) }
    ensures taken { (result ≡ Err Stop.TooLong → ⊥)
        → TakesAtMost most_bytes (S.left src.old) (S.left src.new) }
{
    ask(alloc, words)?;
    let script = read_all(alloc, src, LIMIT)?;
    explain_script(alloc, words, script.as_slice(), out)
}

/// Writes what the arguments ask of the script's files, which are those after its last event: with `show PERM PLACE` the
/// certificate of the place in the permutation, with `check CERT` the line `valid` where the file CERT is a certificate that
/// holds. Writes a line about a failure, or about what is missing, to `err`, and answers how it ended.
pub fn run_explain<S: Source, K: Sink, E: Sink>(
    alloc: Global,
    words: &[String],
    src: &mut S,
    out: &mut K,
    err: &mut E,
) -> ExplainStatus
    // The answer was written: the certificate of the place, which holds, whose hops explain it, and which is read again as
    // itself; or that a certificate holds.
    ensures done { result ≡ ExplainStatus.Done → WroteAll (words_of words.now)
        (S.left src.old) (S.left src.new) (K.written out.old) (K.written out.new) }
    // There is no answer, nothing was written, and why is told: the first reason in the order of the tries.
    ensures no_file { result ≡ ExplainStatus.NoFile → Refuses refusal.NoFile (words_of words.now)
        (S.left src.old) (S.left src.new) (K.written out.old) (K.written out.new) }
    ensures bad_certificate { result ≡ ExplainStatus.BadCertificate
        → Refuses refusal.BadCertificate (words_of words.now)
        (S.left src.old) (S.left src.new) (K.written out.old) (K.written out.new) }
    ensures refused { result ≡ ExplainStatus.Refused → Refuses refusal.Refused (words_of words.now)
        (S.left src.old) (S.left src.new) (K.written out.old) (K.written out.new) }
    ensures no_permutation { result ≡ ExplainStatus.NoPermutation
        → Refuses refusal.NoPermutation (words_of words.now)
        (S.left src.old) (S.left src.new) (K.written out.old) (K.written out.new) }
    ensures no_place { result ≡ ExplainStatus.NoPlace → Refuses refusal.NoPlace (words_of words.now)
        (S.left src.old) (S.left src.new) (K.written out.old) (K.written out.new) }
    // The usage is told exactly where the arguments ask nothing, unless memory runs out; nothing is read or written then.
    ensures usage { result ≡ ExplainStatus.Usage → AsksNothing (words_of words.now) }
    ensures words { AsksNothing (words_of words.now)
        → ((result ≡ ExplainStatus.Usage) ⊎ (result ≡ ExplainStatus.NoMemory))
        × (src.new ≡ src.old) × (out.new ≡ out.old) }
    // What was read to the end is no script, and the place where it is refused is said.
    ensures bad_script { result ≡ ExplainStatus.BadScript → (at : ℕ)
        × IsNoScript (S.left src.old) (S.left src.new) at
        × (K.written out.new ≡ K.written out.old)
        × Reports (E.written err.old) (E.written err.new) (E.faults err.old) (E.faults err.new)
        (error_text result at) }
    // An event does not fit, its number is said, and nothing is written.
    ensures bad_event { result ≡ ExplainStatus.BadEvent → (number : ℕ)
        × HasUnfitEvent (S.left src.old) (S.left src.new) number
        × (K.written out.new ≡ K.written out.old)
        × Reports (E.written err.old) (E.written err.new) (E.faults err.old) (E.faults err.new)
        (error_text result number) }
    // A fault is answered only where its count rose. Of the answer a part is written where writing failed, ..
    ensures read_fault { result ≡ ExplainStatus.ReadFault
        → Rose (S.faults src.old) (S.faults src.new) × (K.written out.new ≡ K.written out.old) }
    ensures write_fault { result ≡ ExplainStatus.WriteFault
        → Rose (K.faults out.old) (K.faults out.new) × CutShort (words_of words.now)
        (S.left src.old) (S.left src.new) (K.written out.old) (K.written out.new) }
    // .. and nothing where memory ran out or a script is too long.
    ensures no_memory { result ≡ ExplainStatus.NoMemory
        → (K.written out.new ≡ K.written out.old) }
    // A script is too long exactly where one byte more than the limit was taken.
    ensures too_long { result ≡ ExplainStatus.TooLong
        → TakesExactly (most_bytes + 1) (S.left src.old) (S.left src.new)
        × (K.written out.new ≡ K.written out.old) }
    ensures taken { (result ≡ ExplainStatus.TooLong → ⊥)
        → TakesAtMost most_bytes (S.left src.old) (S.left src.new) }
    // Where the arguments ask something, the script has a reading, each event fits and nothing fails, the question is
    // answered, or memory ran out.
    ensures complete { (q : QuestionData) (script : List ℕ) (es : List EventData)
        → Asks (words_of words.now) q
        → S.left src.old ≡ Some script → length script ≤ most_bytes → IsScript script es
        → EveryFits es
        → (Rose (S.faults src.old) (S.faults src.new) → ⊥)
        → (Rose (K.faults out.old) (K.faults out.new) → ⊥) → IsAnswered result }
    // Where an event does not fit and reading doesn't fail, that is said, or memory ran out.
    ensures unfit { (q : QuestionData) (script : List ℕ) (es : List EventData) (number : ℕ)
        → Asks (words_of words.now) q
        → S.left src.old ≡ Some script → length script ≤ most_bytes → IsScript script es
        → IsUnfit es number → (Rose (S.faults src.old) (S.faults src.new) → ⊥)
        → (result ≡ ExplainStatus.BadEvent) ⊎ (result ≡ ExplainStatus.NoMemory) }
    // Where the script has no reading and reading doesn't fail, that is said, or memory ran out.
    ensures unread { (q : QuestionData) (script : List ℕ) → Asks (words_of words.now) q
        → S.left src.old ≡ Some script
        → length script ≤ most_bytes → ((es : List EventData) → IsScript script es → ⊥)
        → (Rose (S.faults src.old) (S.faults src.new) → ⊥)
        → (result ≡ ExplainStatus.BadScript) ⊎ (result ≡ ExplainStatus.NoMemory) }
    // Where the script is longer than the limit and reading doesn't fail, that is said, or memory ran out.
    ensures endless { (q : QuestionData) (script : List ℕ) → Asks (words_of words.now) q
        → S.left src.old ≡ Some script
        → most_bytes < length script → (Rose (S.faults src.old) (S.faults src.new) → ⊥)
        → (result ≡ ExplainStatus.TooLong) ⊎ (result ≡ ExplainStatus.NoMemory) }
    // The error text was appended whole, or a part of it was and the error sink failed.
    ensures error { (result ≡ ExplainStatus.BadScript → ⊥) → (result ≡ ExplainStatus.BadEvent → ⊥)
        → Reports (E.written err.old) (E.written err.new) (E.faults err.old) (E.faults err.new)
        (error_text result 0) }
{
    let ended = main_job(alloc, words, src, out);
    report(err, ended);
    status_of(ended)
}
