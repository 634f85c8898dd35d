//! Running the arguments of the command line.

ghost use Rattle.std.specs.Prelude.{Some, None, Err, ◌⊎◌, ◌≡◌, ◌≢◌, ◌≤◌, ℕ, true};
ghost use Rattle.tk_io.specs.Reading.{TakesAtMost};
ghost use Rattle.generated_script.specs.Script.{script_of};
ghost use Rattle.generated_script.specs.declared.script.TheConstants.{MOST_TOKENS};
ghost use Rattle.token_cli.specs.Course.{course};
ghost use Rattle.token_cli.specs.Headline.{asked_by, most_bytes, reads_source};
ghost use Rattle.token_cli.specs.Runs.{Runs};
ghost use Rattle.token_cli.specs.inner.Ending.{Ends, Scripted};

use crate::reading::read_events;
use crate::replaying::write_events;
use crate::reporting::report;
use crate::status::{Status, status_of};
use crate::stop::Stop;
use build_plain::one_build;
use bumpalo::Bump;
use command_words::{Command, read_words, words_of_commands};
use generated_script::{gen_script, generated_events};
use rebuild_core::work_laws;
use std::alloc::Global;
use tk_io::{Sink, Source, read_all};

/// How many bytes a script may have.
const LIMIT: u64 = 67_108_864;

// Reads the events of the script, and writes what the command tells of them. Patched texts are made in the arena.
fn write_told<'s, K: Sink>(
    alloc: Global,
    command: Command,
    script: &'s [u8],
    arena: &'s Bump,
    out: &mut K,
) -> Result<bool, Stop>
    ensures { Scripted result command script.entry.now (K.written out.old) (K.written out.new)
        (K.faults out.old) (K.faults out.new) }
{
    let events = read_events(alloc, script)?;
    write_events(alloc, command, &events, arena, out)
}

// Writes what the command tells of the script. The arena is made first, so that it outlives the files.
fn write_script<K: Sink>(
    alloc: Global,
    command: Command,
    script: &[u8],
    out: &mut K,
) -> Result<bool, Stop>
    ensures { Scripted result command script.now (K.written out.old) (K.written out.new)
        (K.faults out.old) (K.faults out.new) }
{
    let arena = Bump::new(alloc);
    write_told(alloc, command, script, &arena, out)
}

// Reads the script of the source, and writes what the command tells of it.
fn tell_source<S: Source, K: Sink>(
    alloc: Global,
    command: Command,
    src: &mut S,
    out: &mut K,
) -> Result<bool, Stop>
    requires { reads_source command ≡ true }
    ensures ends { Ends result (Some command) (course (S.left src.old) (S.left src.new)
        (S.faults src.old) (S.faults src.new) (K.written out.old) (K.written out.new)
        (K.faults out.old) (K.faults out.new)) }
    ensures taken { (result ≡ Err Stop.TooLong → ⊥)
        → TakesAtMost most_bytes (S.left src.old) (S.left src.new) }
{
    let script = read_all(alloc, src, LIMIT)?;
    write_script(alloc, command, script.as_slice(), out)
}

// Writes the statistics of the script that is made of the numbers of `gen`.
fn tell_generated<K: Sink>(alloc: Global, seed: u32, size: u32, out: &mut K) -> Result<bool, Stop>
    requires { (1 ≤ size) × (size ≤ MOST_TOKENS) }
    ensures scripted { Scripted result (Command.Gen seed size) (script_of seed size)
        (K.written out.old) (K.written out.new) (K.faults out.old) (K.faults out.new) }
    ensures reads { (at : ℕ) → result ≡ Err (Stop.BadScript at) → ⊥ }
    ensures fits { (number : ℕ) → result ≡ Err (Stop.BadEvent number) → ⊥ }
{
    generated_events();
    let script = gen_script(alloc, seed, size)?;
    write_script(alloc, Command::Gen(seed, size), script.as_slice(), out)
}

// All that the arguments ask for, but for the report.
pub(crate) fn main_job<S: Source, K: Sink>(
    alloc: Global,
    words: &[String],
    src: &mut S,
    out: &mut K,
) -> Result<bool, Stop>
    ensures ends { Ends result (asked_by words.now) (course (S.left src.old) (S.left src.new)
        (S.faults src.old) (S.faults src.new) (K.written out.old) (K.written out.new)
        (K.faults out.old) (K.faults out.new)) }
    ensures words { asked_by words.now ≡ None
        → ((result ≡ Err Stop.Usage) ⊎ (result ≡ Err Stop.NoMemory))
        × (src.new ≡ src.old) × (K.written out.new ≡ K.written out.old) }
    ensures generated { (seed size : ℕ) → asked_by words.now ≡ Some (Command.Gen seed size)
        → (src.new ≡ src.old) × ((at : ℕ) → result ≡ Err (Stop.BadScript at) → ⊥)
        × (result ≢ Err Stop.ReadFault) × (result ≢ Err Stop.TooLong)
        × ((number : ℕ) → result ≡ Err (Stop.BadEvent number) → ⊥) }
    ensures taken { (result ≡ Err Stop.TooLong → ⊥)
        → TakesAtMost most_bytes (S.left src.old) (S.left src.new) }
{
    words_of_commands();
    let command = read_words(alloc, words)?;
    match command {
        Command::Gen(seed, size) => tell_generated(alloc, seed, size, out),
        Command::Build | Command::Replay | Command::Stats => tell_source(alloc, command, src, out),
    }
}

/// Does what the arguments say, writes the stream or the statistics to `out` and a line about a failure to `err`, and
/// answers how it ended.
///
/// They are `build`, `replay` or `stats`, for the script of the source, or `gen SEED SIZE`, for the script that is made
/// of these two numbers. Commit after commit, the stream has exactly the output files that a build from nothing of
/// the files then present would change, and the statistics say how many they are, and how much was done for them. `build`
/// acts as if every commit were taken out and one stood at the end; `gen` writes statistics, and reads nothing.
pub fn run<S: Source, K: Sink, E: Sink>(
    alloc: Global,
    words: &[String],
    src: &mut S,
    out: &mut K,
    err: &mut E,
) -> Status
    // What is promised of the status, the stream, what is read and what is said.
    ensures runs { Runs (asked_by words.now) (course (S.left src.old) (S.left src.new)
        (S.faults src.old) (S.faults src.new) (K.written out.old) (K.written out.new)
        (K.faults out.old) (K.faults out.new)) (E.written err.old) (E.written err.new)
        (E.faults err.old) (E.faults err.new) result }
    // For arguments that are no command, and for `gen`, the source is not touched.
    ensures unread { (asked_by words.now ≡ None → src.new ≡ src.old)
        × ((seed size : ℕ) → asked_by words.now ≡ Some (Command.Gen seed size)
        → src.new ≡ src.old) }
{
    one_build();
    work_laws();
    let ended = main_job(alloc, words, src, out);
    report(err, ended);
    status_of(ended)
}
