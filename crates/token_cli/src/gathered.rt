//! A run over a sink to which the pieces are handed on in larger ones.

ghost use Rattle.std.specs.Prelude.{Some, None, Err, Option, List, [], ◌⊎◌, ◌≡◌, ◌≢◌, ℕ};
ghost use Rattle.std.specs.Io.KnownBytes.{Keeps, append_known};
ghost use Rattle.tk_io.specs.Reading.{TakesAtMost};
ghost use Rattle.token_cli.specs.Course.{course};
ghost use Rattle.token_cli.specs.Headline.{asked_by, most_bytes};
ghost use Rattle.token_cli.specs.Runs.{Runs};
ghost use Rattle.token_cli.specs.inner.Ending.{Ends};
ghost use Rattle.token_cli.specs.inner.Gathered.{HandsOn};

use crate::reporting::report;
use crate::running::main_job;
use crate::status::{Status, status_of};
use crate::stop::Stop;
use build_plain::one_build;
use command_words::Command;
use gathering::{GatheringSink, Start};
use rebuild_core::work_laws;
use std::alloc::Global;
use std::marker::Brand;
use tk_io::{Sink, Source};

// How a run ends, once what its sink holds is handed on, where it may hold anything. Where memory ran out, that is told,
// whatever becomes of it.
fn handed_on<K: Sink, B: Start>(
    out: &mut GatheringSink<K, B>,
    ended: Result<bool, Stop>,
) -> Result<bool, Stop>
    ensures hands { HandsOn ended result out.new.1
        B.faults (K.faults out.old.0) (K.faults out.new.0) }
    ensures kept { Keeps (append_known (K.written out.old.0) out.old.1)
        (append_known (K.written out.new.0) out.new.1) }
{
    match ended {
        Ok(_) | Err(Stop::BadEvent(_)) => {
            out.flush()?;
            ended
        }
        Err(Stop::NoMemory) => {
            let _ = out.flush();
            ended
        }
        Err(_) => ended,
    }
}

// All that the arguments ask for, but for the report, over a sink that gathers; with the sink behind it.
fn gathered_job<S: Source, K: Sink, B: Start>(
    alloc: Global,
    words: &[String],
    src: &mut S,
    out: K,
) -> (Result<bool, Stop>, K)
    requires written { K.written out ≡ B.written }
    requires faults { K.faults out ≡ B.faults }
    ensures ends { (given : Option (List ℕ)) × Keeps given (K.written result.1)
        × Ends result.0 (asked_by words.now) (course (S.left src.old) (S.left src.new)
        (S.faults src.old) (S.faults src.new) B.written given B.faults (K.faults result.1))
        × (asked_by words.now ≡ None → given ≡ B.written) }
    ensures words { asked_by words.now ≡ None
        → ((result.0 ≡ Err Stop.Usage) ⊎ (result.0 ≡ Err Stop.NoMemory)) × (src.new ≡ src.old) }
    ensures generated { (seed size : ℕ) → asked_by words.now ≡ Some (Command.Gen seed size)
        → (src.new ≡ src.old) × ((at : ℕ) → result.0 ≡ Err (Stop.BadScript at) → ⊥)
        × (result.0 ≢ Err Stop.ReadFault) × (result.0 ≢ Err Stop.TooLong)
        × ((number : ℕ) → result.0 ≡ Err (Stop.BadEvent number) → ⊥) }
    ensures taken { (result.0 ≡ Err Stop.TooLong → ⊥)
        → TakesAtMost most_bytes (S.left src.old) (S.left src.new) }
{
    let mut gathering: GatheringSink<K, B> = GatheringSink::new(alloc, out);
    let job = main_job(alloc, words, src, &mut gathering);
    let ended = handed_on(&mut gathering, job);
    (ended, gathering.into_inner())
}

/// Does what the arguments say, as `run` does; what is written is handed to the sink in pieces of up to 65,536 bytes, and
/// the rest of it before the run says how it ended. With the sink.
pub fn run_gathered<S: Source, K: Sink, E: Sink>(
    alloc: Global,
    words: &[String],
    src: &mut S,
    out: K,
    err: &mut E,
) -> (Status, K)
    // What is promised of the status, the stream, what is read and what is said is what `run` promises.
    ensures runs { (given : Option (List ℕ)) × Keeps given (K.written result.1)
        × Runs (asked_by words.now) (course (S.left src.old) (S.left src.new)
        (S.faults src.old) (S.faults src.new) (K.written out) given
        (K.faults out) (K.faults result.1)) (E.written err.old) (E.written err.new)
        (E.faults err.old) (E.faults err.new) result.0 }
    // For arguments that are no command, and for `gen`, the source is not touched.
    ensures unread { (asked_by words.now ≡ None → src.new ≡ src.old)
        × ((seed size : ℕ) → asked_by words.now ≡ Some (Command.Gen seed size)
        → src.new ≡ src.old) }
{
    one_build();
    work_laws();
    let (ended, sink) = gathered_job::<S, K, Brand>(alloc, words, src, out);
    report(err, ended);
    (status_of(ended), sink)
}
