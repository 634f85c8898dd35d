//! Running the argument of the command line.

ghost use Rattle.std.specs.Prelude.{◌≡◌, ◌≢◌, ◌⊎◌, ◌≤◌, ◌<◌, ◌+◌, ℕ, List, Bool, Some, Ok, Err};
ghost use Rattle.std.specs.Prelude.{length, IfSome};
ghost use Rattle.std.specs.Bool.{Decides};
ghost use Rattle.tk_io.specs.Causes.{Rose};
ghost use Rattle.tk_io.specs.Reading.{TakesAtMost, TakesExactly};
ghost use Rattle.edit_script.specs.Files.{EveryFits, IsUnfit};
ghost use Rattle.edit_script.specs.Script.{EventData, IsScript};
ghost use Rattle.out_store.specs.Effects.{Told};
ghost use Rattle.out_store.specs.Kept.{IsBadSlot, Kept};
ghost use Rattle.out_store.specs.declared.slot.Slot.{Slot as SlotData};
ghost use Rattle.token_cli.specs.Headline.{HasUnfitEvent, IsNoScript, most_bytes};
ghost use Rattle.token_cli.specs.Report.{Reports};
ghost use Rattle.store_cli.specs.Report.{error_text};
ghost use Rattle.store_cli.specs.Stored.{HadBadSlot, IsStored, StoredAll};
ghost use Rattle.store_cli.specs.inner.Ending.{Ends, Scripted, course};

use crate::building::outputs_after;
use crate::reporting::report;
use crate::status::{StoreStatus, status_of};
use crate::stop::Stop;
use bumpalo::Bump;
use out_store::{Store, store_laws, sync};
use std::alloc::Global;
use tk_io::{Sink, Source, read_all};
use token_cli::{is_refused, read_events};

/// How many bytes a script may have.
const LIMIT: u64 = 67_108_864;

// Reads the events of the script, and brings the store to the outputs of their files. Patched texts are made in the arena.
fn store_told<'s, T: Store>(
    alloc: Global,
    script: &'s [u8],
    arena: &'s Bump,
    store: &mut T,
) -> Result<bool, Stop>
    ensures scripted { Scripted result script.entry.now (T.held store.old) (T.held store.new)
        (T.faults store.old) (T.faults store.new) }
    ensures kept { Told (T.held store.old) (T.held store.new) (λ m n. Kept m → Kept n) }
    ensures blocked { IfSome (T.held store.old) (λ m. (s : SlotData) → IsBadSlot m s
        → (refused : Bool) → result ≢ Ok refused) }
{
    let events = read_events(alloc, script)?;
    let outputs = outputs_after(alloc, &events, arena)?;
    sync(alloc, store, &outputs)?;
    Ok(is_refused(&outputs))
}

// Brings the store to the outputs of the script's files. The arena is made first, so that it outlives the files.
fn store_script<T: Store>(alloc: Global, script: &[u8], store: &mut T) -> Result<bool, Stop>
    ensures scripted { Scripted result script.now (T.held store.old) (T.held store.new)
        (T.faults store.old) (T.faults store.new) }
    ensures kept { Told (T.held store.old) (T.held store.new) (λ m n. Kept m → Kept n) }
    ensures blocked { IfSome (T.held store.old) (λ m. (s : SlotData) → IsBadSlot m s
        → (refused : Bool) → result ≢ Ok refused) }
{
    let arena = Bump::new(alloc);
    store_told(alloc, script, &arena, store)
}

// Whether there is one word.
fn is_one(words: &[String]) -> bool
    ensures { Decides result (length words.now ≡ 1) }
{
    words.len() == 1
}

// All that the argument asks for, but for the report.
fn main_job<S: Source, T: Store>(
    alloc: Global,
    words: &[String],
    src: &mut S,
    store: &mut T,
) -> Result<bool, Stop>
    ensures ends { Ends result (length words.now) (course (S.left src.old) (S.left src.new)
        (S.faults src.old) (S.faults src.new) (T.held store.old) (T.held store.new)
        (T.faults store.old) (T.faults store.new)) }
    ensures words { length words.now ≢ 1 → (result ≡ Err Stop.Usage)
        × (src.new ≡ src.old) × (store.new ≡ store.old) }
    ensures taken { (result ≡ Err Stop.TooLong → ⊥)
        → TakesAtMost most_bytes (S.left src.old) (S.left src.new) }
    ensures kept { Told (T.held store.old) (T.held store.new) (λ m n. Kept m → Kept n) }
    ensures blocked { IfSome (T.held store.old) (λ m. (s : SlotData) → IsBadSlot m s
        → (refused : Bool) → result ≢ Ok refused) }
{
    if !is_one(words) {
        return Err(Stop::Usage);
    }
    let script = read_all(alloc, src, LIMIT)?;
    store_script(alloc, script.as_slice(), store)
}

/// Brings the store to the outputs of the script's files: those after its last event. The argument is one word, which the
/// caller made the store of. Writes a line about a failure to `err`, and answers how it ended.
pub fn run_store<S: Source, T: Store, E: Sink>(
    alloc: Global,
    words: &[String],
    src: &mut S,
    store: &mut T,
    err: &mut E,
) -> StoreStatus
    // The store has the outputs, and none of them is a refusal, ..
    ensures done { result ≡ StoreStatus.Done → StoredAll (S.left src.old) (S.left src.new)
        Bool.false (T.held store.old) (T.held store.new) }
    // .. or one is.
    ensures refused { result ≡ StoreStatus.Refused → StoredAll (S.left src.old) (S.left src.new)
        Bool.true (T.held store.old) (T.held store.new) }
    // What is kept of a store stays so, whatever is answered.
    ensures kept { Told (T.held store.old) (T.held store.new) (λ m n. Kept m → Kept n) }
    // The usage is told exactly of arguments that are not one word; nothing is read or stored for them.
    ensures usage { result ≡ StoreStatus.Usage → length words.now ≢ 1 }
    ensures words { length words.now ≢ 1 → (result ≡ StoreStatus.Usage)
        × (src.new ≡ src.old) × (store.new ≡ store.old) }
    // What was read to the end is no script, and the place where it is refused is said.
    ensures bad_script { result ≡ StoreStatus.BadScript → (at : ℕ)
        × IsNoScript (S.left src.old) (S.left src.new) at
        × (T.held store.new ≡ T.held store.old)
        × Reports (E.written err.old) (E.written err.new) (E.faults err.old) (E.faults err.new)
        (error_text result at) }
    // An event does not fit, its number is said, and nothing is stored.
    ensures bad_event { result ≡ StoreStatus.BadEvent → (number : ℕ)
        × HasUnfitEvent (S.left src.old) (S.left src.new) number
        × (T.held store.new ≡ T.held store.old)
        × Reports (E.written err.old) (E.written err.new) (E.faults err.old) (E.faults err.new)
        (error_text result number) }
    // A fault is answered only where its count rose.
    ensures read_fault { result ≡ StoreStatus.ReadFault → Rose (S.faults src.old) (S.faults src.new)
        × (T.held store.new ≡ T.held store.old) }
    ensures store_fault { result ≡ StoreStatus.StoreFault
        → Rose (T.faults store.old) (T.faults store.new) }
    // A bad slot is told only where there was one, which is never so of a store that is kept, ..
    ensures bad_manifest { result ≡ StoreStatus.BadManifest → HadBadSlot (T.held store.old) }
    // .. and where there was one, the store is not said to have the outputs.
    ensures blocked { IfSome (T.held store.old) (λ m. (s : SlotData) → IsBadSlot m s
        → (result ≢ StoreStatus.Done) × (result ≢ StoreStatus.Refused)) }
    // A script is too long exactly where one byte more than the limit was taken.
    ensures too_long { result ≡ StoreStatus.TooLong
        → TakesExactly (most_bytes + 1) (S.left src.old) (S.left src.new)
        × (T.held store.new ≡ T.held store.old) }
    ensures taken { (result ≡ StoreStatus.TooLong → ⊥)
        → TakesAtMost most_bytes (S.left src.old) (S.left src.new) }
    // Where the script has a reading, each event fits and nothing fails, the store has the outputs, or had a bad slot, or
    // memory ran out.
    ensures complete { (script : List ℕ) (es : List EventData) → length words.now ≡ 1
        → S.left src.old ≡ Some script → length script ≤ most_bytes → IsScript script es
        → EveryFits es
        → (Rose (S.faults src.old) (S.faults src.new) → ⊥)
        → (Rose (T.faults store.old) (T.faults store.new) → ⊥)
        → IsStored result ⊎ (result ≡ StoreStatus.BadManifest) }
    // Where an event does not fit and reading doesn't fail, that is said, or memory ran out.
    ensures unfit { (script : List ℕ) (es : List EventData) (number : ℕ) → length words.now ≡ 1
        → S.left src.old ≡ Some script → length script ≤ most_bytes → IsScript script es
        → IsUnfit es number → (Rose (S.faults src.old) (S.faults src.new) → ⊥)
        → (result ≡ StoreStatus.BadEvent) ⊎ (result ≡ StoreStatus.NoMemory) }
    // Where the script has no reading and reading doesn't fail, that is said, or memory ran out.
    ensures unread { (script : List ℕ) → length words.now ≡ 1 → S.left src.old ≡ Some script
        → length script ≤ most_bytes → ((es : List EventData) → IsScript script es → ⊥)
        → (Rose (S.faults src.old) (S.faults src.new) → ⊥)
        → (result ≡ StoreStatus.BadScript) ⊎ (result ≡ StoreStatus.NoMemory) }
    // Where the script is longer than the limit and reading doesn't fail, that is said, or memory ran out.
    ensures endless { (script : List ℕ) → length words.now ≡ 1 → S.left src.old ≡ Some script
        → most_bytes < length script → (Rose (S.faults src.old) (S.faults src.new) → ⊥)
        → (result ≡ StoreStatus.TooLong) ⊎ (result ≡ StoreStatus.NoMemory) }
    // The error text was appended whole, or a part of it was and the error sink failed.
    ensures error { (result ≡ StoreStatus.BadScript → ⊥) → (result ≡ StoreStatus.BadEvent → ⊥)
        → Reports (E.written err.old) (E.written err.new) (E.faults err.old) (E.faults err.new)
        (error_text result 0) }
{
    store_laws();
    let ended = main_job(alloc, words, src, store);
    report(err, ended);
    status_of(ended)
}
