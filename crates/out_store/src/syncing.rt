//! Bringing a store to outputs in four steps, so that a stop at any call is mended by the next run.

ghost use Rattle.std.specs.Prelude.{◌≡◌, ℕ, List, Err, true, IsErr, OnOk, IfSome};
ghost use Rattle.std.specs.FinMap as finite;
ghost use Rattle.out_store.specs.Effects.{AreCaused, IsCaused, Told};
ghost use Rattle.out_store.specs.Kept.{IsBadSlot, IsUnder, Kept};
ghost use Rattle.out_store.specs.Paths.{IsOutputPath};
ghost use Rattle.out_store.specs.inner.Passing.{AreGates, IsAnnounced, Lists, Stands, other_than};
ghost use Rattle.out_store.specs.declared.slot.Slot.{Slot as SlotData};
ghost use Rattle.out_store.specs.declared.stop.SyncStop.TheVariants.{BadManifest as Unread};

use crate::bringing::bring_all;
use crate::gates::{Gates, pass_gate, read_gates, remove_gate};
use crate::listed::read_listed;
use crate::manifest::{Paths, all_paths, manifest_of};
use crate::stop::{StoreStop, SyncStop};
use crate::store::Store;
use std::alloc::Global;
use tk_io::Outputs;

// Makes the slot without a current gate list these paths, and gates it alone.
fn announce<T: Store>(store: &mut T, gates: Gates, manifest: &[u8]) -> Result<(), StoreStop>
    ensures kept { Told (T.held store.old) (T.held store.new) (λ m n. (paths : List (List ℕ))
        → Lists m manifest.now paths → AreGates gates m → Kept m → Kept n) }
    ensures stands { OnOk result (Told (T.held store.old) (T.held store.new)
        (λ m n. (paths : List (List ℕ))
        → Lists m manifest.now paths → AreGates gates m → Kept m
        → Stands n (other_than gates) paths)) }
    ensures cause { IsCaused (T.faults store.old) (T.faults store.new) result }
{
    let next = gates.current().other();
    remove_gate(store, next, gates.both())?;
    pass_gate(store, next, manifest, gates.any())
}

// Makes the paths stand in a gated manifest, brings the outputs at them, and makes those of the outputs alone stand in
// the other manifest, gated alone.
fn replace<T: Store>(
    alloc: Global,
    store: &mut T,
    gates: Gates,
    paths: &Paths,
    outputs: &Outputs,
) -> Result<(), StoreStop>
    ensures kept { Told (T.held store.old) (T.held store.new)
        (λ m n. IsAnnounced m gates paths.now outputs.now → Kept m → Kept n) }
    ensures exact { OnOk result (Told (T.held store.old) (T.held store.new)
        (λ m n. IsAnnounced m gates paths.now outputs.now → Kept m → IsUnder n outputs.now)) }
    ensures cause { IsCaused (T.faults store.old) (T.faults store.new) result }
{
    let both = manifest_of(alloc, paths.entries())?;
    let wanted = manifest_of(alloc, outputs.entries())?;
    announce(store, gates, both.as_slice())?;
    bring_all(alloc, store, paths, outputs)?;
    pass_gate(store, gates.current(), wanted.as_slice(), true)
}

/// Brings the files under `out/` of the store to exactly these outputs.
///
/// Let the current slot be the lower one whose gate stands (1 where none does), and its paths those of its manifest (none
/// where no gate stands). The manifest of these paths and those of the outputs together is written to the other slot and
/// gated, and the current gate taken away. Then, path by path in byte order, an output is written where it is absent or
/// differs, and what is no output any more is taken away. At last the manifest of the outputs is written to the slot that
/// was current and gated, and the other gate taken away. So a manifest that counts lists all that may stand, whatever
/// call was the last one, and the next run mends what this one left.
///
/// # Errors
/// `StoreFault` only where a call on the store failed; `BadManifest` exactly where the current slot's gate stands and it
/// holds no manifest, which never comes of this call's own doing; `NoMemory`.
pub fn sync<T: Store>(alloc: Global, store: &mut T, outputs: &Outputs) -> Result<(), SyncStop>
    requires { (path : List ℕ) → finite.contains_key outputs.now path ≡ true → IsOutputPath path }
    // What is kept of a store stays so, whatever failed.
    ensures kept { Told (T.held store.old) (T.held store.new) (λ m n. Kept m → Kept n) }
    // Under `out/` stand exactly the outputs.
    ensures exact { OnOk result (Told (T.held store.old) (T.held store.new)
        (λ m n. Kept m → IsUnder n outputs.now)) }
    // A bad slot is told only where there is one, which is never so of a store that is kept, ..
    ensures bad { (s : SlotData) → result ≡ Err (Unread s)
        → IfSome (T.held store.old) (λ m. IsBadSlot m s × (Kept m → ⊥)) }
    // .. and where there is one, the outputs are not brought.
    ensures blocked { IfSome (T.held store.old) (λ m. (s : SlotData) → IsBadSlot m s → IsErr result) }
    // A fault of the store is told exactly where its count rose.
    ensures cause { AreCaused (T.faults store.old) (T.faults store.new) result }
{
    let gates = read_gates(store)?;
    let listed = read_listed(alloc, store, gates)?;
    let paths = all_paths(alloc, listed.as_slice(), outputs)?;
    replace(alloc, store, gates, &paths, outputs)?;
    Ok(())
}
