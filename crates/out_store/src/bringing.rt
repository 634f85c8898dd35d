//! Bringing the files under `out/` to outputs.

ghost use Rattle.std.specs.Prelude.{◌≡◌, Some, IfOk, OnOk};
ghost use Rattle.std.specs.FinMap as finite;
ghost use Rattle.std.specs.Option.{option_map};
ghost use Rattle.std.specs.String.{string_bytes};
ghost use Rattle.out_store.specs.Effects.{Elsewhere, IsCaused, Told};
ghost use Rattle.out_store.specs.Paths.{out_place};
ghost use Rattle.out_store.specs.inner.Passing.{IsBrought, IsWithin};

use crate::manifest::Paths;
use crate::stop::StoreStop;
use crate::store::Store;
use std::alloc::Global;
use tk_io::{NoMemory, Outputs};

// Where the output stands.
fn out_place(alloc: Global, path: &str) -> Result<String, NoMemory>
    ensures { IfOk result (λ place. string_bytes place ≡ out_place path.now) }
{
    let mut place = String::from_str(alloc, "out/")?;
    place.push_str(path)?;
    Ok(place)
}

// Writes the bytes where other bytes were found.
fn write_other<T: Store>(
    store: &mut T,
    place: &str,
    found: &[u8],
    bytes: &[u8],
) -> Result<(), StoreStop>
    ensures elsewhere { Told (T.held store.old) (T.held store.new) (Elsewhere place.now) }
    ensures there { OnOk result (Told (T.held store.old) (T.held store.new)
        (λ m n. finite.get m place.now ≡ Some found.now
        → finite.get n place.now ≡ Some bytes.now)) }
    ensures cause { IsCaused (T.faults store.old) (T.faults store.new) result }
{
    if found == bytes {
        return Ok(());
    }
    store.write(place, bytes)
}

// Writes the bytes where other bytes stand, or none.
fn write_changed<T: Store>(store: &mut T, place: &str, bytes: &[u8]) -> Result<(), StoreStop>
    ensures elsewhere { Told (T.held store.old) (T.held store.new) (Elsewhere place.now) }
    ensures there { OnOk result (Told (T.held store.old) (T.held store.new)
        (λ m n. finite.get n place.now ≡ Some bytes.now)) }
    ensures cause { IsCaused (T.faults store.old) (T.faults store.new) result }
{
    match store.read(place)? {
        Some(found) => write_other(store, place, found.as_slice(), bytes),
        None => store.write(place, bytes),
    }
}

// Brings one place to what is wanted there.
fn bring_place<T: Store>(store: &mut T, place: &str, wanted: Option<&[u8]>) -> Result<(), StoreStop>
    ensures elsewhere { Told (T.held store.old) (T.held store.new) (Elsewhere place.now) }
    ensures there { OnOk result (Told (T.held store.old) (T.held store.new)
        (λ m n. finite.get n place.now ≡ option_map (λ b. b.now) wanted.entry)) }
    ensures cause { IsCaused (T.faults store.old) (T.faults store.new) result }
{
    match wanted {
        Some(bytes) => write_changed(store, place, bytes),
        None => store.remove(place),
    }
}

// Brings the output at one path to what is wanted there.
fn bring<T: Store>(
    alloc: Global,
    store: &mut T,
    path: &str,
    outputs: &Outputs,
) -> Result<(), StoreStop>
    ensures elsewhere { Told (T.held store.old) (T.held store.new) (Elsewhere (out_place path.now)) }
    ensures there { OnOk result (Told (T.held store.old) (T.held store.new)
        (λ m n. finite.get n (out_place path.now) ≡ finite.get outputs.now path.now)) }
    ensures cause { IsCaused (T.faults store.old) (T.faults store.new) result }
{
    let place = out_place(alloc, path)?;
    bring_place(store, place.as_str(), outputs.get(path))
}

/// Brings the outputs at these paths, in byte order, to those that are wanted there: each is written where it is absent or
/// differs, and taken away where none is wanted.
pub(crate) fn bring_all<T: Store>(
    alloc: Global,
    store: &mut T,
    paths: &Paths,
    outputs: &Outputs,
) -> Result<(), StoreStop>
    ensures within { Told (T.held store.old) (T.held store.new)
        (IsWithin (finite.contains_key paths.now)) }
    ensures brought { OnOk result (Told (T.held store.old) (T.held store.new)
        (λ m n. IsBrought (finite.contains_key paths.now) outputs.now n)) }
    ensures cause { IsCaused (T.faults store.old) (T.faults store.new) result }
{
    for (path, _) in paths.entries() {
        bring(alloc, store, path.as_str(), outputs)?;
    }
    Ok(())
}
