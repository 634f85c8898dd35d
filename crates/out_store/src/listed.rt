//! Reading manifests.

ghost use Rattle.std.specs.Prelude.{◌≡◌, ℕ, true, false, List, [], Err, map, IfOk, IfSome, MatchOption};
ghost use Rattle.std.specs.String.{string_bytes};
ghost use Rattle.out_store.specs.Effects.{AreCaused};
ghost use Rattle.out_store.specs.Manifest.{IsManifest};
ghost use Rattle.out_store.specs.inner.Passing.{HoldsNone, IsListedAt, current, gated_by};
ghost use Rattle.out_store.specs.inner.Lines.{IsFirstCut, lacks};
ghost use Rattle.out_store.specs.declared.slot.Slot.{Slot as SlotData};
ghost use Rattle.out_store.specs.declared.stop.SyncStop.TheVariants.{BadManifest as Unread};
ghost use Rattle.tk_io.specs.Characters.{newline};

use crate::gates::Gates;
use crate::output_path::is_output_path;
use crate::slot::Slot;
use crate::stop::SyncStop;
use crate::store::Store;
use std::alloc::Global;
use std::str;
use tk_io::NoMemory;

// What stands before the first newline, and what stands after it; none where there is no newline.
fn cut_line(text: &str) -> Option<(&str, &str)>
    ensures { MatchOption result (lacks newline text.now ≡ true)
        (λ p. IsFirstCut newline text.now p.0.now p.1.now) }
{
    text.split_once('\n')
}

// The paths of a manifest, or none where the text is no manifest.
fn read_lines(alloc: Global, text: &str) -> Result<Option<Vec<String>>, NoMemory>
    ensures { IfOk result (λ found. MatchOption found
        ((paths : List (List ℕ)) → IsManifest text.now paths → ⊥)
        (λ paths. IsManifest text.now (map string_bytes paths.items))) }
{
    let mut paths: Vec<String> = Vec::new(alloc);
    let mut last = "";
    let mut rest = text;
    while !rest.is_empty() {
        let Some((path, more)) = cut_line(rest) else {
            return Ok(None);
        };
        if !is_output_path(path.as_bytes()) {
            return Ok(None);
        }
        if !last.cmp(path).is_lt() {
            return Ok(None);
        }
        paths.push(String::from_str(alloc, path)?)?;
        last = path;
        rest = more;
    }
    Ok(Some(paths))
}

// The paths of a manifest, or none where the bytes are no manifest.
fn read_manifest(alloc: Global, bytes: &[u8]) -> Result<Option<Vec<String>>, NoMemory>
    ensures { IfOk result (λ found. MatchOption found
        ((paths : List (List ℕ)) → IsManifest bytes.now paths → ⊥)
        (λ paths. IsManifest bytes.now (map string_bytes paths.items))) }
{
    match str::from_utf8(bytes) {
        Ok(text) => read_lines(alloc, text),
        Err(_) => Ok(None),
    }
}

// The paths of the manifest in the slot.
fn read_slot<T: Store>(alloc: Global, store: &mut T, slot: Slot) -> Result<Vec<String>, SyncStop>
    ensures found { IfOk result (λ paths. IfSome (T.held store.old)
        (λ m. IsListedAt m slot (map string_bytes paths.items))) }
    ensures bad { (s : SlotData) → result ≡ Err (Unread s) → (s ≡ slot)
        × IfSome (T.held store.old) (λ m. HoldsNone m slot) }
    ensures same { T.held store.new ≡ T.held store.old }
    ensures cause { AreCaused (T.faults store.old) (T.faults store.new) result }
{
    let Some(bytes) = store.read(slot.manifest())? else {
        return Err(SyncStop::BadManifest(slot));
    };
    match read_manifest(alloc, bytes.as_slice())? {
        Some(paths) => Ok(paths),
        None => Err(SyncStop::BadManifest(slot)),
    }
}

/// The paths that the manifest of the lower slot with a gate lists; none where no gate stands.
pub(crate) fn read_listed<T: Store>(
    alloc: Global,
    store: &mut T,
    gates: Gates,
) -> Result<Vec<String>, SyncStop>
    ensures ungated { gated_by gates ≡ false
        → IfOk result (λ paths. map string_bytes paths.items ≡ []) }
    ensures gated { gated_by gates ≡ true → IfOk result (λ paths. IfSome (T.held store.old)
        (λ m. IsListedAt m (current gates) (map string_bytes paths.items))) }
    ensures bad { (s : SlotData) → result ≡ Err (Unread s) → (gated_by gates ≡ true)
        × (s ≡ current gates) × IfSome (T.held store.old) (λ m. HoldsNone m (current gates)) }
    ensures same { T.held store.new ≡ T.held store.old }
    ensures cause { AreCaused (T.faults store.old) (T.faults store.new) result }
{
    if gates.any() {
        return read_slot(alloc, store, gates.current());
    }
    Ok(Vec::new(alloc))
}
