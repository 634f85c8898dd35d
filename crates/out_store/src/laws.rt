//! Laws of what is kept: a function that does nothing and is called for what it ensures.

ghost use Rattle.std.specs.Prelude.{◌≡◌, List, ℕ};
ghost use Rattle.std.specs.FinMap as map;
ghost use Rattle.tk_io.specs.FilesData.{FilesData};
ghost use Rattle.out_store.specs.Kept.{IsBadSlot, IsUnder, Kept};
ghost use Rattle.out_store.specs.Manifest.{IsManifest};
ghost use Rattle.out_store.specs.declared.slot.Slot.{Slot as SlotData};

/// A store that holds nothing is kept; a store that is kept has no bad slot; a text is the manifest of one list of paths;
/// and one map has the files under `out/`.
pub fn store_laws()
    ensures first { Kept map.empty }
    ensures readable { (m : FilesData) (s : SlotData) → Kept m → IsBadSlot m s → ⊥ }
    ensures one_list { (text : List ℕ) (paths others : List (List ℕ))
        → IsManifest text paths → IsManifest text others → paths ≡ others }
    ensures one_under { (m under other : FilesData) → IsUnder m under → IsUnder m other
        → under ≡ other }
{}
