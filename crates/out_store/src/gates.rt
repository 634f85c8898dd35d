//! The gates of a store, and passing from one to the other.

ghost use Rattle.std.specs.Prelude.{◌≡◌, false, List, ℕ, IfOk, OnOk, IfSome};
ghost use Rattle.out_store.specs.Effects.{IsCaused, Told};
ghost use Rattle.out_store.specs.Kept.{Kept, has, has_gate};
ghost use Rattle.out_store.specs.inner.Passing.{AreGates, IsDropped, IsReady, SameOutputs, Stands};
ghost use Rattle.out_store.specs.inner.Passing.{both_gated, current, gated_by};

use crate::slot::Slot;
use crate::stop::StoreStop;
use crate::store::Store;

/// Which gates stand.
#[derive(Clone, Copy)]
pub(crate) struct Gates {
    /// That of `meta/0`.
    pub zero: bool,
    /// That of `meta/1`.
    pub one: bool,
}

impl Gates {
    /// The lower slot whose gate stands; without a gate the slot 1.
    pub fn current(self) -> Slot
        ensures { result ≡ current self }
    {
        if self.zero {
            return Slot::Zero;
        }
        Slot::One
    }

    /// Whether a gate stands.
    pub fn any(self) -> bool
        ensures { result ≡ gated_by self }
    {
        self.zero || self.one
    }

    /// Whether both stand.
    pub fn both(self) -> bool
        ensures { result ≡ both_gated self }
    {
        self.zero && self.one
    }
}

// Whether the path is held.
fn is_held<T: Store>(store: &mut T, path: &str) -> Result<bool, StoreStop>
    ensures found { IfOk result (λ b. IfSome (T.held store.old) (λ m. b ≡ has m path.now)) }
    ensures same { T.held store.new ≡ T.held store.old }
    ensures cause { IsCaused (T.faults store.old) (T.faults store.new) result }
{
    match store.read(path) {
        Ok(found) => Ok(found.is_some()),
        Err(stop) => Err(stop),
    }
}

/// Reads both gates, that of `meta/0` first.
pub(crate) fn read_gates<T: Store>(store: &mut T) -> Result<Gates, StoreStop>
    ensures gates { IfOk result (λ gates. IfSome (T.held store.old) (AreGates gates)) }
    ensures same { T.held store.new ≡ T.held store.old }
    ensures cause { IsCaused (T.faults store.old) (T.faults store.new) result }
{
    let zero = is_held(store, Slot::Zero.gate())?;
    let one = is_held(store, Slot::One.gate())?;
    Ok(Gates { zero, one })
}

/// Takes the slot's gate away where it stands.
pub(crate) fn remove_gate<T: Store>(
    store: &mut T,
    slot: Slot,
    stands: bool,
) -> Result<(), StoreStop>
    ensures dropped { Told (T.held store.old) (T.held store.new) (IsDropped slot) }
    ensures gone { OnOk result (Told (T.held store.old) (T.held store.new)
        (λ m n. has_gate m slot ≡ stands → has_gate n slot ≡ false)) }
    ensures cause { IsCaused (T.faults store.old) (T.faults store.new) result }
{
    if stands {
        return store.remove(slot.gate());
    }
    Ok(())
}

/// Writes the manifest to the slot, then its gate, and takes the other gate away where it stands.
pub(crate) fn pass_gate<T: Store>(
    store: &mut T,
    slot: Slot,
    manifest: &[u8],
    other_stands: bool,
) -> Result<(), StoreStop>
    ensures kept { Told (T.held store.old) (T.held store.new) (λ m n. (paths : List (List ℕ))
        → IsReady m slot manifest.now other_stands paths → Kept m → Kept n) }
    ensures stands { OnOk result (Told (T.held store.old) (T.held store.new)
        (λ m n. (paths : List (List ℕ))
        → IsReady m slot manifest.now other_stands paths → Kept m → Stands n slot paths)) }
    ensures outputs { OnOk result (Told (T.held store.old) (T.held store.new) SameOutputs) }
    ensures cause { IsCaused (T.faults store.old) (T.faults store.new) result }
{
    store.write(slot.manifest(), manifest)?;
    store.write(slot.gate(), b"")?;
    remove_gate(store, slot.other(), other_stands)
}
