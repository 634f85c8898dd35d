//! Why a call on a store, or bringing a store to outputs, ends early.

ghost use Rattle.std.specs.Prelude.{◌≡◌};
ghost use Rattle.out_store.specs.declared.stop.StoreStop.TheVariants.{NoMemory as StoreOutOfMemory};
ghost use Rattle.out_store.specs.declared.stop.SyncStop.TheVariants.{NoMemory as SyncOutOfMemory};
ghost use Rattle.out_store.specs.Effects.{stop_of};

use crate::slot::Slot;
use std::alloc::{AllocError, AllocFailed};
use tk_io::NoMemory;

/// Why a call on a store was refused.
#[derive(Clone, Copy, PartialEq, Eq)]
pub enum StoreStop {
    /// The store failed, and counted a fault.
    Failed,
    /// Memory ran out.
    NoMemory,
}

impl From<NoMemory> for StoreStop {
    ghost from_gives = { λ _ e. e ≡ StoreOutOfMemory };

    fn from(_: NoMemory) -> StoreStop {
        StoreStop::NoMemory
    }
}

impl From<AllocError> for StoreStop {
    ghost from_gives = { λ _ e. e ≡ StoreOutOfMemory };

    fn from(_: AllocError) -> StoreStop {
        StoreStop::NoMemory
    }
}

/// Why a store was not brought to the outputs.
#[derive(Clone, Copy, PartialEq, Eq)]
pub enum SyncStop {
    /// A call on the store failed.
    StoreFault,
    /// The slot's gate stands, and the slot is empty or holds no manifest.
    BadManifest(Slot),
    /// Memory ran out.
    NoMemory,
}

impl From<NoMemory> for SyncStop {
    ghost from_gives = { λ _ e. e ≡ SyncOutOfMemory };

    fn from(_: NoMemory) -> SyncStop {
        SyncStop::NoMemory
    }
}

impl From<StoreStop> for SyncStop {
    ghost from_gives = { λ s e. e ≡ stop_of s };

    fn from(stop: StoreStop) -> SyncStop {
        match stop {
            StoreStop::Failed => SyncStop::StoreFault,
            StoreStop::NoMemory => SyncStop::NoMemory,
        }
    }
}
