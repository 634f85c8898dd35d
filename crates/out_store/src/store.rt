//! What holds bytes under paths, and may fail at each call.

ghost use Rattle.std.specs.Prelude.{◌≡◌, ℕ, Option, IfOk, OnOk, OnErr, IfSome};
ghost use Rattle.std.specs.FinMap as map;
ghost use Rattle.tk_io.specs.FilesData.{FilesData};
ghost use Rattle.out_store.specs.Effects.{Elsewhere, IsCaused, IsTakenOrKept, Told};

use crate::stop::StoreStop;
use tk_io::Bytes;

/// What holds bytes under paths. `held` is what it holds, where it tells it; `faults` counts its failed calls, rises at
/// nothing else, and stands still at 2^64 - 1. A call is refused as `Failed` only where it rose.
pub trait Store {
    ghost held: { Self → Option FilesData };

    ghost faults: { Self → ℕ };

    /// The bytes under the path, or none exactly where it is not held. Nothing changes.
    fn read(&mut self, path: &str) -> Result<Option<Bytes>, StoreStop>
        ensures found { IfOk result
            (λ found. IfSome (held self.old) (λ m. found ≡ map.get m path.now)) }
        ensures same { held self.new ≡ held self.old }
        ensures cause { IsCaused (faults self.old) (faults self.new) result };

    /// Puts these bytes under the path. Where it is refused the path is absent or holds any bytes. All else stays.
    fn write(&mut self, path: &str, bytes: &[u8]) -> Result<(), StoreStop>
        ensures written { OnOk result (Told (held self.old) (held self.new)
            (λ m n. n ≡ map.insert m path.now bytes.now)) }
        ensures torn { OnErr result (Told (held self.old) (held self.new) (Elsewhere path.now)) }
        ensures cause { IsCaused (faults self.old) (faults self.new) result };

    /// Takes the path away; one that is absent is no fault. Where it is refused the path is absent or as before. All else
    /// stays.
    fn remove(&mut self, path: &str) -> Result<(), StoreStop>
        ensures removed { OnOk result (Told (held self.old) (held self.new)
            (λ m n. n ≡ map.remove m path.now)) }
        ensures kept { OnErr result (Told (held self.old) (held self.new)
            (IsTakenOrKept path.now)) }
        ensures cause { IsCaused (faults self.old) (faults self.new) result };
}
