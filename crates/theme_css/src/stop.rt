//! Why there is no sheet for all permutations.

ghost use Rattle.std.specs.Prelude.{◌≡◌};
ghost use Rattle.theme_css.specs.declared.stop.ThemeStop.TheVariants.{NoMemory as OutOfMemory};

use std::alloc::{AllocError, AllocFailed};
use std::fmt;
use tk_io::{Bytes, NoMemory};

/// Why there is no sheet for all permutations.
#[derive(Drop)]
pub enum ThemeStop {
    /// A permutation is refused, or the configuration or the plan is: the first path of a refusal in byte order.
    Refused(Bytes),
    /// No selector can hold this name of a modifier or of a context, the first one in the order of modifiers.
    Name(Bytes),
    /// Memory ran out.
    NoMemory,
}

impl fmt::Debug for ThemeStop {
    fn fmt<W: fmt::Write>(&self, f: &mut fmt::Formatter<W>) -> fmt::Result {
        f.write_str("ThemeStop")
    }
}

impl From<NoMemory> for ThemeStop {
    ghost from_gives = { λ _ e. e ≡ OutOfMemory };

    fn from(_: NoMemory) -> ThemeStop {
        ThemeStop::NoMemory
    }
}

impl From<AllocError> for ThemeStop {
    ghost from_gives = { λ _ e. e ≡ OutOfMemory };

    fn from(_: AllocError) -> ThemeStop {
        ThemeStop::NoMemory
    }
}

impl<T: Drop> From<AllocFailed<T>> for ThemeStop {
    ghost from_gives = { λ _ e. e ≡ OutOfMemory };

    fn from(_: AllocFailed<T>) -> ThemeStop {
        ThemeStop::NoMemory
    }
}
