//! Why a scan that allocates stops.

use std::alloc::AllocFailed;
use tk_io::NoMemory;

/// Why a scan did not come to its end.
#[derive(Clone, Copy)]
pub(crate) enum Stop {
    /// The offset from which no text of the rule goes on as the text does.
    Syntax(usize),
    NoMemory,
}

impl<T: Drop> From<AllocFailed<T>> for Stop {
    ghost use Rattle.std.specs.Prelude.{◌≡◌};
    ghost use Rattle.json_span.specs.declared.stop.Stop.TheVariants.{NoMemory};

    ghost from_gives = { λ _ e. e ≡ NoMemory };

    fn from(_: AllocFailed<T>) -> Stop {
        Stop::NoMemory
    }
}

impl From<usize> for Stop {
    ghost use Rattle.std.specs.Prelude.{◌≡◌};
    ghost use Rattle.json_span.specs.declared.stop.Stop.TheVariants.{Syntax};

    ghost from_gives = { λ at e. e ≡ Syntax at };

    fn from(at: usize) -> Stop {
        Stop::Syntax(at)
    }
}

impl From<NoMemory> for Stop {
    ghost use Rattle.std.specs.Prelude.{◌≡◌};
    ghost use Rattle.json_span.specs.declared.stop.Stop.TheVariants.{NoMemory as OutOfMemory};

    ghost from_gives = { λ _ e. e ≡ OutOfMemory };

    fn from(_: NoMemory) -> Stop {
        Stop::NoMemory
    }
}
