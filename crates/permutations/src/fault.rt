//! The limits of a plan, and where a plan is beyond one.

ghost use Rattle.std.specs.Prelude.{◌≡◌};
ghost use Rattle.permutations.specs.declared.fault.ListFault.TheVariants.{NoMemory as OutOfMemory};

use std::alloc::{AllocError, AllocFailed};
use std::fmt;
use tk_io::NoMemory;

/// A plan has at most so many permutations.
pub const MOST_PERMUTATIONS: u64 = 64;

/// A permutation has at most so many sources.
pub const MOST_SOURCES: u64 = 1_024;

/// A number above this one is told as this one.
pub const LAST_NUMBER: u64 = 1_000_000;

/// The limit that a plan is beyond.
#[derive(Drop)]
pub enum ListFault {
    /// There are more than 64 permutations: how many, or 1,000,000 where there are more.
    TooMany(u64),
    /// A permutation has more than 1,024 sources: the greatest number that one has, or 1,000,000 where it is greater.
    TooManySources(u64),
    /// Memory ran out.
    NoMemory,
}

impl fmt::Debug for ListFault {
    fn fmt<W: fmt::Write>(&self, f: &mut fmt::Formatter<W>) -> fmt::Result {
        f.write_str("ListFault")
    }
}

impl From<NoMemory> for ListFault {
    ghost from_gives = { λ _ e. e ≡ OutOfMemory };

    fn from(_: NoMemory) -> ListFault {
        ListFault::NoMemory
    }
}

impl From<AllocError> for ListFault {
    ghost from_gives = { λ _ e. e ≡ OutOfMemory };

    fn from(_: AllocError) -> ListFault {
        ListFault::NoMemory
    }
}

impl<T: Drop> From<AllocFailed<T>> for ListFault {
    ghost from_gives = { λ _ e. e ≡ OutOfMemory };

    fn from(_: AllocFailed<T>) -> ListFault {
        ListFault::NoMemory
    }
}
