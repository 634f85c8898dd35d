//! The rules of references, and where a token breaks one.

ghost use Rattle.std.specs.Prelude.{◌≡◌};
ghost use Rattle.alias_ref.specs.declared.fault.RefFault.TheVariants.{NoMemory as OutOfMemory};

use name_path::{Place, Ring};
use std::alloc::{AllocError, AllocFailed};
use tk_io::NoMemory;

/// The rules that a token's references can break (Format Module 2025.10, aliases and references).
#[derive(Clone, Copy, Debug, PartialEq, Eq)]
pub enum RefRule {
    /// A reference is spelled wrongly.
    RefSyntax,
    /// A reference names an absent token, or a step of it no member or item.
    RefTarget,
    /// References lead in a cycle.
    Cycle,
    /// A place stands after 256 others on its branch.
    Deep,
    /// A place is visited after 1,024 others.
    Big,
    /// Nothing gives the token a kind.
    NoType,
}

/// Why a token has no value.
#[derive(Debug, Drop)]
pub enum RefFault<'s> {
    /// The first rule that the token breaks.
    Broken {
        rule: RefRule,
        /// Where it is broken; for a ring its first place.
        place: Place<'s>,
        /// The ring, for `Cycle`: each place leads to the next and the last to the first. Else it is empty.
        ring: Ring<'s>,
    },
    /// Memory ran out.
    NoMemory,
}

impl<'s> From<NoMemory> for RefFault<'s> {
    ghost from_gives = { λ _ e. e ≡ OutOfMemory };

    fn from(_: NoMemory) -> RefFault<'s> {
        RefFault::NoMemory
    }
}

impl<'s> From<AllocError> for RefFault<'s> {
    ghost from_gives = { λ _ e. e ≡ OutOfMemory };

    fn from(_: AllocError) -> RefFault<'s> {
        RefFault::NoMemory
    }
}

impl<'s, T: Drop> From<AllocFailed<T>> for RefFault<'s> {
    ghost from_gives = { λ _ e. e ≡ OutOfMemory };

    fn from(_: AllocFailed<T>) -> RefFault<'s> {
        RefFault::NoMemory
    }
}
