//! The first broken rule of a resolver document.

ghost use Rattle.std.specs.Prelude.{◌≡◌};
ghost use Rattle.resolver_doc.specs.declared.fault.PlanFault.TheVariants.{NoMemory as OutOfMemory};

use crate::rule::PlanRule;
use name_path::Trail;
use std::alloc::{AllocError, AllocFailed};
use std::fmt;
use tk_io::NoMemory;

/// Why a resolver document is refused.
#[derive(Drop)]
pub enum PlanFault<'s> {
    /// A rule is broken: the first break of the first phase that has one. The forms are looked at first, then references
    /// and names of items, and then rings of sets.
    Broken {
        rule: PlanRule,
        /// The byte offset of the span's beginning.
        start: usize,
        /// The byte offset after the span.
        end: usize,
        /// The names of the sets of the ring, each of which names the next one and the last the first; empty for every
        /// rule but [`PlanRule::Cycle`].
        ring: Trail<'s>,
    },
    /// Memory ran out.
    NoMemory,
}

impl<'s> fmt::Debug for PlanFault<'s> {
    fn fmt<W: fmt::Write>(&self, f: &mut fmt::Formatter<W>) -> fmt::Result {
        f.write_str("PlanFault")
    }
}

impl<'s> From<NoMemory> for PlanFault<'s> {
    ghost from_gives = { λ _ e. e ≡ OutOfMemory };

    fn from(_: NoMemory) -> PlanFault<'s> {
        PlanFault::NoMemory
    }
}

impl<'s> From<AllocError> for PlanFault<'s> {
    ghost from_gives = { λ _ e. e ≡ OutOfMemory };

    fn from(_: AllocError) -> PlanFault<'s> {
        PlanFault::NoMemory
    }
}

impl<'s, T: Drop> From<AllocFailed<T>> for PlanFault<'s> {
    ghost from_gives = { λ _ e. e ≡ OutOfMemory };

    fn from(_: AllocFailed<T>) -> PlanFault<'s> {
        PlanFault::NoMemory
    }
}
