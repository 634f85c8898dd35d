//! Why there is no plan.

ghost use Rattle.std.specs.Prelude.{◌≡◌};
ghost use Rattle.file_plan.specs.declared.refusal.PlanRefusal.TheVariants.{NoMemory as OutOfMemory};

use name_path::Trail;
use resolver_doc::PlanRule;
use std::alloc::{AllocError, AllocFailed};
use std::fmt;
use tk_io::NoMemory;

/// The first rule that a plan breaks, by byte offsets of the resolver document: first the rules of JSON, then those of
/// resolver documents, then the limits of permutations and of their sources.
#[derive(Drop)]
pub enum PlanRefusal<'s> {
    /// The document is no JSON text (RFC 8259); up to this offset it is a prefix of one, and no further.
    Syntax(usize),
    /// A name that repeats an earlier one of its object, by its string.
    Duplicate(usize, usize),
    /// A bracket that opens a 65th level.
    Depth(usize, usize),
    /// A rule of resolver documents, and the names of the sets of the ring where it is that of rings.
    Broken {
        rule: PlanRule,
        start: usize,
        end: usize,
        ring: Trail<'s>,
    },
    /// There are more than 64 permutations: the list of the order, and how many, or 1,000,000 where there are more.
    TooMany {
        start: usize,
        end: usize,
        count: u64,
    },
    /// A permutation has more than 1,024 sources: the list of the order, and the greatest number of sources of one, or
    /// 1,000,000 where it is greater.
    TooManySources {
        start: usize,
        end: usize,
        count: u64,
    },
    /// Memory ran out.
    NoMemory,
}

impl<'s> fmt::Debug for PlanRefusal<'s> {
    fn fmt<W: fmt::Write>(&self, f: &mut fmt::Formatter<W>) -> fmt::Result {
        f.write_str("PlanRefusal")
    }
}

impl<'s> From<NoMemory> for PlanRefusal<'s> {
    ghost from_gives = { λ _ e. e ≡ OutOfMemory };

    fn from(_: NoMemory) -> PlanRefusal<'s> {
        PlanRefusal::NoMemory
    }
}

impl<'s> From<AllocError> for PlanRefusal<'s> {
    ghost from_gives = { λ _ e. e ≡ OutOfMemory };

    fn from(_: AllocError) -> PlanRefusal<'s> {
        PlanRefusal::NoMemory
    }
}

impl<'s, T: Drop> From<AllocFailed<T>> for PlanRefusal<'s> {
    ghost from_gives = { λ _ e. e ≡ OutOfMemory };

    fn from(_: AllocFailed<T>) -> PlanRefusal<'s> {
        PlanRefusal::NoMemory
    }
}
