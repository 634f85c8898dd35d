//! The rules of shape, and why a file has none.

ghost use Rattle.std.specs.Prelude.{◌≡◌};
ghost use Rattle.token_tree.specs.declared.fault.ShapeFault.TheVariants.{NoMemory as OutOfMemory};

use std::alloc::{AllocError, AllocFailed};
use tk_io::NoMemory;

/// A rule that a token file breaks (Format Module 2025.10, groups and tokens).
#[derive(Clone, Copy, Debug, PartialEq, Eq)]
pub enum Rule {
    /// The root is no object, or is a token.
    Root,
    /// The name of a group's member is empty or holds `{`, `}` or `.`.
    Name,
    /// A named member of a group is no object.
    Member,
    /// A listed member has another form, or `$ref` stands beside `$value`.
    Property,
    /// A token has a member whose name does not begin with `$`.
    TokenChild,
    /// `$root` is no token.
    RootToken,
}

/// Why a file has no shape.
#[derive(Clone, Copy, Debug, PartialEq, Eq)]
pub enum ShapeFault {
    /// The first rule that is broken, and the byte offsets of the beginning and the end of its
    /// span.
    Broken(Rule, usize, usize),
    /// Memory ran out.
    NoMemory,
}

impl From<NoMemory> for ShapeFault {
    ghost from_gives = { λ _ e. e ≡ OutOfMemory };

    fn from(_: NoMemory) -> ShapeFault {
        ShapeFault::NoMemory
    }
}

impl From<AllocError> for ShapeFault {
    ghost from_gives = { λ _ e. e ≡ OutOfMemory };

    fn from(_: AllocError) -> ShapeFault {
        ShapeFault::NoMemory
    }
}

impl<T: Drop> From<AllocFailed<T>> for ShapeFault {
    ghost from_gives = { λ _ e. e ≡ OutOfMemory };

    fn from(_: AllocFailed<T>) -> ShapeFault {
        ShapeFault::NoMemory
    }
}
