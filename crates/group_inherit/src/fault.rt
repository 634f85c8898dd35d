//! The rules of extension, and where a tree breaks one.

ghost use Rattle.std.specs.Prelude.{◌≡◌};
ghost use Rattle.token_tree.specs.View.{extends_view};
ghost use Rattle.group_inherit.specs.Span.{span_of};
ghost use Rattle.group_inherit.specs.declared.fault.TreeFault.TheVariants.{NoMemory as OutOfMemory};

use name_path::{Path, Paths};
use std::alloc::{AllocError, AllocFailed};
use std::fmt;
use std::marker::Model;
use tk_io::NoMemory;
use token_tree::Extends;

/// A part of a file, seen as plain data.
#[derive(Debug, Drop)]
pub struct FileSpan<'s> {
    /// The name of the file.
    pub file: &'s str,
    /// The byte offset of the part in the file's text.
    pub start: usize,
    /// The byte offset after it.
    pub end: usize,
}

impl<'s> Model for FileSpan<'s> {
    ghost use Rattle.group_inherit.specs.Span.{Span, span_at, coded_span};

    ghost Value = { Span };

    ghost coded = { coded_span };

    ghost view = { λ s. span_at s.file.now s.start s.end };
}

/// The first rule of extension that a tree breaks (Format Module 2025.10, `$extends`).
#[derive(Drop)]
pub enum TreeFault<'s> {
    /// The target of a group's `$extends` is no group of the tree: the first such group in path order by its path, and
    /// the string that names its target.
    ExtendsTarget(Path<'s>, FileSpan<'s>),
    /// Groups need each other in a cycle: the groups of the first one, each of which needs the next and the last the
    /// first, and the string that names the target of the first of them whose target is the next one.
    ExtendsCycle(Paths<'s>, FileSpan<'s>),
    /// The expanded tree would have more than 16,384 members, overridden ones included: how many, or 1,000,000 where
    /// there are more.
    TooManyTokens(u64),
    /// The expanded tree would be higher than 64 levels: how high.
    TooHigh(u64),
    /// Memory ran out.
    NoMemory,
}

impl<'s> fmt::Debug for TreeFault<'s> {
    fn fmt<W: fmt::Write>(&self, f: &mut fmt::Formatter<W>) -> fmt::Result {
        f.write_str("TreeFault")
    }
}

impl<'s> From<NoMemory> for TreeFault<'s> {
    ghost from_gives = { λ _ e. e ≡ OutOfMemory };

    fn from(_: NoMemory) -> TreeFault<'s> {
        TreeFault::NoMemory
    }
}

impl<'s> From<AllocError> for TreeFault<'s> {
    ghost from_gives = { λ _ e. e ≡ OutOfMemory };

    fn from(_: AllocError) -> TreeFault<'s> {
        TreeFault::NoMemory
    }
}

impl<'s, T: Drop> From<AllocFailed<T>> for TreeFault<'s> {
    ghost from_gives = { λ _ e. e ≡ OutOfMemory };

    fn from(_: AllocFailed<T>) -> TreeFault<'s> {
        TreeFault::NoMemory
    }
}

/// Where the string stands that names the target.
pub(crate) fn span_of<'s>(extends: &Extends<'s>) -> FileSpan<'s>
    ensures { result ≡ span_of (extends_view extends.now) }
{
    FileSpan {
        file: extends.file,
        start: extends.start,
        end: extends.end,
    }
}
