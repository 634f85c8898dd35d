//! The trees of files.

ghost use Rattle.std.specs.Prelude.{◌≡◌, ◌+◌, IfOk};
ghost use Rattle.file_plan.specs.Trees.{IsTreeOf};

use json_span::{JsonFault, Node, read};
use std::alloc::Global;
use std::fmt;
use std::sync::ledger::Ledger;
use tk_io::{NoMemory, Steps, TextMap};

/// What reading a file answers.
#[derive(Drop)]
pub enum Tree<'s> {
    Read(Node<'s>),
    /// The fault is never out of memory.
    Flawed(JsonFault),
}

impl<'s> fmt::Debug for Tree<'s> {
    fn fmt<W: fmt::Write>(&self, f: &mut fmt::Formatter<W>) -> fmt::Result {
        f.write_str("Tree")
    }
}

/// The trees of files by their paths.
pub type Trees<'s> = TextMap<Tree<'s>>;

/// The tree of a text. It is one step.
pub fn read_tree<'s, L: Ledger>(
    alloc: Global,
    text: &'s str,
    parses: &mut Steps<L>,
) -> Result<Tree<'s>, NoMemory>
    ensures step { parses.new ≡ parses.old + 1 }
    ensures ok { IfOk result (IsTreeOf text.entry.now) }
{
    match read(alloc, text, parses) {
        Ok(root) => Ok(Tree::Read(root)),
        Err(JsonFault::Syntax(at)) => Ok(Tree::Flawed(JsonFault::Syntax(at))),
        Err(JsonFault::Dup(start, end)) => Ok(Tree::Flawed(JsonFault::Dup(start, end))),
        Err(JsonFault::Deep(start, end)) => Ok(Tree::Flawed(JsonFault::Deep(start, end))),
        Err(JsonFault::NoMemory) => Err(NoMemory),
    }
}
