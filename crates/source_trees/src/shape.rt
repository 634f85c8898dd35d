//! The shapes of files: groups and tokens.

ghost use Rattle.std.specs.Prelude.{◌≡◌, ◌∷◌, [], ℕ, List, IfOk};
ghost use Rattle.json_span.specs.View.{node_view};
ghost use Rattle.token_tree.specs.Promise.{StandsIn};
ghost use Rattle.token_tree.specs.View.{group_view};
ghost use Rattle.file_plan.specs.Trees.{IsTreeOf};
ghost use Rattle.source_trees.specs.Trees.{IsShapeBy, IsShapeFor};
ghost use Rattle.source_trees.specs.inner.Laying.{IsShapeAt, TellsFault};

use crate::source::{SourceBreak, SourceFault};
use file_plan::Tree;
use json_span::{JsonFault, Node};
use std::alloc::Global;
use std::fmt;
use std::rc::Rc;
use tk_io::{NoMemory, TextMap};
use token_tree::{Group, ShapeFault, shape};

/// What the tree of a file, or an object in it, shows: groups and tokens, or the first rule that it breaks.
#[derive(Drop)]
pub enum FileShape<'s> {
    Shows(Rc<Group<'s>>),
    Breaks(SourceBreak<'s>),
}

impl<'s> FileShape<'s> {
    /// The same shape once more: a tree is counted, and not copied.
    pub(crate) fn share(&self) -> Result<FileShape<'s>, NoMemory>
        ensures { (file text : List ℕ) → IsShapeFor file text self.now
            → IfOk result (IsShapeFor file text) }
    {
        match self {
            FileShape::Shows(group) => {
                let group = group.clone()?;
                Ok(FileShape::Shows(group))
            }
            FileShape::Breaks(found) => Ok(FileShape::Breaks(*found)),
        }
    }
}

impl<'s> fmt::Debug for FileShape<'s> {
    fn fmt<W: fmt::Write>(&self, f: &mut fmt::Formatter<W>) -> fmt::Result {
        f.write_str("FileShape")
    }
}

/// The shapes of files by their paths.
pub type Shapes<'s> = TextMap<FileShape<'s>>;

// The shape of a file whose text breaks a rule at a span.
fn broken<'s>(fault: SourceFault, file: &'s str, start: usize, end: usize) -> FileShape<'s>
    ensures { result ≡ FileShape.Breaks
        (record { fault = fault; file = file.entry; start = start; end = end }) }
{
    FileShape::Breaks(SourceBreak {
        fault,
        file,
        start,
        end,
    })
}

// The shape of a file that breaks no rule.
fn shown<'s>(alloc: Global, group: Group<'s>) -> Result<FileShape<'s>, NoMemory>
    ensures { IfOk result (IsShapeBy [] (group_view group.entry ∷ [])) }
{
    let group = Rc::new(alloc, group)?;
    Ok(FileShape::Shows(group))
}

/// What a value of the text shows.
pub(crate) fn shape_at<'s>(
    alloc: Global,
    file: &'s str,
    text: &'s str,
    root: &Node<'s>,
) -> Result<FileShape<'s>, NoMemory>
    requires { StandsIn text.now (node_view root.now) }
    ensures { IfOk result (IsShapeAt file.entry.now text.entry.now (node_view root.now)) }
{
    match shape(alloc, file, text, root) {
        Ok(group) => shown(alloc, group),
        Err(ShapeFault::Broken(rule, start, end)) => {
            Ok(broken(SourceFault::Shape(rule), file, start, end))
        }
        Err(ShapeFault::NoMemory) => Err(NoMemory),
    }
}

// The break of a file that is no JSON text, or has a flaw.
fn flaw_shape<'s>(file: &'s str, fault: &JsonFault) -> Result<FileShape<'s>, NoMemory>
    ensures { IfOk result (TellsFault file.entry.now fault.now) }
{
    match fault {
        JsonFault::Syntax(at) => Ok(broken(SourceFault::Syntax, file, *at, *at)),
        JsonFault::Dup(start, end) => Ok(broken(SourceFault::Duplicate, file, *start, *end)),
        JsonFault::Deep(start, end) => Ok(broken(SourceFault::Depth, file, *start, *end)),
        JsonFault::NoMemory => Err(NoMemory),
    }
}

/// What the tree of a file shows.
pub(crate) fn shape_of<'s>(
    alloc: Global,
    file: &'s str,
    text: &'s str,
    tree: &Tree<'s>,
) -> Result<FileShape<'s>, NoMemory>
    requires { IsTreeOf text.now tree.now }
    ensures { IfOk result (IsShapeFor file.entry.now text.entry.now) }
{
    match tree {
        Tree::Read(root) => shape_at(alloc, file, text, root),
        Tree::Flawed(fault) => flaw_shape(file, fault),
    }
}
