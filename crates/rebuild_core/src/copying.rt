//! Copies that share what they hold.

ghost use Rattle.std.specs.Prelude.{◌≡◌, ℕ, List, IfOk};
ghost use Rattle.file_plan.specs.Trees.{IsTreeOf};

use file_plan::Tree;
use group_inherit::{Entry, Flat};
use json_span::JsonFault;
use std::alloc::Global;
use tk_io::NoMemory;

/// The same tree, with one more share of its table.
pub(crate) fn copy_tree<'s>(tree: &Tree<'s>) -> Result<Tree<'s>, NoMemory>
    ensures { (text : List ℕ) → IsTreeOf text tree.now → IfOk result (IsTreeOf text) }
{
    match tree {
        Tree::Read(node) => {
            let node = node.copy()?;
            Ok(Tree::Read(node))
        }
        Tree::Flawed(JsonFault::Syntax(at)) => Ok(Tree::Flawed(JsonFault::Syntax(*at))),
        Tree::Flawed(JsonFault::Dup(start, end)) => {
            Ok(Tree::Flawed(JsonFault::Dup(*start, *end)))
        }
        Tree::Flawed(JsonFault::Deep(start, end)) => {
            Ok(Tree::Flawed(JsonFault::Deep(*start, *end)))
        }
        Tree::Flawed(JsonFault::NoMemory) => Err(NoMemory),
    }
}

// The same token, which shares its definition.
fn copy_entry<'s>(entry: &Entry<'s>) -> Result<Entry<'s>, NoMemory>
    ensures { IfOk result (λ copy. copy ≡ entry.now) }
{
    let def = entry.def.clone()?;
    let group_mark = match &entry.group_mark {
        Some(mark) => Some(mark.copy()?),
        None => None,
    };
    Ok(Entry {
        def,
        group_kind: entry.group_kind,
        group_mark,
    })
}

/// The same flat tree, which shares the definitions of its tokens.
pub(crate) fn copy_flat<'s>(alloc: Global, flat: &Flat<'s>) -> Result<Flat<'s>, NoMemory>
    ensures { IfOk result (λ copy. copy ≡ flat.now) }
{
    let mut copy = Flat::new(alloc);
    for token in flat.as_slice() {
        copy.put(&token.0, copy_entry(&token.1)?)?;
    }
    Ok(copy)
}
