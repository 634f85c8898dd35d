//! The sources of a permutation, laid over one another.

ghost use Rattle.std.specs.Prelude.{◌≡◌, ◌≤◌, IfOk, IfSome, IfNone, length, take};
ghost use Rattle.std.specs.FinMap.{FinMap};
ghost use Rattle.tk_io.specs.Order.{text_cmp};
ghost use Rattle.token_tree.specs.View.{group_view};
ghost use Rattle.group_inherit.specs.Merging.{empty_group};
ghost use Rattle.file_plan.specs.View.{plan_source_view, plan_sources_view};
ghost use Rattle.source_trees.specs.Merging.{AllInlineStand, InlineStands, IsFront, IsMergedBy};
ghost use Rattle.source_trees.specs.Sources.{HomeAt};
ghost use Rattle.source_trees.specs.View.{home_view};
ghost use Rattle.source_trees.specs.declared.laying.Merged.TheVariants.{Tree, Broken};
ghost use Rattle.source_trees.specs.declared.shape.FileShape.{FileShape as Shape};
ghost use Rattle.source_trees.specs.inner.Laying.{BeginsWith, LaysBy, LaysShape};

use crate::front::{Front, alike};
use crate::shape::{FileShape, Shapes, shape_at};
use crate::source::{Home, SourceBreak, SourceFault};
use file_plan::PlanSource;
use group_inherit::over;
use std::alloc::Global;
use std::fmt;
use tk_io::NoMemory;
use token_tree::{Group, Members};

/// What sources come to: one tree, or the first rule that one of them breaks.
#[derive(Drop)]
pub enum Merged<'s> {
    Tree(Group<'s>),
    Broken(SourceBreak<'s>),
}

impl<'s> fmt::Debug for Merged<'s> {
    fn fmt<W: fmt::Write>(&self, f: &mut fmt::Formatter<W>) -> fmt::Result {
        f.write_str("Merged")
    }
}

// A shape over what is merged before it.
fn lay_shape<'s>(
    alloc: Global,
    shape: &FileShape<'s>,
    before: &Group<'s>,
) -> Result<Merged<'s>, NoMemory>
    ensures { IfOk result (LaysShape shape.now (group_view before.now)) }
{
    match shape {
        FileShape::Shows(group) => Ok(Merged::Tree(over(alloc, group, before)?)),
        FileShape::Breaks(found) => Ok(Merged::Broken(*found)),
    }
}

// A source over what is merged before it.
fn lay<'s>(
    alloc: Global,
    shapes: &Shapes<'s>,
    home: Home<'s>,
    source: &PlanSource<'s>,
    before: &Group<'s>,
) -> Result<Merged<'s>, NoMemory>
    requires { InlineStands home.text.now (plan_source_view source.now) }
    ensures { IfOk result (LaysBy shapes.now (home_view home.entry)
        (plan_source_view source.now) (group_view before.now)) }
{
    match source {
        PlanSource::File(name, start, end) => match shapes.get(name.as_str()) {
            Some(shape) => lay_shape(alloc, shape, before),
            None => Ok(Merged::Broken(SourceBreak {
                fault: SourceFault::Missing,
                file: home.file,
                start: *start,
                end: *end,
            })),
        },
        PlanSource::Inline(node) => {
            let shape = shape_at(alloc, home.file, home.text, node)?;
            lay_shape(alloc, &shape, before)
        }
    }
}

// Puts a source over the tree of those before it, which then is the tree of all; or tells the rule that it breaks.
fn lay_over<'s>(
    alloc: Global,
    shapes: &Shapes<'s>,
    home: Home<'s>,
    source: &PlanSource<'s>,
    tree: &mut Group<'s>,
) -> Result<Option<SourceBreak<'s>>, NoMemory>
    requires { InlineStands home.text.now (plan_source_view source.now) }
    ensures broken { IfOk result (λ o. IfSome o (λ found. LaysBy shapes.now (home_view home.entry)
        (plan_source_view source.now) (group_view tree.old) (Broken found))) }
    ensures laid { IfOk result (λ o. IfNone o (LaysBy shapes.now (home_view home.entry)
        (plan_source_view source.now) (group_view tree.old) (Tree tree.new))) }
{
    match lay(alloc, shapes, home, source, tree) {
        Ok(Merged::Tree(next)) => {
            *tree = next;
            Ok(None)
        }
        Ok(Merged::Broken(found)) => Ok(Some(found)),
        Err(NoMemory) => Err(NoMemory),
    }
}

/// The group without members, over which the first source is laid.
pub(crate) fn no_tree<'s>(alloc: Global) -> Group<'s>
    ensures { group_view result ≡ empty_group }
{
    Group {
        kind: None,
        deprecated: None,
        extends: None,
        members: Members::new(alloc),
    }
}

// Lays the sources from the one number to the other over the tree of those before them, which then is the tree of all so
// far; or tells the rule that one of them breaks.
fn lay_from<'s>(
    alloc: Global,
    shapes: &Shapes<'s>,
    home: Home<'s>,
    sources: &[PlanSource<'s>],
    from: usize,
    to: usize,
    tree: &mut Group<'s>,
) -> Result<Option<SourceBreak<'s>>, NoMemory>
    requires stand { AllInlineStand home.text.now (plan_sources_view sources.now) }
    requires within { (from ≤ to) × (to ≤ length sources.now) }
    requires before { IsMergedBy shapes.now (home_view home)
        (plan_sources_view (take from sources.now)) (Tree tree.old) }
    ensures broken { IfOk result (λ o. IfSome o (λ found. IsMergedBy shapes.now
        (home_view home.entry) (plan_sources_view sources.now) (Broken found))) }
    ensures laid { IfOk result (λ o. IfNone o (IsMergedBy shapes.now (home_view home.entry)
        (plan_sources_view (take to sources.now)) (Tree tree.new))) }
{
    for i in from..to {
        if let Some(found) = lay_over(alloc, shapes, home, &sources[i], tree)? {
            return Ok(Some(found));
        }
    }
    Ok(None)
}

// With how many of the sources the front is to begin: those that it has, or none, where they begin otherwise.
fn begin<'a, 's>(alloc: Global, sources: &'a [PlanSource<'s>], front: &mut Front<'a, 's>)
    ensures begins { BeginsWith sources.now front.new }
    ensures front { (shapes : FinMap text_cmp Shape) (home : HomeAt)
        → IsFront shapes home front.old → IsFront shapes home front.new }
{
    let count = alike(front.sources, sources);
    if count < front.sources.len() {
        front.sources = Default::default();
        front.tree = no_tree(alloc);
        return;
    }
    front.sources = &sources[..count];
}

// Lays as many of the sources as the front is to keep, or tells the rule that one of them breaks.
fn lay_front<'a, 's>(
    alloc: Global,
    shapes: &Shapes<'s>,
    home: Home<'s>,
    sources: &'a [PlanSource<'s>],
    front: &mut Front<'a, 's>,
) -> Result<Option<SourceBreak<'s>>, NoMemory>
    requires stand { AllInlineStand home.text.now (plan_sources_view sources.now) }
    requires begins { BeginsWith sources.now front.old }
    requires front { IsFront shapes.now (home_view home) front.old }
    ensures begins { BeginsWith sources.now front.new }
    ensures front { IsFront shapes.now (home_view home.entry) front.new }
    ensures broken { IfOk result (λ o. IfSome o (λ found. IsMergedBy shapes.now
        (home_view home.entry) (plan_sources_view sources.now) (Broken found))) }
{
    let count = front.sources.len();
    let keep = front.keep.min(sources.len());
    if keep <= count {
        return Ok(None);
    }
    let mut tree = front.tree.copy()?;
    if let Some(found) = lay_from(alloc, shapes, home, sources, count, keep, &mut tree)? {
        return Ok(Some(found));
    }
    front.sources = &sources[..keep];
    front.tree = tree;
    Ok(None)
}

/// What the sources come to, in their order: one tree, in which each source stands over those before it, or the first rule
/// that one of them breaks: a file that is not there, then its JSON, then its shape; an object in the document has only a
/// shape. The shapes are those of the files that the sources name. `home` is the file that names the sources: a missing
/// file is told there, at the string that names it. Where the sources begin with those of the front, these are not laid
/// again; afterwards the front has as many of the sources as it is to keep, or more, unless one of them breaks a rule.
pub fn merged_behind<'a, 's>(
    alloc: Global,
    shapes: &Shapes<'s>,
    home: Home<'s>,
    sources: &'a [PlanSource<'s>],
    front: &mut Front<'a, 's>,
) -> Result<Merged<'s>, NoMemory>
    // An object is a value of the home's text, which has no flaw.
    requires stand { AllInlineStand home.text.now (plan_sources_view sources.now) }
    requires front { IsFront shapes.now (home_view home) front.old }
    ensures front { IsFront shapes.now (home_view home.entry) front.new }
    ensures merged { IfOk result
        (IsMergedBy shapes.now (home_view home.entry) (plan_sources_view sources.now)) }
{
    begin(alloc, sources, front);
    if let Some(found) = lay_front(alloc, shapes, home, sources, front)? {
        return Ok(Merged::Broken(found));
    }
    let mut tree = front.tree.copy()?;
    let count = front.sources.len();
    match lay_from(
        alloc,
        shapes,
        home,
        sources,
        count,
        sources.len(),
        &mut tree,
    )? {
        Some(found) => Ok(Merged::Broken(found)),
        None => Ok(Merged::Tree(tree)),
    }
}

/// The same, of sources that no others go before.
pub fn merged_sources<'s>(
    alloc: Global,
    shapes: &Shapes<'s>,
    home: Home<'s>,
    sources: &[PlanSource<'s>],
) -> Result<Merged<'s>, NoMemory>
    requires { AllInlineStand home.text.now (plan_sources_view sources.now) }
    ensures { IfOk result
        (IsMergedBy shapes.now (home_view home.entry) (plan_sources_view sources.now)) }
{
    let mut front = Front::none(alloc);
    merged_behind(alloc, shapes, home, sources, &mut front)
}
