//! What the sources of permutations begin with.

ghost use Rattle.std.specs.Prelude.{◌≡◌, ◌≤◌, true, IfOk, OnOk, length, take};
ghost use Rattle.std.specs.FinMap.{FinMap};
ghost use Rattle.tk_io.specs.Order.{text_cmp};
ghost use Rattle.token_tree.specs.View.{group_view};
ghost use Rattle.file_plan.specs.View.{plan_source_view, plan_sources_view};
ghost use Rattle.source_trees.specs.Merging.{IsFront};
ghost use Rattle.source_trees.specs.Sources.{HomeAt};
ghost use Rattle.source_trees.specs.declared.shape.FileShape.{FileShape as Shape};

use crate::laying::no_tree;
use file_plan::PlanSource;
use std::alloc::Global;
use tk_io::NoMemory;
use token_tree::Group;

/// Sources with which those of a permutation begin, and the tree to which they come. Where those of the next permutation
/// begin alike, they are laid once.
#[derive(Drop)]
pub struct Front<'a, 's> {
    pub sources: &'a [PlanSource<'s>],
    pub tree: Group<'s>,
    /// How many first sources of the next permutation it is to have: those with which others begin too.
    pub keep: usize,
}

impl<'a, 's> Front<'a, 's> {
    /// No source.
    pub fn none(alloc: Global) -> Front<'a, 's>
        ensures { (shapes : FinMap text_cmp Shape) (home : HomeAt) → IsFront shapes home result }
    {
        Front {
            sources: Default::default(),
            tree: no_tree(alloc),
            keep: 0,
        }
    }
}

// Whether both sources are the same file, named at the same place.
fn is_same(source: &PlanSource<'_>, other: &PlanSource<'_>) -> bool
    ensures { result ≡ true → plan_source_view source.now ≡ plan_source_view other.now }
{
    match source {
        PlanSource::File(name, start, end) => match other {
            PlanSource::File(same, from, to) => {
                name.as_str() == same.as_str() && start == from && end == to
            }
            PlanSource::Inline(_) => false,
        },
        PlanSource::Inline(_) => false,
    }
}

/// How many first sources of both are seen to be the same. Objects in the document are not compared.
pub fn alike(sources: &[PlanSource<'_>], others: &[PlanSource<'_>]) -> usize
    ensures within { (result ≤ length sources.now) × (result ≤ length others.now) }
    ensures same { plan_sources_view (take result sources.now)
        ≡ plan_sources_view (take result others.now) }
{
    let mut count = 0;
    while count < sources.len() && count < others.len() {
        if !is_same(&sources[count], &others[count]) {
            return count;
        }
        count += 1;
    }
    count
}
