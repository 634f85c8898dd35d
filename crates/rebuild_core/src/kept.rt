//! What is kept for the next commit.

ghost use Rattle.std.specs.Prelude.{◌≡◌, Some, None};
ghost use Rattle.tk_io.specs.FilesData.{FilesData};
ghost use Rattle.rebuild_core.specs.inner.Past.{IsPast};

use crate::past::Past;
use file_plan::{Files, Plan, Trees};
use source_trees::Shapes;
use std::alloc::Global;
use std::marker::Model;
use tk_io::TextMap;
use transforms::Config;

/// What was made of files, seen as the files.
#[derive(Drop)]
pub(crate) struct Kept<'s> {
    past: Past<'s>,
}

impl<'s> Model for Kept<'s> {
    ghost use Rattle.std.specs.Prelude.{Some};
    ghost use Rattle.tk_io.specs.FilesData.{FilesData};
    ghost use Rattle.rebuild_core.specs.Engine.{coded_files};
    ghost use Rattle.rebuild_core.specs.inner.Past.{IsPast};

    ghost Value = { FilesData };

    ghost coded = { coded_files };

    ghost view = { λ k. k.past.files };

    ghost invariant = { λ k. IsPast (Some k.past.files) k.past };
}

impl<'s> Kept<'s> {
    /// What was made of these files.
    pub(crate) fn new(past: Past<'s>) -> Kept<'s>
        requires { IsPast (Some past.files) past }
        ensures { result ≡ past.entry.files }
    {
        Kept { past }
    }

    // What was made of them.
    fn into_past(self) -> Past<'s>
        ensures { IsPast (Some self.entry) result }
    {
        self.past
    }
}

// Nothing that was made.
fn no_past<'s>(alloc: Global) -> Past<'s>
    ensures { IsPast None result }
{
    let used = TextMap::new(alloc);
    let trees = Trees::new(alloc);
    let shapes = Shapes::new(alloc);
    let plan = Plan::new(alloc);
    let outcomes = Vec::new(alloc);
    Past {
        files: Files::new(alloc),
        used,
        trees,
        shapes,
        config: Config::plain(alloc),
        plan,
        outcomes,
    }
}

/// What was made of the files that are kept; nothing where none are.
pub(crate) fn opened<'s>(alloc: Global, kept: Option<Kept<'s>>) -> Past<'s>
    ensures { IsPast kept.entry result }
{
    match kept {
        Some(kept) => kept.into_past(),
        None => no_past(alloc),
    }
}
