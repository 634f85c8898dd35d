//! What a token comes to, as it is kept beside the files.

use name_path::{Place, Ring};
use refusals::CellRule;
use std::rc::Rc;
use transforms::Extent;

/// Names that stand one after another: the place of the first, and the place behind the last.
#[derive(Clone, Copy, Debug)]
pub(crate) struct Run {
    pub(crate) start: u32,
    pub(crate) end: u32,
}

/// Where a token's lines stand in a file, and its names among those of all tokens.
#[derive(Clone, Copy, Debug)]
pub(crate) struct Shown {
    pub(crate) lines: Extent,
    pub(crate) names: Run,
}

/// Where that stands which a token gives to each platform. JSON has no names.
#[derive(Clone, Copy, Debug)]
pub(crate) struct Fragments {
    pub(crate) css: Shown,
    pub(crate) android: Shown,
    /// Where it has the run of Android, the names are the same.
    pub(crate) swift: Shown,
    pub(crate) json: Extent,
}

/// The first rule that a token breaks, and where. It holds no offset, so that it stays right where its file is moved.
#[derive(Debug, Drop)]
pub(crate) struct Refusal<'s> {
    pub(crate) rule: CellRule,
    /// Where it is broken, which may be in another token; for a ring its first place.
    pub(crate) place: Place<'s>,
    /// The ring of references: each place leads to the next and the last to the first. For other rules it is empty.
    pub(crate) ring: Ring<'s>,
}

/// What a token comes to: the first rule that it breaks, or where that stands which it gives. A refusal is seldom, and
/// takes no room where there is none.
#[derive(Debug, Drop)]
pub(crate) enum Row<'s> {
    Broken(Rc<Refusal<'s>>),
    Unbroken(Fragments),
}
