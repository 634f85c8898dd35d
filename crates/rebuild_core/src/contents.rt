//! Whether sources hold what they held.

ghost use Rattle.std.specs.Prelude.{◌≡◌, ◌≢◌, ◌⊎◌, ◌<◌, ◌≤◌, true, false, slice_range};
ghost use Rattle.file_plan.specs.View.{plan_perm_view, plan_source_view, plan_sources_view};
ghost use Rattle.source_trees.specs.Contents.{source_content};
ghost use Rattle.source_trees.specs.View.{home_view};
ghost use Rattle.rebuild_core.specs.Work.{contents_of};
ghost use Rattle.rebuild_core.specs.inner.Contents.{all_contents, content_view};

use build_plain::home_of;
use file_plan::{Files, PlanPerm, PlanSource};
use source_trees::Home;

/// What decides what a source comes to.
#[derive(Clone, Copy)]
pub(crate) enum Content<'a, 's> {
    /// A file: its name and its text.
    File(&'a str, &'s str),
    /// A file that is not there: where it is named.
    Missing(&'s str, usize, usize),
    /// An object: its file, its slice, and where that starts.
    Slice(&'s str, &'s [u8], usize),
}

// The lesser of two offsets.
fn lesser(a: usize, b: usize) -> usize
    ensures { ((a < b) × (result ≡ a)) ⊎ ((b ≤ a) × (result ≡ b)) }
{
    if a < b {
        return a;
    }
    b
}

// What stands in the text from one offset to another, or to its end.
fn bytes_between(text: &str, start: usize, end: usize) -> &[u8]
    ensures { result.now ≡ slice_range text.now start end }
{
    let bytes = text.as_bytes();
    let to = lesser(end, bytes.len());
    let from = lesser(start, to);
    &bytes[from..to]
}

// What decides what a source of the files comes to.
fn content_of<'a, 's>(
    files: &Files<'s>,
    home: Home<'s>,
    source: &'a PlanSource<'s>,
) -> Content<'a, 's>
    ensures { content_view result
        ≡ source_content files.now (home_view home.entry) (plan_source_view source.now) }
{
    match source {
        PlanSource::File(name, start, end) => {
            let name = name.as_str();
            match files.get(name) {
                Some(text) => Content::File(name, text),
                None => Content::Missing(home.file, *start, *end),
            }
        }
        PlanSource::Inline(node) => {
            let slice = bytes_between(home.text, node.start(), node.end());
            Content::Slice(home.file, slice, node.start())
        }
    }
}

// Whether two sources hold the same.
fn is_same(content: Content<'_, '_>, other: Content<'_, '_>) -> bool
    ensures same { result ≡ true → content_view content.entry ≡ content_view other.entry }
    ensures other { result ≡ false → content_view content.entry ≢ content_view other.entry }
{
    match content {
        Content::File(name, text) => match other {
            Content::File(of, same) => name == of && text == same,
            Content::Missing(_, _, _) => false,
            Content::Slice(_, _, _) => false,
        },
        Content::Missing(home, start, end) => match other {
            Content::File(_, _) => false,
            Content::Missing(of, from, to) => home == of && start == from && end == to,
            Content::Slice(_, _, _) => false,
        },
        Content::Slice(home, slice, start) => match other {
            Content::File(_, _) => false,
            Content::Missing(_, _, _) => false,
            Content::Slice(of, same, from) => start == from && home == of && slice == same,
        },
    }
}

// Whether the sources of some files hold what those of others hold.
fn are_same<'s>(
    files: &Files<'s>,
    home: Home<'s>,
    sources: &[PlanSource<'s>],
    others: &Files<'s>,
    origin: Home<'s>,
    more: &[PlanSource<'s>],
) -> bool
    ensures same { result ≡ true
        → all_contents files.now (home_view home.entry) (plan_sources_view sources.now)
        ≡ all_contents others.now (home_view origin.entry) (plan_sources_view more.now) }
    ensures other { result ≡ false
        → all_contents files.now (home_view home.entry) (plan_sources_view sources.now)
        ≢ all_contents others.now (home_view origin.entry) (plan_sources_view more.now) }
{
    if sources.len() != more.len() {
        return false;
    }
    for (i, source) in sources.iter().enumerate() {
        let content = content_of(files, home, source);
        let other = content_of(others, origin, &more[i]);
        if !is_same(content, other) {
            return false;
        }
    }
    true
}

/// Whether the sources of a permutation of some files hold what those of a permutation of others hold.
pub(crate) fn holds_the_same<'s>(
    files: &Files<'s>,
    perm: &PlanPerm<'s>,
    others: &Files<'s>,
    other: &PlanPerm<'s>,
) -> bool
    ensures same { result ≡ true → contents_of files.now (plan_perm_view perm.now)
        ≡ contents_of others.now (plan_perm_view other.now) }
    ensures other { result ≡ false → contents_of files.now (plan_perm_view perm.now)
        ≢ contents_of others.now (plan_perm_view other.now) }
{
    are_same(
        files,
        home_of(files),
        perm.sources.as_slice(),
        others,
        home_of(others),
        other.sources.as_slice(),
    )
}
