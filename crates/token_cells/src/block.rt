//! Rows that stand one behind another in other files, so that their lines and names can be copied at once.

ghost use Rattle.std.specs.Prelude.{◌≡◌, ◌+◌, ◌<◌, true, Some, IfSome, option_map};
ghost use Rattle.token_cells.specs.Sheets.{frame_for};
ghost use Rattle.token_cells.specs.declared.format.Format.{Format as FormatOf};
ghost use Rattle.token_cells.specs.declared.row.Fragments.{Fragments as FragmentsData};
ghost use Rattle.token_cells.specs.inner.Blocks.{AreFrom, AreInOrder, AreNamesFrom, AreNext, FitsIn, IsBehind, IsFound, IsFrom, IsLine};
ghost use Rattle.token_cells.specs.inner.Blocks.{Shows, ShowsAt, block_between, glue_on, up_to};
ghost use Rattle.token_cells.specs.inner.Kept.{PageTexts, texts_of};

use crate::format::Format;
use crate::keeping::{Kept, kept_of};
use crate::pages::Pages;
use crate::row::{Fragments, Row, Run};
use tk_io::Body;
use transforms::Extent;

/// Where the lines of rows that stand one behind another are in each file, with the glue between, and where their names
/// are.
#[derive(Clone, Copy, Debug)]
pub(crate) struct Block {
    pub(crate) css: Extent,
    pub(crate) android: Extent,
    pub(crate) swift: Extent,
    pub(crate) json: Extent,
    pub(crate) names: Run,
}

/// A block of these files, and which token is the next behind those of which it is kept.
#[derive(Clone, Copy)]
pub(crate) struct Found<'a> {
    pub(crate) block: Block,
    pub(crate) pages: &'a Pages,
    pub(crate) end: usize,
}

// What stands in each file between the lines of two tokens.
#[derive(Clone, Copy)]
struct Glues {
    css: &'static [u8],
    android: &'static [u8],
    swift: &'static [u8],
    json: &'static [u8],
}

impl Glues {
    fn new() -> Glues
        ensures { (format : FormatOf) → glue_on format result ≡ (frame_for format).glue }
    {
        Glues {
            css: Format::Css.frame().glue,
            android: Format::Android.frame().glue,
            swift: Format::Swift.frame().glue,
            json: Format::Json.frame().glue,
        }
    }
}

// Whether the lines stand in the page behind the glue, which begins there.
fn stand_behind(page: &Body, end: u32, glue: &[u8], lines: Extent) -> bool
    ensures { result ≡ true → IsBehind page.now end glue.now lines }
{
    if lines.start < end || lines.end < lines.start {
        return false;
    }
    if glue.is_empty() {
        return lines.start == end;
    }
    let between = Extent {
        start: end,
        end: lines.start,
    };
    between.text(page.as_slice()) == glue
}

// Whether the names begin at this place, and those on Android and in Swift stand behind those of CSS.
fn names_begin(start: u32, fragments: &Fragments) -> bool
    ensures { result ≡ true → AreNamesFrom start fragments.now }
{
    let css = fragments.css.names;
    let android = fragments.android.names;
    let swift = fragments.swift.names;
    if css.start != start || css.end < css.start || android.start < css.end {
        return false;
    }
    if android.end < android.start || swift.start < android.start || swift.end < swift.start {
        return false;
    }
    android.end <= swift.end
}

// Whether all that stands in the files does not end before it starts, as it never does.
fn are_in_order(fragments: &Fragments) -> bool
    ensures { result ≡ true → AreInOrder fragments.now }
{
    let css = fragments.css.lines;
    let android = fragments.android.lines;
    let swift = fragments.swift.lines;
    let json = fragments.json;
    if css.end < css.start || android.end < android.start {
        return false;
    }
    if swift.end < swift.start || json.end < json.start {
        return false;
    }
    names_begin(fragments.css.names.start, fragments)
}

// Whether the next fragments stand in the files right behind the last and the glue.
fn are_next(pages: &Pages, glues: &Glues, last: &Fragments, next: &Fragments) -> bool
    ensures { result ≡ true → AreNext (texts_of pages.now) glues.now last.now next.now }
{
    if !stand_behind(&pages.css, last.css.lines.end, glues.css, next.css.lines) {
        return false;
    }
    if !stand_behind(
        &pages.android,
        last.android.lines.end,
        glues.android,
        next.android.lines,
    ) {
        return false;
    }
    if !stand_behind(
        &pages.swift,
        last.swift.lines.end,
        glues.swift,
        next.swift.lines,
    ) {
        return false;
    }
    if !stand_behind(&pages.json, last.json.end, glues.json, next.json) {
        return false;
    }
    names_begin(last.swift.names.end, next)
}

// All from the first lines to the end of the last.
fn up_to(first: Extent, last: Extent) -> Extent
    ensures { result ≡ up_to first last }
{
    Extent {
        start: first.start,
        end: last.end,
    }
}

impl Block {
    // All from the first fragments to the end of the last.
    fn between(first: &Fragments, last: &Fragments) -> Block
        ensures { result ≡ block_between first.now last.now }
    {
        Block {
            css: up_to(first.css.lines, last.css.lines),
            android: up_to(first.android.lines, last.android.lines),
            swift: up_to(first.swift.lines, last.swift.lines),
            json: up_to(first.json, last.json),
            names: Run {
                start: first.css.names.start,
                end: last.swift.names.end,
            },
        }
    }

    // Whether it is one of these files, as it always is.
    fn is_within(&self, pages: &Pages) -> bool
        ensures { result ≡ true → FitsIn (texts_of pages.now) self.now }
    {
        if pages.css.as_slice().len() < self.css.end as usize {
            return false;
        }
        if pages.android.as_slice().len() < self.android.end as usize {
            return false;
        }
        if pages.swift.as_slice().len() < self.swift.end as usize {
            return false;
        }
        if pages.json.as_slice().len() < self.json.end as usize {
            return false;
        }
        self.names.end as usize <= pages.names.len()
    }
}

/// What is kept of a token gives this to each platform, unless it breaks a rule.
pub(crate) fn fragments_of<'a>(kept: &Option<Kept<'a, '_>>) -> Option<&'a Fragments>
    ensures some { IfSome result (λ f. (pages : PageTexts) → IsFrom pages kept.now
        → Shows pages f.now kept.now) }
    ensures shown { (pages : PageTexts) (f : FragmentsData) → Shows pages f kept.now
        → option_map (λ own. own.now) result ≡ Some f }
{
    let Some(kept) = kept else {
        return None;
    };
    match kept.row {
        Row::Unbroken(fragments) => Some(fragments),
        Row::Broken(_) => None,
    }
}

// What is kept of the i-th token, unless that breaks a rule.
fn fragments_at<'a>(kepts: &[Option<Kept<'a, '_>>], i: usize) -> Option<&'a Fragments>
    ensures { IfSome result (λ f. (pages : PageTexts) → AreFrom pages kepts.now
        → ShowsAt pages f.now kepts.now i) }
{
    match kepts.get(i) {
        Some(kept) => fragments_of(kept),
        None => None,
    }
}

// The last fragments that are kept of the tokens from the i-th on, up to so many, as far as they stand in these files one
// behind another; and which token is the next.
fn last_from<'a>(
    kepts: &[Option<Kept<'a, '_>>],
    i: usize,
    many: usize,
    pages: &Pages,
    first: &'a Fragments,
) -> (&'a Fragments, usize)
    requires first { IsLine (texts_of pages.now) kepts.now i many first.now first.now (i + 1) }
    requires from { AreFrom (texts_of pages.now) kepts.now }
    ensures { IsLine (texts_of pages.now) kepts.now i many first.now result.0.now result.1 }
{
    let glues = Glues::new();
    let mut last = first;
    for n in i + 1..many {
        let Some(next) = fragments_at(kepts, n) else {
            return (last, n);
        };
        if !are_next(pages, &glues, last, next) {
            return (last, n);
        }
        last = next;
    }
    (last, many)
}

/// The block of what is kept of the i-th token and of those behind it, up to so many, as far as it stands in the same files
/// one behind another. None where the i-th breaks a rule.
pub(crate) fn block_from<'a>(
    kepts: &[Option<Kept<'a, '_>>],
    i: usize,
    many: usize,
) -> Option<Found<'a>>
    requires within { i < many }
    requires from { (pages : PageTexts) × AreFrom pages kepts.now }
    ensures { IfSome result (λ found. IsFound kepts.now i many found) }
{
    let Some(kept) = kept_of(kepts, i) else {
        return None;
    };
    let Some(first) = fragments_at(kepts, i) else {
        return None;
    };
    if !are_in_order(first) {
        return None;
    }
    let pages = kept.pages;
    let (last, end) = last_from(kepts, i, many, pages, first);
    let block = Block::between(first, last);
    if !block.is_within(pages) {
        return None;
    }
    Some(Found { block, pages, end })
}
