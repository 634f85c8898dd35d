//! The files of tokens: as they are made, and whole.

ghost use Rattle.std.specs.Prelude.{◌≡◌, ◌++◌, [], true, List, ℕ, IfOk, OnOk, map, slice_range};
ghost use Rattle.tk_io.specs.Writing.{Extends};
ghost use Rattle.token_cells.specs.TokenCell.{TokenCell};
ghost use Rattle.token_cells.specs.Breaks.{names_on};
ghost use Rattle.token_cells.specs.Sheets.{sheet_for};
ghost use Rattle.token_cells.specs.inner.Kept.{PageTexts, texts_of, open_texts, fragments_view};
ghost use Rattle.token_cells.specs.inner.Kept.{names_in, page_for};
ghost use Rattle.transforms.specs.Rising.{RiseTo};
ghost use Rattle.token_cells.specs.inner.AddedToPages.{Grows, HoldAll, HoldsCells, AreSheets};

use crate::format::Format;
use crate::row::{Fragments, Run};
use std::alloc::Global;
use tk_io::{Body, Bytes, NoMemory};
use transforms::{Platform, Rising, Sheet, Texts};

/// About how many bytes a token gives to each file, which decides how often memory is asked for.
#[derive(Clone, Copy)]
pub(crate) struct Room {
    css: usize,
    android: usize,
    swift: usize,
    json: usize,
}

impl Room {
    /// What tokens of all types give on the average.
    pub(crate) const USUAL: Room = Room {
        css: 44,
        android: 52,
        swift: 60,
        json: 124,
    };

    /// What so many tokens gave to these files on the average.
    pub(crate) fn like(pages: &Pages, tokens: usize) -> Room {
        Room {
            css: for_one(&pages.css, tokens),
            android: for_one(&pages.android, tokens),
            swift: for_one(&pages.swift, tokens),
            json: for_one(&pages.json, tokens),
        }
    }
}

// What each of so many tokens gave to the file, and a byte more.
fn for_one(page: &Body, tokens: usize) -> usize {
    let all = page.as_slice().len();
    match all.checked_div(tokens) {
        Some(each) => each.saturating_add(1),
        None => all,
    }
}

/// The files of the tokens so far, and the names of these tokens, one behind another.
#[derive(Debug, Drop)]
pub(crate) struct OpenPages {
    pub(crate) css: Sheet,
    pub(crate) android: Sheet,
    pub(crate) swift: Sheet,
    pub(crate) json: Sheet,
    pub(crate) names: Texts,
}

/// The files of tokens, which may be held elsewhere too, and the names of the tokens, one behind another.
#[derive(Debug, Drop)]
pub(crate) struct Pages {
    pub(crate) css: Body,
    pub(crate) android: Body,
    pub(crate) swift: Body,
    pub(crate) json: Body,
    pub(crate) names: Texts,
}

// An empty sheet with room for so many tokens, of which each gives so many bytes.
fn open(alloc: Global, format: Format, tokens: usize, room: usize) -> Result<Sheet, NoMemory>
    ensures { IfOk result (λ sheet. HoldsCells format sheet []) }
{
    Sheet::start(alloc, format.frame(), tokens.saturating_mul(room))
}

// The finished bytes of a sheet.
fn close(sheet: Sheet) -> Result<Body, NoMemory>
    ensures grows { IfOk result (Extends sheet.text) }
    ensures sheet { (format : Format) (cells : List TokenCell)
        → HoldsCells format sheet cells → IfOk result (λ body. body ≡ sheet_for format cells) }
{
    Body::new(sheet.finish()?)
}

impl OpenPages {
    /// The files of no token, with room for so many.
    pub(crate) fn new(alloc: Global, tokens: usize, room: Room) -> Result<OpenPages, NoMemory>
        ensures { IfOk result (λ pages. HoldAll pages []) }
    {
        Ok(OpenPages {
            css: open(alloc, Format::Css, tokens, room.css)?,
            android: open(alloc, Format::Android, tokens, room.android)?,
            swift: open(alloc, Format::Swift, tokens, room.swift)?,
            json: open(alloc, Format::Json, tokens, room.json)?,
            names: Texts::new(alloc),
        })
    }

    /// The files, to which no token is added any more.
    pub(crate) fn close(self) -> Result<Pages, NoMemory>
        ensures grows { IfOk result (λ pages. Grows (open_texts self) (texts_of pages)) }
        ensures sheets { (cells : List TokenCell)
            → HoldAll self cells → IfOk result (λ pages. AreSheets pages cells) }
    {
        Ok(Pages {
            css: close(self.css)?,
            android: close(self.android)?,
            swift: close(self.swift)?,
            json: close(self.json)?,
            names: self.names,
        })
    }
}

// Adds the names of a run of texts.
fn push_run<'a>(names: &mut Vec<&'a [u8]>, texts: &'a Texts, run: Run) -> Result<(), NoMemory>
    ensures { OnOk result (map (λ name. name.now) names.new.items
        ≡ map (λ name. name.now) names.old.items ++ slice_range texts.now run.start run.end) }
{
    for i in run.start..run.end {
        let Some(name) = texts.at(i as usize) else {
            return Ok(());
        };
        names.push(name)?;
    }
    Ok(())
}

// Whether each name of the run stands behind the one before it.
fn run_rises<'a>(texts: &'a Texts, run: Run, rising: &mut Rising<'a>) -> bool
    ensures { (names : List (List ℕ)) → RiseTo names rising.old → result ≡ true
        → RiseTo (names ++ slice_range texts.now run.start run.end) rising.new }
{
    for i in run.start..run.end {
        let Some(name) = texts.at(i as usize) else {
            return true;
        };
        if !rising.add(name) {
            return false;
        }
    }
    true
}

impl Pages {
    /// The file of this format.
    pub(crate) fn page(&self, format: Format) -> &Body
        ensures { result.now ≡ page_for format self.now }
    {
        match format {
            Format::Css => &self.css,
            Format::Android => &self.android,
            Format::Swift => &self.swift,
            Format::Json => &self.json,
        }
    }

    /// Adds the names on the platform. None is copied.
    pub(crate) fn push_names<'a>(
        &'a self,
        platform: Platform,
        fragments: &Fragments,
        names: &mut Vec<&'a [u8]>,
    ) -> Result<(), NoMemory>
        ensures { OnOk result (map (λ name. name.now) names.new.items
            ≡ map (λ name. name.now) names.old.items
            ++ names_on platform (fragments_view (texts_of self.now) fragments.now)) }
    {
        push_run(names, &self.names, Pages::run_on(platform, fragments))
    }

    // Where the names on the platform stand.
    fn run_on(platform: Platform, fragments: &Fragments) -> Run
        ensures { (pages : PageTexts) → names_on platform (fragments_view pages fragments.now)
            ≡ names_in pages.names result }
    {
        match platform {
            Platform::Css => fragments.css.names,
            Platform::Android => fragments.android.names,
            Platform::Swift => fragments.swift.names,
        }
    }

    /// Whether each name on the platform stands behind the one before it.
    pub(crate) fn rises<'a>(
        &'a self,
        platform: Platform,
        fragments: &Fragments,
        rising: &mut Rising<'a>,
    ) -> bool
        ensures { (names : List (List ℕ)) → RiseTo names rising.old → result ≡ true → RiseTo
            (names ++ names_on platform (fragments_view (texts_of self.now) fragments.now))
            rising.new }
    {
        run_rises(&self.names, Pages::run_on(platform, fragments), rising)
    }
}
