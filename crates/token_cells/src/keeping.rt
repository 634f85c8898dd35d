//! Adding what a token gave to other files, where it gives the same again.

ghost use Rattle.std.specs.Prelude.{◌≡◌, ◌++◌, Some, IfOk, OnOk, slice_range};
ghost use Rattle.std.specs.List.{slice_get};
ghost use Rattle.transforms.specs.Extent.{text_in};
ghost use Rattle.token_cells.specs.inner.Kept.{fragment_in, fragments_view, kept_view, texts_of};
ghost use Rattle.token_cells.specs.declared.keeping.Kept.{Kept as KeptRow};
ghost use Rattle.token_cells.specs.inner.Blocks.{AddsBlock};
ghost use Rattle.token_cells.specs.inner.AddedToPages.{AddsNames, AddsFrag, AddsBody, AddsRow, AreNamesAt};

use crate::adding::place;
use crate::block::Block;
use crate::pages::{OpenPages, Pages};
use crate::row::{Fragments, Row, Run, Shown};
use tk_io::{Body, NoMemory};
use transforms::{Extent, Sheet, Texts};

/// A row of other files.
#[derive(Clone, Copy, Debug)]
pub(crate) struct Kept<'a, 's> {
    pub(crate) row: &'a Row<'s>,
    pub(crate) pages: &'a Pages,
}

/// What is kept of the i-th token.
pub(crate) fn kept_of<'a, 's>(kepts: &[Option<Kept<'a, 's>>], i: usize) -> Option<Kept<'a, 's>>
    ensures { (k : KeptRow) → result ≡ Some k → slice_get kepts.now i ≡ Some (Some k) }
{
    match kepts.get(i) {
        Some(kept) => *kept,
        None => None,
    }
}

// Adds the names of the run, and says where they stand.
fn keep_names(all: &mut Texts, others: &Texts, run: Run) -> Result<Run, NoMemory>
    ensures { IfOk result (λ own. AddsNames
        all.old all.new own (slice_range others.now run.start run.end)) }
{
    let start = place(all.len())?;
    all.append(others, run.start as usize, run.end as usize)?;
    let end = place(all.len())?;
    Ok(Run { start, end })
}

// Adds the lines that stand there.
fn keep_lines(sheet: &mut Sheet, page: &Body, lines: Extent) -> Result<Extent, NoMemory>
    ensures { IfOk result (λ own. AddsBody sheet.old sheet.new own (text_in page.now lines)) }
{
    sheet.add_body(lines.text(page.as_slice()))
}

// Adds what a token gives to a platform.
fn keep_shown(
    sheet: &mut Sheet,
    all: &mut Texts,
    page: &Body,
    names: &Texts,
    shown: Shown,
) -> Result<Shown, NoMemory>
    ensures { IfOk result (λ own. AddsFrag sheet.old sheet.new all.old all.new own
        (fragment_in page.now names.now shown)) }
{
    Ok(Shown {
        lines: keep_lines(sheet, page, shown.lines)?,
        names: keep_names(all, names, shown.names)?,
    })
}

// Adds the names in Swift, unless they are those on Android, and says where they stand.
fn keep_swift_names(
    all: &mut Texts,
    names: &Texts,
    android: Run,
    swift: Run,
    run: Run,
) -> Result<Run, NoMemory>
    requires { AreNamesAt all.old run (slice_range names.now android.start android.end) }
    ensures { IfOk result (λ own. AddsNames
        all.old all.new own (slice_range names.now swift.start swift.end)) }
{
    if android.start == swift.start && android.end == swift.end {
        return Ok(run);
    }
    keep_names(all, names, swift)
}

// Copies what a token gives to each platform out of other pages, as a row of these.
fn keep_fragments(
    pages: &mut OpenPages,
    others: &Pages,
    fragments: &Fragments,
) -> Result<Fragments, NoMemory>
    ensures { IfOk result (λ own. AddsRow pages.old pages.new (Row.Unbroken own)
        (fragments_view (texts_of others.now) fragments.now)) }
{
    let names = &others.names;
    let all = &mut pages.names;
    let css = keep_shown(&mut pages.css, all, &others.css, names, fragments.css)?;
    let android = keep_shown(
        &mut pages.android,
        all,
        &others.android,
        names,
        fragments.android,
    )?;
    let swift = Shown {
        lines: keep_lines(&mut pages.swift, &others.swift, fragments.swift.lines)?,
        names: keep_swift_names(
            all,
            names,
            fragments.android.names,
            fragments.swift.names,
            android.names,
        )?,
    };
    Ok(Fragments {
        css,
        android,
        swift,
        json: keep_lines(&mut pages.json, &others.json, fragments.json)?,
    })
}

/// Copies the lines and the names of the block out of other pages, and says where they are in these.
pub(crate) fn keep_block(
    pages: &mut OpenPages,
    others: &Pages,
    block: &Block,
) -> Result<Block, NoMemory>
    ensures { IfOk result (λ own. AddsBlock
        pages.old pages.new own (texts_of others.now) block.now) }
{
    Ok(Block {
        css: keep_lines(&mut pages.css, &others.css, block.css)?,
        android: keep_lines(&mut pages.android, &others.android, block.android)?,
        swift: keep_lines(&mut pages.swift, &others.swift, block.swift)?,
        json: keep_lines(&mut pages.json, &others.json, block.json)?,
        names: keep_names(&mut pages.names, &others.names, block.names)?,
    })
}

impl<'a, 's> Kept<'a, 's> {
    /// Adds what the token gives to other files, and says where it stands there.
    pub(crate) fn add_to(&self, pages: &mut OpenPages) -> Result<Row<'s>, NoMemory>
        ensures { IfOk result (λ row. AddsRow pages.old pages.new row (kept_view self.now)) }
    {
        match self.row {
            Row::Broken(refusal) => {
                let refusal = refusal.clone()?;
                Ok(Row::Broken(refusal))
            }
            Row::Unbroken(fragments) => {
                let fragments = keep_fragments(pages, self.pages, fragments)?;
                Ok(Row::Unbroken(fragments))
            }
        }
    }
}
