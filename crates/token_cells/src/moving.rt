//! Rows whose lines and names were copied out of other files.

ghost use Rattle.std.specs.Prelude.{◌≡◌, ◌+◌, ◌-◌, ◌<◌, ◌≤◌, ◌++◌, List, All, OnOk, map};
ghost use Rattle.std.specs.List.{AllZip};
ghost use Rattle.token_cells.specs.declared.row.Fragments.{Fragments as FragmentsData};
ghost use Rattle.token_cells.specs.declared.row.Row.TheVariants.{Unbroken};
ghost use Rattle.token_cells.specs.inner.Blocks.{HasRoom, LiesIn, Shows, StandsIn};
ghost use Rattle.token_cells.specs.inner.Blocks.{moved, moved_fragments, moved_lines, moved_names};
ghost use Rattle.token_cells.specs.inner.Kept.{PageTexts};

use crate::block::{Block, fragments_of};
use crate::keeping::Kept;
use crate::row::{Fragments, Row, Run, Shown};
use tk_io::NoMemory;
use transforms::Extent;

// The place to which one comes that is copied with all from a place on.
fn moved(place: u32, from: u32, to: u32) -> u32
    requires from { from ≤ place }
    requires fits { to + (place - from) < 4_294_967_296 }
    ensures { result ≡ moved place from to }
{
    to + (place - from)
}

// Where the lines are that stood among these and were copied with them.
fn moved_lines(lines: Extent, from: Extent, to: Extent) -> Extent
    requires lies { LiesIn from.start from.end lines.start lines.end }
    requires room { from.end - from.start ≤ to.end - to.start }
    ensures { result ≡ moved_lines lines from to }
{
    Extent {
        start: moved(lines.start, from.start, to.start),
        end: moved(lines.end, from.start, to.start),
    }
}

// Where the names are that stood among these and were copied with them.
fn moved_names(names: Run, from: Run, to: Run) -> Run
    requires lies { LiesIn from.start from.end names.start names.end }
    requires room { from.end - from.start ≤ to.end - to.start }
    ensures { result ≡ moved_names names from to }
{
    Run {
        start: moved(names.start, from.start, to.start),
        end: moved(names.end, from.start, to.start),
    }
}

// Where the fragments are that stood in the one block, which was copied to the other.
fn moved_fragments(fragments: &Fragments, from: &Block, to: &Block) -> Fragments
    requires stands { StandsIn from.now fragments.now }
    requires room { HasRoom from.now to.now }
    ensures { result ≡ moved_fragments from.now to.now fragments.now }
{
    Fragments {
        css: Shown {
            lines: moved_lines(fragments.css.lines, from.css, to.css),
            names: moved_names(fragments.css.names, from.names, to.names),
        },
        android: Shown {
            lines: moved_lines(fragments.android.lines, from.android, to.android),
            names: moved_names(fragments.android.names, from.names, to.names),
        },
        swift: Shown {
            lines: moved_lines(fragments.swift.lines, from.swift, to.swift),
            names: moved_names(fragments.swift.names, from.names, to.names),
        },
        json: moved_lines(fragments.json, from.json, to.json),
    }
}

/// Adds a row for each token of which this is kept, all of them in the one block, which was copied to the other.
pub(crate) fn push_moved<'s>(
    rows: &mut Vec<Row<'s>>,
    kepts: &[Option<Kept<'_, 's>>],
    from: &Block,
    to: &Block,
) -> Result<(), NoMemory>
    requires shows { (pages : PageTexts) × (fs : List FragmentsData)
        × AllZip (Shows pages) fs kepts.now × All (StandsIn from.now) fs }
    requires room { HasRoom from.now to.now }
    ensures { OnOk result ((pages : PageTexts) (fs : List FragmentsData)
        → AllZip (Shows pages) fs kepts.now → rows.new.items
        ≡ rows.old.items ++ map (λ f. Unbroken (moved_fragments from.now to.now f)) fs) }
{
    rows.reserve(kepts.len())?;
    for kept in kepts {
        let Some(fragments) = fragments_of(kept) else {
            return Ok(());
        };
        rows.push_reserved(Row::Unbroken(moved_fragments(fragments, from, to)));
    }
    Ok(())
}
