//! What all tokens of a flat tree come to.

ghost use Rattle.std.specs.Prelude.{◌≡◌, ◌+◌, ◌≤◌, List, IfOk, OnOk, length};
ghost use Rattle.std.specs.FinMap as map;
ghost use Rattle.std.specs.List.{AllZip, count_by};
ghost use Rattle.std.specs.Option.{is_none};
ghost use Rattle.tree_changes.specs.Named.{AllNameAs};
ghost use Rattle.tree_changes.specs.Standing.{KeepsAt};
ghost use Rattle.token_cells.specs.Cell.{AreCells};
ghost use Rattle.token_cells.specs.TokenCell.{TokenCell};
ghost use Rattle.token_cells.specs.inner.AddedToPages.{AreSheets, AreShown, HoldAll};
ghost use Rattle.token_cells.specs.inner.Kept.{open_texts, rows_view, texts_of};

use crate::earlier::{Earlier, KeptRows, kept_in, rows_at};
use crate::evaluated::Evaluated;
use crate::gathering::{grown, grown_since};
use crate::pages::{OpenPages, Pages, Room};
use crate::row::Row;
use group_inherit::Flat;
use std::alloc::Global;
use std::marker::Model;
use std::sync::ledger::Ledger;
use tk_io::{NoMemory, Steps};
use transforms::Config;
use tree_changes::Named;

/// What tokens come to, in path order, and the files that they give, of which each token's lines are a part; seen as the
/// list of what they come to.
#[derive(Debug, Drop)]
pub struct Cells<'s> {
    rows: Vec<Row<'s>>,
    pages: Pages,
}

impl<'s> Model for Cells<'s> {
    ghost use Rattle.std.specs.Prelude.{List};
    ghost use Rattle.token_cells.specs.TokenCell.{TokenCell};
    ghost use Rattle.token_cells.specs.inner.AddedToPages.{AreSheets};
    ghost use Rattle.token_cells.specs.inner.Kept.{rows_view, texts_of};

    ghost Value = { List TokenCell };

    ghost view = { λ c. rows_view (texts_of c.pages) c.rows.items };

    ghost invariant = { λ c. AreSheets c.pages (rows_view (texts_of c.pages) c.rows.items) };
}

impl<'s> Cells<'s> {
    /// The tokens whose rows these are, which were added to the pages.
    pub(crate) fn new(pages: OpenPages, rows: Vec<Row<'s>>) -> Result<Cells<'s>, NoMemory>
        requires { (cells : List TokenCell)
            × HoldAll pages cells × AreShown (open_texts pages) rows.items cells }
        ensures { (cells : List TokenCell)
            → AreShown (open_texts pages) rows.entry.items cells
            → IfOk result (λ c. c ≡ cells) }
    {
        let pages = pages.close()?;
        Ok(Cells { rows, pages })
    }

    /// What each comes to, and the files, in which its lines stand.
    pub(crate) fn parts(&self) -> (&[Row<'s>], &Pages)
        ensures rows { rows_view (texts_of result.1.now) result.0.now ≡ self.now }
        ensures pages { AreSheets result.1.now self.now }
    {
        (self.rows.as_slice(), &self.pages)
    }

    // About how many bytes each token gave to each file.
    fn room(&self) -> Room {
        Room::like(&self.pages, self.rows.len())
    }
}

/// What each token of the flat tree comes to, in path order, and the files that they give. Each token is one step. A token
/// that stands as it stood in the earlier tree, as do all to which its references lead, is neither evaluated nor spelled
/// again.
pub fn cells_of<'s, N: Ledger>(
    alloc: Global,
    flat: Flat<'s>,
    cfg: &Config,
    earlier: &Earlier<'s>,
    evals: &mut Steps<N>,
) -> Result<Evaluated<'s>, NoMemory>
    ensures tokens { IfOk result (λ tree. tree.tokens ≡ flat.entry) }
    ensures ok { IfOk result (λ tree.
        AreCells flat.entry cfg.now (map.entries flat.entry) tree.cells) }
    ensures steps { OnOk result (evals.new ≡ evals.old + length (map.entries flat.entry)) }
    // Where memory runs out, some tokens are not evaluated.
    ensures at_most { evals.new ≤ evals.old + length (map.entries flat.entry) }
{
    let KeptRows { rows, named } = earlier.kept(alloc, cfg, &flat)?;
    let growing = grown(alloc, &flat, cfg, rows.as_slice(), Room::USUAL, evals)?;
    growing.end(flat, cfg, named)
}

/// The same, with what was evaluated before under the same configuration in another tree.
pub fn cells_beside<'s, N: Ledger>(
    alloc: Global,
    flat: Flat<'s>,
    cfg: &Config,
    other: &Evaluated<'s>,
    evals: &mut Steps<N>,
) -> Result<Evaluated<'s>, NoMemory>
    requires { AreCells other.now.tokens cfg.now (map.entries other.now.tokens) other.now.cells }
    ensures tokens { IfOk result (λ tree. tree.tokens ≡ flat.entry) }
    ensures ok { IfOk result (λ tree.
        AreCells flat.entry cfg.now (map.entries flat.entry) tree.cells) }
    ensures steps { OnOk result (evals.new ≡ evals.old + length (map.entries flat.entry)) }
    // Where memory runs out, some tokens are not evaluated.
    ensures at_most { evals.new ≤ evals.old + length (map.entries flat.entry) }
{
    let KeptRows { rows, named } = kept_in(alloc, other, &flat)?;
    let room = other.cells().room();
    let growing = grown(alloc, &flat, cfg, rows.as_slice(), room, evals)?;
    growing.end(flat, cfg, named)
}

/// What each token of the flat tree comes to, in path order, with what was evaluated before under the same configuration,
/// where its tokens keep these places in the tree that was. A token that keeps its place is taken from there, and each
/// other one is one step. `named` is what is known of the names of tokens of the flat tree; both are what
/// `kept_places` tells.
pub fn cells_since<'s, N: Ledger>(
    alloc: Global,
    flat: Flat<'s>,
    cfg: &Config,
    old: &Evaluated<'s>,
    places: &[Option<usize>],
    named: Vec<Named>,
    evals: &mut Steps<N>,
) -> Result<Evaluated<'s>, NoMemory>
    requires old { AreCells old.now.tokens cfg.now (map.entries old.now.tokens) old.now.cells }
    requires places { AllZip (KeepsAt old.now.tokens flat) (map.entries flat) places.now }
    requires named { AllNameAs (map.entries flat) named.items }
    ensures tokens { IfOk result (λ tree. tree.tokens ≡ flat.entry) }
    ensures ok { IfOk result (λ tree.
        AreCells flat.entry cfg.now (map.entries flat.entry) tree.cells) }
    ensures steps { OnOk result (evals.new ≡ evals.old + count_by is_none places.now) }
    // Where memory runs out, some of these are not evaluated.
    ensures at_most { evals.new ≤ evals.old + count_by is_none places.now }
{
    let rows = rows_at(alloc, old, &flat, places)?;
    let room = old.cells().room();
    let growing = grown_since(alloc, &flat, cfg, rows.as_slice(), room, evals)?;
    growing.end(flat, cfg, named)
}
