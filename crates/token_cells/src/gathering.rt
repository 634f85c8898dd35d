//! Tokens that are added to the files, one after another.

ghost use Rattle.std.specs.Prelude.{◌≡◌, ◌+◌, ◌≤◌, ◌<◌, ◌∷◌, ◌++◌, List, [], Some, IfOk, IfSome, OnOk, cond, length, take};
ghost use Rattle.std.specs.FinMap as map;
ghost use Rattle.std.specs.List.{AllZip, count_by, slice_get};
ghost use Rattle.std.specs.Option.{is_none};
ghost use Rattle.group_inherit.specs.Flattening.{TokenAt};
ghost use Rattle.alias_ref.specs.Laws.{Flat as FlatTree};
ghost use Rattle.transforms.specs.Config.{Settings};
ghost use Rattle.token_cells.specs.Cell.{AreCells, IsCell};
ghost use Rattle.tree_changes.specs.Named.{AllNameAs};
ghost use Rattle.token_cells.specs.inner.Blocks.{ComesToKept, FitsIn, IsNextOf, IsRun};
ghost use Rattle.token_cells.specs.inner.Earlier.{AreKept};
ghost use Rattle.token_cells.specs.inner.Kept.{kept_view, texts_of};
ghost use Rattle.token_cells.specs.inner.Making.{ComesTo};
ghost use Rattle.token_cells.specs.inner.Turns.{HasAdded};
ghost use Rattle.token_cells.specs.inner.Typing.{AreTyped};

use crate::block::{Block, block_from};
use crate::cells::Cells;
use crate::evaluated::Evaluated;
use crate::keeping::{Kept, keep_block, kept_of};
use crate::moving::push_moved;
use crate::pages::{OpenPages, Pages, Room};
use crate::row::Row;
use crate::token_cell::evaluated_row;
use crate::typing::Workbench;
use alias_ref::Evaluator;
use group_inherit::{Entry, Flat};
use name_path::Path;
use std::alloc::Global;
use std::sync::ledger::Ledger;
use tk_io::{NoMemory, Steps};
use transforms::Config;
use tree_changes::Named;

// Counts so many steps.
fn tick_all<N: Ledger>(evals: &mut Steps<N>, many: usize)
    ensures { evals.new ≡ evals.old + many }
{
    for _i in 0..many {
        evals.tick();
    }
}

// What the i-th token of the flat tree comes to. It is one step.
fn token_row<'s, N: Ledger>(
    alloc: Global,
    bench: &mut Workbench<'s>,
    pages: &mut OpenPages,
    evaluator: &mut Evaluator<'_, 's>,
    i: usize,
    token: &(Path<'s>, Entry<'s>),
    cfg: &Config,
    kept: Option<Kept<'_, 's>>,
    evals: &mut Steps<N>,
) -> Result<Row<'s>, NoMemory>
    requires token { slice_get (map.entries evaluator.old) i ≡ Some token.now }
    requires kept { IfSome kept (λ k. IsCell evaluator.old cfg.now token.now.0 (kept_view k)) }
    requires typed { AreTyped evaluator.old cfg.now bench.old.values.known.items }
    ensures tree { evaluator.new ≡ evaluator.old }
    ensures step { evals.new ≡ evals.old + 1 }
    ensures row { IfOk result
        (ComesTo (IsCell evaluator.old cfg.now token.now.0) pages.old pages.new) }
    ensures typed { AreTyped evaluator.old cfg.now bench.new.values.known.items }
{
    if let Some(kept) = kept {
        evals.tick();
        let row = kept.add_to(pages)?;
        return Ok(row);
    }
    evaluated_row(alloc, bench, pages, evaluator, i, token, cfg, evals)
}

/// What the tokens that were added come to, and the files that grow by them.
#[derive(Drop)]
pub(crate) struct Growing<'s> {
    bench: Workbench<'s>,
    pages: OpenPages,
    rows: Vec<Row<'s>>,
}

impl<'s> Growing<'s> {
    /// No token yet, of so many.
    fn new(alloc: Global, tokens: usize, room: Room) -> Result<Growing<'s>, NoMemory>
        ensures { IfOk result (λ g. (flat : FlatTree) (settings : Settings)
            → HasAdded flat settings [] g) }
    {
        let pages = OpenPages::new(alloc, tokens, room)?;
        let rows = Vec::with_capacity(alloc, tokens)?;
        Ok(Growing {
            bench: Workbench::new(alloc),
            pages,
            rows,
        })
    }

    /// Adds the i-th token, of which this is kept. It is one step.
    fn add<N: Ledger>(
        &mut self,
        alloc: Global,
        evaluator: &mut Evaluator<'_, 's>,
        kept: Option<Kept<'_, 's>>,
        i: usize,
        token: &(Path<'s>, Entry<'s>),
        cfg: &Config,
        evals: &mut Steps<N>,
    ) -> Result<(), NoMemory>
        requires token { slice_get (map.entries evaluator.old) i ≡ Some token.now }
        requires kept { IfSome kept (λ k. IsCell evaluator.old cfg.now token.now.0 (kept_view k)) }
        requires typed { AreTyped evaluator.old cfg.now self.old.bench.values.known.items }
        ensures tree { evaluator.new ≡ evaluator.old }
        ensures added { OnOk result ((tokens : List TokenAt)
            → HasAdded evaluator.old cfg.now tokens self.old
            → HasAdded evaluator.old cfg.now (tokens ++ token.now ∷ []) self.new) }
        ensures step { evals.new ≡ evals.old + 1 }
    {
        let bench = &mut self.bench;
        let pages = &mut self.pages;
        let row = token_row(alloc, bench, pages, evaluator, i, token, cfg, kept, evals)?;
        self.rows.push(row)?;
        Ok(())
    }

    // Adds a token of which this is kept. It is no step.
    fn add_kept(&mut self, kept: Kept<'_, 's>) -> Result<(), NoMemory>
        ensures { OnOk result ((flat : FlatTree) (settings : Settings) (tokens : List TokenAt)
            (token : TokenAt) → IsCell flat settings token.0 (kept_view kept.entry)
            → HasAdded flat settings tokens self.old
            → HasAdded flat settings (tokens ++ token ∷ []) self.new) }
    {
        let row = kept.add_to(&mut self.pages)?;
        self.rows.push(row)?;
        Ok(())
    }

    // Adds the i-th token, of which this is kept. It is one step where nothing is.
    fn add_since<N: Ledger>(
        &mut self,
        alloc: Global,
        evaluator: &mut Evaluator<'_, 's>,
        kept: Option<Kept<'_, 's>>,
        i: usize,
        token: &(Path<'s>, Entry<'s>),
        cfg: &Config,
        evals: &mut Steps<N>,
    ) -> Result<(), NoMemory>
        requires token { slice_get (map.entries evaluator.old) i ≡ Some token.now }
        requires kept { IfSome kept (λ k. IsCell evaluator.old cfg.now token.now.0 (kept_view k)) }
        requires typed { AreTyped evaluator.old cfg.now self.old.bench.values.known.items }
        ensures tree { evaluator.new ≡ evaluator.old }
        ensures added { OnOk result ((tokens : List TokenAt)
            → HasAdded evaluator.old cfg.now tokens self.old
            → HasAdded evaluator.old cfg.now (tokens ++ token.now ∷ []) self.new) }
        ensures step { evals.new ≡ evals.old + cond (is_none kept.entry) 1 0 }
    {
        match kept {
            Some(kept) => self.add_kept(kept),
            None => self.add(alloc, evaluator, None, i, token, cfg, evals),
        }
    }

    // Adds the tokens of which this is kept, as it stands one behind another in the block of other files. It is no step.
    fn add_block(
        &mut self,
        kepts: &[Option<Kept<'_, 's>>],
        pages: &Pages,
        block: &Block,
    ) -> Result<(), NoMemory>
        requires run { IsRun (texts_of pages.now) block.now kepts.now }
        requires fits { FitsIn (texts_of pages.now) block.now }
        ensures { OnOk result ((flat : FlatTree) (settings : Settings)
            (so_far tokens : List TokenAt) → AllZip (ComesToKept flat settings) tokens kepts.now
            → HasAdded flat settings so_far self.old
            → HasAdded flat settings (so_far ++ tokens) self.new) }
    {
        let own = keep_block(&mut self.pages, pages, block)?;
        push_moved(&mut self.rows, kepts, block, &own)
    }

    // Adds the i-th token, or those from it on of which this is kept one behind another, and says which is the next. Each is
    // one step.
    fn add_next<N: Ledger>(
        &mut self,
        alloc: Global,
        evaluator: &mut Evaluator<'_, 's>,
        kepts: &[Option<Kept<'_, 's>>],
        i: usize,
        tokens: &[(Path<'s>, Entry<'s>)],
        cfg: &Config,
        evals: &mut Steps<N>,
    ) -> Result<usize, NoMemory>
        requires tokens { tokens.now ≡ map.entries evaluator.old }
        requires within { i < length tokens.now }
        requires kept { AreKept evaluator.old cfg.now kepts.now }
        requires added { HasAdded evaluator.old cfg.now (take i tokens.now) self.old }
        ensures tree { evaluator.new ≡ evaluator.old }
        ensures next { IfOk result (λ next. IsNextOf i (length tokens.now) next) }
        ensures added { IfOk result (λ next.
            HasAdded evaluator.old cfg.now (take next tokens.now) self.new) }
        ensures steps { IfOk result (λ next. evals.new + i ≡ evals.old + next) }
        ensures at_most { evals.new + i ≤ evals.old + length tokens.now }
    {
        if let Some(found) = block_from(kepts, i, tokens.len()) {
            self.add_block(&kepts[i..found.end], found.pages, &found.block)?;
            tick_all(evals, found.end - i);
            return Ok(found.end);
        }
        let kept = kept_of(kepts, i);
        self.add(alloc, evaluator, kept, i, &tokens[i], cfg, evals)?;
        Ok(i + 1)
    }

    // The same, where this is kept of each token. It is one step for a token of which nothing is kept.
    fn add_next_since<N: Ledger>(
        &mut self,
        alloc: Global,
        evaluator: &mut Evaluator<'_, 's>,
        kepts: &[Option<Kept<'_, 's>>],
        i: usize,
        tokens: &[(Path<'s>, Entry<'s>)],
        cfg: &Config,
        evals: &mut Steps<N>,
    ) -> Result<usize, NoMemory>
        requires tokens { tokens.now ≡ map.entries evaluator.old }
        requires within { i < length tokens.now }
        requires long { length kepts.now ≡ length tokens.now }
        requires kept { AreKept evaluator.old cfg.now kepts.now }
        requires added { HasAdded evaluator.old cfg.now (take i tokens.now) self.old }
        ensures tree { evaluator.new ≡ evaluator.old }
        ensures next { IfOk result (λ next. IsNextOf i (length tokens.now) next) }
        ensures added { IfOk result (λ next.
            HasAdded evaluator.old cfg.now (take next tokens.now) self.new) }
        ensures steps { IfOk result (λ next. evals.new + count_by is_none (take i kepts.now)
            ≡ evals.old + count_by is_none (take next kepts.now)) }
        ensures at_most { evals.new + count_by is_none (take i kepts.now)
            ≤ evals.old + count_by is_none kepts.now }
    {
        if let Some(found) = block_from(kepts, i, tokens.len()) {
            self.add_block(&kepts[i..found.end], found.pages, &found.block)?;
            return Ok(found.end);
        }
        let kept = kepts[i];
        self.add_since(alloc, evaluator, kept, i, &tokens[i], cfg, evals)?;
        Ok(i + 1)
    }

    // Adds all tokens of the flat tree to none, in path order, of which this is kept. Each is one step.
    fn add_all<N: Ledger>(
        &mut self,
        alloc: Global,
        flat: &Flat<'s>,
        cfg: &Config,
        kepts: &[Option<Kept<'_, 's>>],
        evals: &mut Steps<N>,
    ) -> Result<(), NoMemory>
        requires kept { AreKept flat.now cfg.now kepts.now }
        requires none { HasAdded flat.now cfg.now [] self.old }
        ensures added { OnOk result (HasAdded flat.now cfg.now (map.entries flat.now) self.new) }
        ensures steps { OnOk result (evals.new ≡ evals.old + length (map.entries flat.now)) }
        ensures at_most { evals.new ≤ evals.old + length (map.entries flat.now) }
    {
        let tokens = flat.as_slice();
        let mut evaluator = Evaluator::new(alloc, flat)?;
        let mut i = 0;
        while i < tokens.len() {
            i = self.add_next(alloc, &mut evaluator, kepts, i, tokens, cfg, evals)?;
        }
        Ok(())
    }

    // The same, where this is kept of each token. Each of which nothing is kept is one step.
    fn add_all_since<N: Ledger>(
        &mut self,
        alloc: Global,
        flat: &Flat<'s>,
        cfg: &Config,
        kepts: &[Option<Kept<'_, 's>>],
        evals: &mut Steps<N>,
    ) -> Result<(), NoMemory>
        requires kept { AreKept flat.now cfg.now kepts.now }
        requires long { length kepts.now ≡ length (map.entries flat.now) }
        requires none { HasAdded flat.now cfg.now [] self.old }
        ensures added { OnOk result (HasAdded flat.now cfg.now (map.entries flat.now) self.new) }
        ensures steps { OnOk result (evals.new ≡ evals.old + count_by is_none kepts.now) }
        ensures at_most { evals.new ≤ evals.old + count_by is_none kepts.now }
    {
        let tokens = flat.as_slice();
        let mut evaluator = Evaluator::new(alloc, flat)?;
        let mut i = 0;
        while i < tokens.len() {
            i = self.add_next_since(alloc, &mut evaluator, kepts, i, tokens, cfg, evals)?;
        }
        Ok(())
    }

    /// The tree of these tokens, which were all added.
    pub(crate) fn end(
        self,
        flat: Flat<'s>,
        cfg: &Config,
        named: Vec<Named>,
    ) -> Result<Evaluated<'s>, NoMemory>
        requires added { HasAdded flat cfg.now (map.entries flat) self }
        requires named { AllNameAs (map.entries flat) named.items }
        ensures tokens { IfOk result (λ tree. tree.tokens ≡ flat.entry) }
        ensures cells { IfOk result (λ tree.
            AreCells flat.entry cfg.now (map.entries flat.entry) tree.cells) }
    {
        let Growing {
            bench: _,
            pages,
            rows,
        } = self;
        let cells = Cells::new(pages, rows)?;
        Ok(Evaluated::new(flat, cells, named))
    }
}

/// Adds all tokens of the flat tree, in path order, of which this is kept, to files with this room. Each is one step.
pub(crate) fn grown<'s, N: Ledger>(
    alloc: Global,
    flat: &Flat<'s>,
    cfg: &Config,
    kepts: &[Option<Kept<'_, 's>>],
    room: Room,
    evals: &mut Steps<N>,
) -> Result<Growing<'s>, NoMemory>
    requires { AreKept flat.now cfg.now kepts.now }
    ensures added { IfOk result (HasAdded flat.now cfg.now (map.entries flat.now)) }
    ensures steps { OnOk result (evals.new ≡ evals.old + length (map.entries flat.now)) }
    ensures at_most { evals.new ≤ evals.old + length (map.entries flat.now) }
{
    let mut growing = Growing::new(alloc, flat.len(), room)?;
    growing.add_all(alloc, flat, cfg, kepts, evals)?;
    Ok(growing)
}

/// The same, where this is kept of each token. Each of which nothing is kept is one step.
pub(crate) fn grown_since<'s, N: Ledger>(
    alloc: Global,
    flat: &Flat<'s>,
    cfg: &Config,
    kepts: &[Option<Kept<'_, 's>>],
    room: Room,
    evals: &mut Steps<N>,
) -> Result<Growing<'s>, NoMemory>
    requires kept { AreKept flat.now cfg.now kepts.now }
    requires long { length kepts.now ≡ length (map.entries flat.now) }
    ensures added { IfOk result (HasAdded flat.now cfg.now (map.entries flat.now)) }
    ensures steps { OnOk result (evals.new ≡ evals.old + count_by is_none kepts.now) }
    ensures at_most { evals.new ≤ evals.old + count_by is_none kepts.now }
{
    let mut growing = Growing::new(alloc, flat.len(), room)?;
    growing.add_all_since(alloc, flat, cfg, kepts, evals)?;
    Ok(growing)
}
