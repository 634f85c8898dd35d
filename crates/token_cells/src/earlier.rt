//! Tokens that come to what they came to in an earlier tree.

ghost use Rattle.std.specs.Prelude.{◌≡◌, All, Some, None, IfOk, IfSome, OnOk, OnErr, length, map as each};
ghost use Rattle.std.specs.FinMap as map;
ghost use Rattle.std.specs.List.{AllZip};
ghost use Rattle.std.specs.Option.{is_none};
ghost use Rattle.transforms.specs.Config.{Settings};
ghost use Rattle.tree_changes.specs.Standing.{KeepsAt};
ghost use Rattle.token_cells.specs.Cell.{AreCells};
ghost use Rattle.token_cells.specs.inner.Earlier.{AreKept, IsKept, IsKeptOf, IsWithin};
ghost use Rattle.token_cells.specs.inner.Kept.{texts_of};

use crate::evaluated::Evaluated;
use crate::keeping::Kept;
use crate::laws::unreached_cells;
use crate::pages::Pages;
use crate::row::Row;
use group_inherit::Flat;
use std::alloc::Global;
use std::marker::Model;
use tk_io::NoMemory;
use transforms::Config;
use tree_changes::{Named, definitions_stand, kept_places};

/// A tree that was evaluated, and the configuration under which it was.
#[derive(Debug, Drop)]
struct Known<'s> {
    config: Config,
    tree: Evaluated<'s>,
}

impl<'s> Model for Known<'s> {
    ghost use Rattle.std.specs.Coded.{codes};
    ghost use Rattle.token_cells.specs.Evaluated.{KnownTree, coded_flat};
    ghost use Rattle.token_cells.specs.inner.Earlier.{IsKnown};

    ghost Value = { KnownTree };

    ghost coded = { Prim.hlevel (codes, coded_flat) };

    ghost view = { λ k. record { settings = k.config; tree = k.tree } };

    ghost invariant = { λ k. IsKnown (record { settings = k.config; tree = k.tree }) };
}

/// What the tokens of an earlier tree came to, so that those which come to the same are neither evaluated nor spelled again;
/// seen as the tree, where one is kept. It changes no answer.
#[derive(Debug, Drop)]
pub struct Earlier<'s> {
    known: Option<Known<'s>>,
}

impl<'s> Model for Earlier<'s> {
    ghost use Rattle.std.specs.Prelude.{Option};
    ghost use Rattle.std.specs.Coded.{codes};
    ghost use Rattle.token_cells.specs.Evaluated.{KnownTree, coded_flat};

    ghost Value = { Option KnownTree };

    ghost coded = { Prim.hlevel (codes, coded_flat) };

    ghost view = { λ e. e.known };
}

// The row of a token that keeps this place.
fn kept_at<'a, 's>(
    rows: &'a [Row<'s>],
    pages: &'a Pages,
    place: Option<usize>,
) -> Option<Kept<'a, 's>>
    requires { IsWithin (length rows.now) place }
    ensures kept { IsKeptOf (texts_of pages.now) rows.now place result }
    ensures none { is_none result ≡ is_none place }
{
    let Some(i) = place else {
        return None;
    };
    Some(Kept {
        row: &rows[i],
        pages,
    })
}

// The rows of tokens that keep these places.
fn kept_rows<'a, 's>(
    alloc: Global,
    rows: &'a [Row<'s>],
    pages: &'a Pages,
    places: &[Option<usize>],
) -> Result<Vec<Option<Kept<'a, 's>>>, NoMemory>
    requires { All (IsWithin (length rows.now)) places.now }
    ensures kept { IfOk result (λ kepts.
        AllZip (IsKeptOf (texts_of pages.now) rows.now) places.now kepts.items) }
    ensures none { IfOk result (λ kepts. each is_none kepts.items ≡ each is_none places.now) }
{
    let mut kepts = Vec::with_capacity(alloc, places.len())?;
    for place in places {
        kepts.push(kept_at(rows, pages, *place))?;
    }
    Ok(kepts)
}

/// What those tokens of the flat tree come to which keep these places in an earlier one; nothing of those that keep none.
pub(crate) fn rows_at<'a, 's>(
    alloc: Global,
    tree: &'a Evaluated<'s>,
    flat: &Flat<'s>,
    places: &[Option<usize>],
) -> Result<Vec<Option<Kept<'a, 's>>>, NoMemory>
    requires cells { (settings : Settings)
        × AreCells tree.now.tokens settings (map.entries tree.now.tokens) tree.now.cells }
    requires places { AllZip (KeepsAt tree.now.tokens flat.now) (map.entries flat.now) places.now }
    ensures kept { IfOk result (λ rows. (settings : Settings)
        → AreCells tree.now.tokens settings (map.entries tree.now.tokens) tree.now.cells
        → AreKept flat.now settings rows.items) }
    ensures none { IfOk result (λ rows. each is_none rows.items ≡ each is_none places.now) }
{
    unreached_cells();
    definitions_stand(tree.tokens());
    definitions_stand(flat);
    let (rows, pages) = tree.cells().parts();
    kept_rows(alloc, rows, pages, places)
}

/// What is kept for the tokens of a flat tree, at their places, where something is, and what is known of the names of
/// each.
#[derive(Drop)]
pub(crate) struct KeptRows<'a, 's> {
    pub(crate) rows: Vec<Option<Kept<'a, 's>>>,
    pub(crate) named: Vec<Named>,
}

/// What those tokens of the flat tree come to, at their places, which come to what they came to in an earlier one.
pub(crate) fn kept_in<'a, 's>(
    alloc: Global,
    tree: &'a Evaluated<'s>,
    flat: &Flat<'s>,
) -> Result<KeptRows<'a, 's>, NoMemory>
    requires { (settings : Settings)
        × AreCells tree.now.tokens settings (map.entries tree.now.tokens) tree.now.cells }
    ensures { IfOk result (λ kept. (settings : Settings)
        → AreCells tree.now.tokens settings (map.entries tree.now.tokens) tree.now.cells
        → IsKept flat.now settings kept) }
{
    let (places, named) = kept_places(alloc, tree.tokens(), tree.named(), flat)?;
    let rows = rows_at(alloc, tree, flat, places.as_slice())?;
    Ok(KeptRows { rows, named })
}

impl<'s> Known<'s> {
    // What those tokens of the flat tree come to, at their places, which come to what they came to in the tree.
    fn kept(&self, alloc: Global, flat: &Flat<'s>) -> Result<KeptRows<'_, 's>, NoMemory>
        ensures { IfOk result (IsKept flat.now self.now.settings) }
    {
        kept_in(alloc, &self.tree, flat)
    }
}

impl<'s> Earlier<'s> {
    /// Nothing was evaluated.
    pub fn new() -> Earlier<'s>
        ensures { result ≡ None }
    {
        Earlier { known: None }
    }

    /// Keeps a tree that was evaluated under the configuration, in place of the one before. Where memory runs out nothing
    /// is kept.
    pub fn keep(
        &mut self,
        alloc: Global,
        config: &Config,
        tree: Evaluated<'s>,
    ) -> Result<(), NoMemory>
        requires { AreCells tree.tokens config.now (map.entries tree.tokens) tree.cells }
        ensures ok { OnOk result (self.new
            ≡ Some (record { settings = config.now; tree = tree.entry })) }
        ensures err { OnErr result (self.new ≡ None) }
    {
        self.known = None;
        match config.copy(alloc) {
            Ok(config) => {
                self.known = Some(Known { config, tree });
                Ok(())
            }
            Err(NoMemory) => Err(NoMemory),
        }
    }

    // The tree, where it was evaluated under this configuration.
    fn under(&self, config: &Config) -> Option<&Known<'s>>
        ensures { IfSome result (λ known. known.now.settings ≡ config.now) }
    {
        let Some(known) = &self.known else {
            return None;
        };
        if known.config.is_same(config) {
            Some(known)
        } else {
            None
        }
    }

    /// What those tokens of the flat tree come to under the configuration, at their places, which come to what they came
    /// to in the tree. It may be less than all places.
    pub(crate) fn kept(
        &self,
        alloc: Global,
        config: &Config,
        flat: &Flat<'s>,
    ) -> Result<KeptRows<'_, 's>, NoMemory>
        ensures { IfOk result (IsKept flat.now config.now) }
    {
        match self.under(config) {
            Some(known) => known.kept(alloc, flat),
            None => Ok(KeptRows {
                rows: Vec::new(alloc),
                named: Vec::new(alloc),
            }),
        }
    }
}
