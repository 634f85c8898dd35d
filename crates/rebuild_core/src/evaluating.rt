//! What the tokens of a permutation come to, with what they came to before.

ghost use Rattle.std.specs.Prelude.{◌≡◌, ◌+◌, ◌≤◌, ℕ, IfOk, IfSome, OnOk, cond, length};
ghost use Rattle.std.specs.FinMap as map;
ghost use Rattle.std.specs.List.{count_by};
ghost use Rattle.std.specs.Option.{is_none, option_map};
ghost use Rattle.rebuild_core.specs.inner.Evaluating.{AreCellsOf, AreReached};

use group_inherit::Flat;
use std::alloc::Global;
use std::sync::ledger::Ledger;
use tk_io::{NoMemory, Steps};
use token_cells::{Earlier, Evaluated, cells_beside, cells_of, cells_since};
use transforms::Config;
use tree_changes::kept_places;

/// A tree whose tokens are evaluated, and how many of them were.
#[derive(Drop)]
pub(crate) struct Counted<'s> {
    pub(crate) tree: Evaluated<'s>,
    pub(crate) evaluated: usize,
}

// 1 where there is no place, and else 0.
fn one_if_none(place: Option<usize>) -> usize
    ensures value { result ≡ cond (is_none place) 1 0 }
    ensures few { result ≤ 1 }
{
    match place {
        Some(_) => 0,
        None => 1,
    }
}

// How many keep no place.
fn places_left(places: &[Option<usize>]) -> usize
    ensures { result ≡ count_by is_none places.now }
{
    let mut left = 0;
    for place in places {
        left += one_if_none(*place);
    }
    left
}

// All tokens of the flat tree are evaluated.
fn all_cells<'s, N: Ledger>(
    alloc: Global,
    flat: Flat<'s>,
    cfg: &Config,
    evals: &mut Steps<N>,
) -> Result<Evaluated<'s>, NoMemory>
    ensures tokens { IfOk result (λ tree. tree.tokens ≡ flat.entry) }
    ensures cells { IfOk result (λ tree. AreCellsOf cfg.now tree) }
    ensures steps { OnOk result (evals.new ≡ evals.old + length (map.entries flat.entry)) }
    ensures at_most { evals.new ≤ evals.old + length (map.entries flat.entry) }
{
    let earlier = Earlier::new();
    cells_of(alloc, flat, cfg, &earlier, evals)
}

/// All tokens of the flat tree are evaluated, but for what another tree shares with it under the same configuration.
pub(crate) fn evaluated_anew<'s, N: Ledger>(
    alloc: Global,
    flat: Flat<'s>,
    cfg: &Config,
    last: Option<&Evaluated<'s>>,
    evals: &mut Steps<N>,
) -> Result<Counted<'s>, NoMemory>
    requires { IfSome last (λ tree. AreCellsOf cfg.now tree.now) }
    ensures tokens { IfOk result (λ r. r.tree.tokens ≡ flat.entry) }
    ensures cells { IfOk result (λ r. AreCellsOf cfg.now r.tree) }
    ensures count { IfOk result (λ r. r.evaluated ≡ length (map.entries flat.entry)) }
    ensures steps { IfOk result (λ r. evals.new ≡ evals.old + r.evaluated) }
    ensures at_most { evals.new ≤ evals.old + length (map.entries flat.entry) }
{
    let tokens = flat.as_slice();
    let evaluated = tokens.len();
    match last {
        Some(other) => {
            let tree = cells_beside(alloc, flat, cfg, other, evals)?;
            Ok(Counted { tree, evaluated })
        }
        None => {
            let tree = all_cells(alloc, flat, cfg, evals)?;
            Ok(Counted { tree, evaluated })
        }
    }
}

// The tokens of the flat tree that a change since the earlier tree reaches are evaluated.
fn evaluated_since<'s, N: Ledger>(
    alloc: Global,
    flat: Flat<'s>,
    cfg: &Config,
    old: &Evaluated<'s>,
    evals: &mut Steps<N>,
) -> Result<Counted<'s>, NoMemory>
    requires { AreCellsOf cfg.now old.now }
    ensures tokens { IfOk result (λ r. r.tree.tokens ≡ flat.entry) }
    ensures cells { IfOk result (λ r. AreCellsOf cfg.now r.tree) }
    ensures count { IfOk result (λ r. AreReached (Some old.now.tokens) flat.entry r.evaluated) }
    ensures steps { IfOk result (λ r. evals.new ≡ evals.old + r.evaluated) }
    ensures at_most { (n : ℕ) → AreReached (Some old.now.tokens) flat.entry n
        → evals.new ≤ evals.old + n }
{
    let (places, named) = kept_places(alloc, old.tokens(), old.named(), &flat)?;
    let evaluated = places_left(places.as_slice());
    let tree = cells_since(alloc, flat, cfg, old, places.as_slice(), named, evals)?;
    Ok(Counted { tree, evaluated })
}

/// The tokens of the flat tree that a change since the earlier tree reaches are evaluated; all of them where there is no
/// earlier tree.
pub(crate) fn evaluated_tree<'s, N: Ledger>(
    alloc: Global,
    flat: Flat<'s>,
    cfg: &Config,
    old: Option<&Evaluated<'s>>,
    last: Option<&Evaluated<'s>>,
    evals: &mut Steps<N>,
) -> Result<Counted<'s>, NoMemory>
    requires old { IfSome old (λ tree. AreCellsOf cfg.now tree.now) }
    requires last { IfSome last (λ tree. AreCellsOf cfg.now tree.now) }
    ensures tokens { IfOk result (λ r. r.tree.tokens ≡ flat.entry) }
    ensures cells { IfOk result (λ r. AreCellsOf cfg.now r.tree) }
    ensures count { IfOk result (λ r.
        AreReached (option_map (λ tree. tree.now.tokens) old.entry) flat.entry r.evaluated) }
    ensures steps { IfOk result (λ r. evals.new ≡ evals.old + r.evaluated) }
    ensures at_most { (n : ℕ)
        → AreReached (option_map (λ tree. tree.now.tokens) old.entry) flat.entry n
        → evals.new ≤ evals.old + n }
{
    match old {
        Some(old) => evaluated_since(alloc, flat, cfg, old, evals),
        None => evaluated_anew(alloc, flat, cfg, last, evals),
    }
}
