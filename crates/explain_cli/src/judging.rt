//! Which permutation has a name, and whether it is accepted.

ghost use Rattle.std.specs.Prelude.{◌≡◌, ◌<◌, Ok, IfOk, IfErr};
ghost use Rattle.std.specs.FinMap as map;
ghost use Rattle.token_cells.specs.Cell.{AreCells};
ghost use Rattle.transforms.specs.Config.{Settings};
ghost use Rattle.build_plain.specs.OneTree.{ComesTo, IsStop, has_tree};
ghost use Rattle.build_plain.specs.Out.{settings_of};
ghost use Rattle.explain_cli.specs.inner.Judging.{AreShort, IsFit, IsJudged, IsWeighed};

use crate::answer::Refusal;
use build_plain::{
    Earlier, FlatStop, config_of, flat_of, permutation_names, printed_spans, resolver_is_utf8,
};
use file_plan::Files;
use group_inherit::Flat;
use source_trees::merged_tokens;
use std::alloc::Global;
use std::marker::Brand;
use std::sync::ledger::{Blank, Ledger};
use tk_io::{NoMemory, Steps, Text};
use token_cells::{Evaluated, cells_of, verdict_text};
use transforms::{Config, ConfigFault};

// The counters are made here: a call that picks a ledger has no text of its own in its signature.
fn flat_counted<'s, L: Ledger, M: Ledger>(
    alloc: Global,
    files: &Files<'s>,
    name: &Text<'_>,
    parses: Blank,
    merges: Blank,
) -> Result<Flat<'s>, FlatStop>
    requires parses { (parses.name ≡ L.name) × (parses.parts ≡ L.parts) × (0 < L.parts) }
    requires merges { (merges.name ≡ M.name) × (merges.parts ≡ M.parts) × (0 < M.parts) }
    ensures ok { IfOk result (λ flat. ComesTo files.now name.now (has_tree flat)) }
    ensures stop { IfErr result (IsStop (ComesTo files.now name.now)) }
{
    let mut parses: Steps<L> = Steps::new(parses);
    let mut merges: Steps<M> = Steps::new(merges);
    flat_of(alloc, files, name.as_str(), &mut parses, &mut merges)
}

// The flat tree of the permutation of the name.
fn flat_named<'s>(alloc: Global, files: &Files<'s>, name: &Text<'_>) -> Result<Flat<'s>, FlatStop>
    ensures ok { IfOk result (λ flat. ComesTo files.now name.now (has_tree flat)) }
    ensures stop { IfErr result (IsStop (ComesTo files.now name.now)) }
{
    flat_counted::<Brand, Brand>(alloc, files, name, Blank::new(1), Blank::new(1))
}

// What the tokens of a flat tree come to, with a counter of its own.
fn cells_counted<'s, N: Ledger>(
    alloc: Global,
    flat: Flat<'s>,
    cfg: &Config,
    evals: Blank,
) -> Result<Evaluated<'s>, NoMemory>
    requires evals { (evals.name ≡ N.name) × (evals.parts ≡ N.parts) × (0 < N.parts) }
    ensures tokens { IfOk result (λ tree. tree.tokens ≡ flat.entry) }
    ensures ok { IfOk result (λ tree.
        AreCells flat.entry cfg.now (map.entries flat.entry) tree.cells) }
{
    let earlier = Earlier::new();
    let mut evals: Steps<N> = Steps::new(evals);
    cells_of(alloc, flat, cfg, &earlier, &mut evals)
}

// What the tokens of a flat tree come to.
fn evaluated<'s>(alloc: Global, flat: Flat<'s>, cfg: &Config) -> Result<Evaluated<'s>, NoMemory>
    ensures tokens { IfOk result (λ tree. tree.tokens ≡ flat.entry) }
    ensures ok { IfOk result (λ tree.
        AreCells flat.entry cfg.now (map.entries flat.entry) tree.cells) }
{
    cells_counted::<Brand>(alloc, flat, cfg, Blank::new(1))
}

// The flat tree, where no token of it breaks a rule, and no two have one name.
fn weighed_under<'s>(
    alloc: Global,
    files: &Files<'s>,
    cfg: &Config,
    flat: Flat<'s>,
) -> Result<Option<Flat<'s>>, NoMemory>
    ensures { IfOk result (IsWeighed cfg.now flat.entry) }
{
    let tree = evaluated(alloc, flat, cfg)?;
    if verdict_text(alloc, files, tree.tokens(), tree.cells())?.is_some() {
        return Ok(None);
    }
    let (flat, _) = tree.into_parts();
    Ok(Some(flat))
}

// .. under the configuration of the files.
fn weighed<'s>(
    alloc: Global,
    files: &Files<'s>,
    flat: Flat<'s>,
) -> Result<Option<Flat<'s>>, NoMemory>
    requires { (settings : Settings) × (settings_of files.now ≡ Ok settings) }
    ensures { (settings : Settings) → settings_of files.now ≡ Ok settings
        → IfOk result (IsWeighed settings flat.entry) }
{
    match config_of(alloc, files) {
        Ok(cfg) => weighed_under(alloc, files, &cfg, flat),
        Err(ConfigFault::NoMemory) => Err(NoMemory),
        Err(_) => unreachable!(),
    }
}

/// The flat tree of the permutation of the name, where it breaks no rule, or why there is none.
pub(crate) fn judged<'s>(
    alloc: Global,
    files: &Files<'s>,
    name: &Text<'_>,
) -> Result<Result<Flat<'s>, Refusal>, NoMemory>
    ensures judged { IfOk result (IsJudged files.now name.now) }
    ensures fit { AreShort files.now → IfOk result (λ j. IfOk j (IsFit name.now)) }
{
    permutation_names();
    merged_tokens();
    printed_spans();
    resolver_is_utf8(files);
    match flat_named(alloc, files, name) {
        Ok(flat) => match weighed(alloc, files, flat)? {
            Some(flat) => Ok(Ok(flat)),
            None => Ok(Err(Refusal::Refused)),
        },
        Err(FlatStop::NoPlan) => Ok(Err(Refusal::Refused)),
        Err(FlatStop::NoName) => Ok(Err(Refusal::NoPermutation)),
        Err(FlatStop::NoFlat) => Ok(Err(Refusal::Refused)),
        Err(FlatStop::NoMemory) => Err(NoMemory),
    }
}
