//! The evaluator of a flat tree.

ghost use Rattle.std.specs.Prelude.{◌≡◌, ◌+◌, Some, IfOk, IfErr, IfSome};
ghost use Rattle.std.specs.FinMap as map;
ghost use Rattle.std.specs.List.{slice_get};
ghost use Rattle.group_inherit.specs.Flattening.{TokenAt};
ghost use Rattle.alias_ref.specs.Answer.{IsResolved, IsRefBreak, HasRealRing, MeansAsAt};
ghost use Rattle.alias_ref.specs.Laws.{Flat as FlatTree};
ghost use Rattle.alias_ref.specs.Written.{written_in};
ghost use Rattle.alias_ref.specs.inner.Remembering.{Remembers};
ghost use Rattle.alias_ref.specs.inner.Chains.{AreAliases};

use crate::aliases::Aliases;
use crate::chain::follow_aliases;
use crate::fault::RefFault;
use crate::memory::Memory;
use crate::remembering::{FARTHEST, prepare};
use crate::resolved::{Resolved, resolve, resolve_literal};
use group_inherit::{Entry, Flat};
use name_path::Path;
use std::alloc::Global;
use std::fmt;
use std::marker::Model;
use std::sync::ledger::Ledger;
use tk_io::{NoMemory, Steps};

/// An evaluator of the tokens of a flat tree, which remembers what those come to that others name, so that none is walked
/// again where it is named. It is seen as the tree. What it remembers changes no answer.
#[derive(Drop)]
pub struct Evaluator<'a, 's> {
    flat: &'a Flat<'s>,
    memory: Memory<'s>,
    aliases: Aliases,
}

impl<'a, 's> Model for Evaluator<'a, 's> {
    ghost use Rattle.std.specs.FinMap as map;
    ghost use Rattle.std.specs.Coded.{coded_list, coded_ℕ};
    ghost use Rattle.tk_io.specs.Order.{names_cmp};
    ghost use Rattle.group_inherit.specs.Codes.{coded_flattened};
    ghost use Rattle.group_inherit.specs.Flattening.{Flattened};
    ghost use Rattle.alias_ref.specs.inner.Remembering.{Remembers};
    ghost use Rattle.alias_ref.specs.inner.Chains.{AreAliases};

    ghost Value = { map.FinMap names_cmp Flattened };

    ghost coded = { map.code (coded_list (coded_list coded_ℕ)) coded_flattened };

    ghost view = { λ e. e.flat.now };

    ghost invariant = { λ e. Remembers e.flat.now e.memory.known.items × AreAliases e.flat.now e.aliases.targets.items };
}

impl<'a, 's> fmt::Debug for Evaluator<'a, 's> {
    fn fmt<W: fmt::Write>(&self, f: &mut fmt::Formatter<W>) -> fmt::Result {
        f.write_str("Evaluator")
    }
}

/// What the token of a place comes to where nothing has to be walked: it is remembered, or its value is a literal.
fn at_hand<'s>(
    alloc: Global,
    memory: &Memory<'s>,
    i: usize,
    token: &(Path<'s>, Entry<'s>),
) -> Result<Option<Resolved<'s>>, NoMemory>
    ensures { (flat : FlatTree) → slice_get (map.entries flat) i ≡ Some token.now
        → Remembers flat memory.now.known.items
        → IfOk result (λ o. IfSome o (IsResolved flat token.now.0)) }
{
    if let Some(known) = memory.at(i) {
        let resolved = known.resolved.share(alloc)?;
        return Ok(Some(resolved));
    }
    let mut visits = 0;
    resolve_literal(alloc, &token.1, &mut visits)
}

/// What the token of a place comes to, which may be remembered. A chain of aliases that breaks a rule is told at once.
fn answer<'s>(
    alloc: Global,
    flat: &Flat<'s>,
    memory: &Memory<'s>,
    aliases: &mut Aliases,
    i: usize,
    token: &(Path<'s>, Entry<'s>),
) -> Result<Resolved<'s>, RefFault<'s>>
    requires token { slice_get (map.entries flat.now) i ≡ Some token.now }
    requires right { Remembers flat.now memory.now.known.items }
    requires aliases { AreAliases flat.now aliases.old.targets.items }
    ensures targets { aliases.new.targets ≡ aliases.old.targets }
    ensures resolved { IfOk result (IsResolved flat.now token.now.0) }
    ensures broken { IfErr result (λ e. IsRefBreak flat.now token.now.0 e) }
    ensures ring { IfErr result (λ e. HasRealRing (written_in flat.now) e) }
{
    if let Some(known) = memory.at(i) {
        let resolved = known.resolved.share(alloc)?;
        return Ok(resolved);
    }
    follow_aliases(alloc, flat, aliases, i)?;
    let mut visits = 0;
    resolve(alloc, flat, memory, &token.0, &token.1, &mut visits)
}

impl<'a, 's> Evaluator<'a, 's> {
    /// An evaluator of the tree, which remembers nothing yet.
    pub fn new(alloc: Global, flat: &'a Flat<'s>) -> Result<Evaluator<'a, 's>, NoMemory>
        ensures { IfOk result (λ e. e ≡ flat.entry.now) }
    {
        let memory = Memory::with_places(alloc, flat.len())?;
        let aliases = Aliases::with_places(alloc, flat.len())?;
        Ok(Evaluator {
            flat,
            memory,
            aliases,
        })
    }

    /// The place of a token that means what the i-th means: the one at which the aliases end that lead on from it. None where
    /// it is not known to be an alias; one that was evaluated is.
    pub fn end_of(&self, i: usize) -> Option<usize>
        ensures { (token : TokenAt) → slice_get (map.entries self.now) i ≡ Some token
            → IfSome result (MeansAsAt self.now token.0) }
    {
        match self.aliases.target(i) {
            Some(_) => Some(self.aliases.end_of(i, FARTHEST)),
            None => None,
        }
    }

    /// What the i-th token of the tree comes to, as [`evaluate`](crate::evaluate). One step of `evals`, whatever it answers.
    ///
    /// # Errors
    /// Those of [`evaluate`](crate::evaluate).
    pub fn evaluate<N: Ledger>(
        &mut self,
        alloc: Global,
        i: usize,
        token: &(Path<'s>, Entry<'s>),
        evals: &mut Steps<N>,
    ) -> Result<Resolved<'s>, RefFault<'s>>
        requires token { slice_get (map.entries self.old) i ≡ Some token.now }
        ensures tree { self.new ≡ self.old }
        ensures step { evals.new ≡ evals.old + 1 }
        ensures resolved { IfOk result (IsResolved self.old token.now.0) }
        ensures broken { IfErr result (λ e. IsRefBreak self.old token.now.0 e) }
        ensures ring { IfErr result (λ e. HasRealRing (written_in self.old) e) }
    {
        evals.tick();
        let flat = self.flat;
        if let Some(resolved) = at_hand(alloc, &self.memory, i, token)? {
            return Ok(resolved);
        }
        // No token is looked at twice: others are prepared from where the aliases that are known from it end.
        let from = self.aliases.end_of(i, FARTHEST);
        prepare(
            alloc,
            flat,
            &mut self.memory,
            &mut self.aliases,
            from,
            FARTHEST,
        )?;
        answer(alloc, flat, &self.memory, &mut self.aliases, i, token)
    }
}
