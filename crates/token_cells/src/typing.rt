//! Values that were typed, which aliases of a token share.

ghost use Rattle.std.specs.Prelude.{◌≡◌, [], Ok, IfErr, IfOk, IfSome};
ghost use Rattle.json_span.specs.PlainView.{plain_view};
ghost use Rattle.alias_ref.specs.Answer.{IsResolved, MeansAsAt};
ghost use Rattle.alias_ref.specs.Laws.{Flat as FlatTree};
ghost use Rattle.type_rules.specs.Answer.{IsBreak};
ghost use Rattle.composite_rules.specs.Value.{value_of};
ghost use Rattle.token_cells.specs.inner.Typing.{AreStill, AreTyped, IsKeptTyped, IsTypedAt};

use crate::drafts::Drafts;
use alias_ref::{Resolved, one_meaning};
use composite_rules::{Typed, check};
use name_path::{Kind, Path};
use std::alloc::Global;
use std::rc::Rc;
use tk_io::NoMemory;
use transforms::Config;
use type_rules::ValueFault;

/// A value under a kind.
#[derive(Drop)]
pub(crate) struct TypedValue<'s> {
    pub(crate) kind: Kind,
    pub(crate) typed: Rc<Typed<'s>>,
}

/// Of tokens at which aliases end, their values as they were typed under one configuration, by their places in path order.
#[derive(Drop)]
pub(crate) struct TypedValues<'s> {
    known: Vec<Option<TypedValue<'s>>>,
}

impl<'s> TypedValues<'s> {
    /// No value.
    pub(crate) fn new(alloc: Global) -> TypedValues<'s>
        ensures { result.known.items ≡ [] }
    {
        TypedValues {
            known: Vec::new(alloc),
        }
    }

    /// The value of the token at the place under the kind, where it is known.
    fn at(&self, i: usize, kind: Kind) -> Result<Option<Rc<Typed<'s>>>, NoMemory>
        ensures { IfOk result (λ o. IfSome o (λ t.
            IsTypedAt self.now.known.items i kind t.value)) }
    {
        let Some(Some(value)) = self.known.get(i) else {
            return Ok(None);
        };
        if value.kind != kind {
            return Ok(None);
        }
        let typed = value.typed.clone()?;
        Ok(Some(typed))
    }

    // There is room for a value at the place.
    fn reach(&mut self, i: usize) -> Result<(), NoMemory>
        ensures { AreStill self.old.known.items self.new.known.items }
    {
        while self.known.len() <= i {
            self.known.push(None)?;
        }
        Ok(())
    }

    // Puts the value of the token at the place under the kind, in place of another.
    fn put(&mut self, i: usize, kind: Kind, typed: Rc<Typed<'s>>) -> Result<(), NoMemory>
        ensures { IsKeptTyped self.old.known.items self.new.known.items i kind typed.entry.value }
    {
        self.reach(i)?;
        if i < self.known.len() {
            self.known[i] = Some(TypedValue { kind, typed });
        }
        Ok(())
    }

    /// Keeps the value of the token at the place under the kind, and hands it back.
    fn keep(
        &mut self,
        alloc: Global,
        i: usize,
        kind: Kind,
        typed: Typed<'s>,
    ) -> Result<Rc<Typed<'s>>, NoMemory>
        ensures typed { IfOk result (λ t. t.value ≡ typed.entry) }
        ensures kept { IsKeptTyped self.old.known.items self.new.known.items i kind typed.entry }
    {
        let typed = Rc::new(alloc, typed)?;
        self.put(i, kind, typed.clone()?)?;
        Ok(typed)
    }
}

/// The value of a token under its kind, or its first broken part. The token means what the one at the place means, so that the
/// value may be known; else it is from here on.
pub(crate) fn typed_value<'s>(
    alloc: Global,
    values: &mut TypedValues<'s>,
    path: &Path<'s>,
    resolved: &Resolved<'s>,
    place: usize,
    cfg: &Config,
) -> Result<Rc<Typed<'s>>, ValueFault<'s>>
    requires { (flat : FlatTree) × IsResolved flat path.now resolved.now
        × MeansAsAt flat path.now place × AreTyped flat cfg.now values.old.known.items }
    ensures typed { IfOk result (λ t. value_of cfg.now.legacy resolved.now.kind
        (plain_view resolved.now.plain.value) ≡ Ok t.value) }
    ensures broken { IfErr result (IsBreak (value_of cfg.now.legacy resolved.now.kind
        (plain_view resolved.now.plain.value))) }
    ensures known { (flat : FlatTree) → IsResolved flat path.now resolved.now
        → MeansAsAt flat path.now place → AreTyped flat cfg.now values.old.known.items
        → AreTyped flat cfg.now values.new.known.items }
{
    one_meaning();
    if let Some(typed) = values.at(place, resolved.kind)? {
        return Ok(typed);
    }
    let typed = check(alloc, resolved.kind, &resolved.plain, cfg.legacy)?;
    let kept = values.keep(alloc, place, resolved.kind, typed)?;
    Ok(kept)
}

/// What the rows of tokens are made with, one after another.
#[derive(Drop)]
pub(crate) struct Workbench<'s> {
    pub(crate) drafts: Drafts,
    pub(crate) values: TypedValues<'s>,
}

impl<'s> Workbench<'s> {
    /// Buffers with nothing in them, and no value.
    pub(crate) fn new(alloc: Global) -> Workbench<'s>
        ensures { result.values.known.items ≡ [] }
    {
        Workbench {
            drafts: Drafts::new(alloc),
            values: TypedValues::new(alloc),
        }
    }
}
