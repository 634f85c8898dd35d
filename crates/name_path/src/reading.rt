//! Readers of references.

ghost use Rattle.std.specs.Prelude.{◌≡◌, ◌≢◌, [], ℕ, ◌==◌, ◌<◌, List, All, IfOk, IfSome};
ghost use Rattle.std.specs.Prelude.{IfNone, IsErrOf, map};
ghost use Rattle.name_path.specs.Names.{AreNames};
ghost use Rattle.name_path.specs.Reference.{escaped_step, pointer_text, curly_text, SpellsPath};
ghost use Rattle.name_path.specs.Reference.{SpellsPlace, SpellsGroup};
ghost use Rattle.name_path.specs.inner.Pieces.{ArePlain, EachLacks, IsValueCut};
ghost use Rattle.name_path.specs.declared.place.Place.{Place};
ghost use Rattle.name_path.specs.declared.reading.RefStop.TheVariants.{NoMemory as OutOfMemory};

use crate::escapes::unescaped;
use crate::path::copied;
use crate::pieces::around;
use crate::trail::copied as steps_copied;
use crate::{Path, Place, Trail};
use std::alloc::Global;
use tk_io::{NoMemory, Text};

/// Why a text gives no reference.
#[derive(Clone, Copy, Debug, PartialEq, Eq)]
pub enum RefStop {
    /// The text spells none.
    BadRef,
    /// Memory ran out.
    NoMemory,
}

impl From<NoMemory> for RefStop {
    ghost from_gives = { λ _ e. e ≡ OutOfMemory };

    fn from(_: NoMemory) -> RefStop {
        RefStop::NoMemory
    }
}

/// The texts between the points inside the braces, whether they are names or not; none where there are no braces.
fn curly_names<'s>(alloc: Global, text: &Text<'s>) -> Result<Option<Path<'s>>, NoMemory>
    ensures some { IfOk result
        (λ found. IfSome found (λ path. (path ≢ []) × (text.now ≡ curly_text path))) }
    ensures one { IfOk result
        (λ found. IfSome found
        (λ path. (other : List (List ℕ)) → ArePlain other → text.now ≡ curly_text other
        → other ≡ path)) }
    ensures none { IfOk result
        (λ found. IfNone found ((path : List (List ℕ)) → text.now ≢ curly_text path)) }
{
    let Some(inside) = text.inside(alloc, '{', '}')? else {
        return Ok(None);
    };
    let names = inside.split(alloc, '.')?;
    let path = copied(alloc, names.as_slice())?;
    Ok(Some(path))
}

/// Reads a curly alias, as `{a.b}`. It is `BadRef` exactly where the text spells no path of a token in braces.
pub fn read_curly<'s>(alloc: Global, text: &Text<'s>) -> Result<Path<'s>, RefStop>
    ensures path { IfOk result (λ path. SpellsPath text.now path) }
    ensures bad { IsErrOf result RefStop.BadRef → (path : List (List ℕ))
        → ¬ SpellsPath text.now path }
{
    let Some(path) = curly_names(alloc, text)? else {
        return Err(RefStop::BadRef);
    };
    if !path.is_token_path() {
        return Err(RefStop::BadRef);
    }
    Ok(path)
}

/// The step that a segment without `/` spells. One without `~` spells itself.
fn step_of<'s>(alloc: Global, segment: &Text<'s>) -> Result<Text<'s>, RefStop>
    requires { All (λ b. b ≢ 47) segment.now }
    ensures step { IfOk result (λ step. segment.now ≡ escaped_step step) }
    ensures bad { IsErrOf result RefStop.BadRef
        → (step : List ℕ) → segment.now ≢ escaped_step step }
{
    match around(segment.as_str(), '~') {
        None => Ok(segment.copy()?),
        Some(_) => {
            let step = unescaped(alloc, segment.as_str())?;
            Ok(Text::from_string(step)?)
        }
    }
}

/// The steps that the segments spell.
fn decoded<'s>(alloc: Global, segments: &[Text<'s>]) -> Result<Trail<'s>, RefStop>
    requires { EachLacks 47 segments.now }
    ensures steps { IfOk result (λ steps. segments.now ≡ map escaped_step steps) }
    ensures bad { IsErrOf result RefStop.BadRef → (steps : List (List ℕ))
        → segments.now ≢ map escaped_step steps }
{
    let mut steps = Trail::new(alloc);
    for segment in segments {
        steps.push(step_of(alloc, segment)?)?;
    }
    Ok(steps)
}

/// The steps of a pointer after its `#`.
fn steps_of<'s>(alloc: Global, text: &Text<'s>) -> Result<Trail<'s>, RefStop>
    ensures steps { IfOk result (λ steps. text.now ≡ pointer_text steps) }
    ensures bad { IsErrOf result RefStop.BadRef → (steps : List (List ℕ))
        → text.now ≢ pointer_text steps }
{
    let pieces = text.split(alloc, '/')?;
    let Some((first, segments)) = pieces.as_slice().split_first() else {
        return Err(RefStop::BadRef);
    };
    if first.as_str() == "#" {
        return decoded(alloc, segments);
    }
    Err(RefStop::BadRef)
}

/// The steps before the first `$value` and those after it, of which there are none where there is
/// no `$value`.
fn cut<'a, 's>(steps: &'a [Text<'s>]) -> (&'a [Text<'s>], &'a [Text<'s>])
    ensures { IsValueCut steps.entry.now result.0.now result.1.now }
{
    for (at, step) in steps.iter().enumerate() {
        if step.as_str() == "$value" {
            return (&steps[..at], &steps[at + 1..]);
        }
    }
    (steps, &steps[..0])
}

/// Reads a pointer to a place, as `#/a/b/$value/0`; `#/a/b` is the token's whole value (RFC 6901
/// after `#`, without percent encoding). It is `BadRef` exactly where the text spells no place. Any
/// text is a step after `$value`.
pub fn read_pointer<'s>(alloc: Global, text: &Text<'s>) -> Result<Place<'s>, RefStop>
    ensures place { IfOk result (λ place. SpellsPlace text.now place) }
    ensures bad { IsErrOf result RefStop.BadRef → (place : Place) → ¬ SpellsPlace text.now place }
{
    let steps: Trail<'s> = steps_of(alloc, text)?;
    let (names, rest) = cut(steps.as_slice());
    let token = copied(alloc, names)?;
    if !token.is_token_path() {
        return Err(RefStop::BadRef);
    }
    let trail = steps_copied(alloc, rest)?;
    Ok(Place { token, trail })
}

/// Reads the target of an extension, as `{a.b}`, `#/a/b` or, for the root, `#`. It is `BadRef` exactly where the text
/// spells no path of a group.
pub fn read_group<'s>(alloc: Global, text: &Text<'s>) -> Result<Path<'s>, RefStop>
    ensures path { IfOk result (λ path. SpellsGroup text.now path) }
    ensures bad { IsErrOf result RefStop.BadRef → (path : List (List ℕ))
        → ¬ SpellsGroup text.now path }
{
    if let Some(path) = curly_names(alloc, text)? {
        return names_alone(path);
    }
    let steps: Trail<'s> = steps_of(alloc, text)?;
    let path = copied(alloc, steps.as_slice())?;
    names_alone(path)
}

// The path, where all its names are ones that a token or group can have.
fn names_alone<'s>(path: Path<'s>) -> Result<Path<'s>, RefStop>
    ensures path { IfOk result (λ same. (same ≡ path.entry) × AreNames same) }
    ensures bad { IsErrOf result RefStop.BadRef → ¬ AreNames path.entry }
{
    if !path.are_names() {
        return Err(RefStop::BadRef);
    }
    Ok(path)
}
