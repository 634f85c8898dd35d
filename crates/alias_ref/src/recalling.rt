//! What is remembered of a token, in place of a walk.

ghost use Rattle.std.specs.Prelude.{◌≡◌, List, IfOk, IfSome, IfNone};
ghost use Rattle.alias_ref.specs.Written.{Step};
ghost use Rattle.alias_ref.specs.inner.Remembering.{HasHome, IsRecalled};
ghost use Rattle.alias_ref.specs.inner.Spots.{IsSameBranch};

use crate::copying::copy_plain;
use crate::memory::{Memory, place_of};
use crate::trace::Trace;
use crate::walking::Found;
use group_inherit::Flat;
use name_path::Place;
use std::alloc::Global;
use tk_io::NoMemory;

/// What is remembered of the token that a reference names without steps, and its visits counted as if its whole value had
/// been walked. `own` says that the reference is written in the token whose links are listed. None where nothing is
/// remembered, or where there may be no room for the visits: a walk tells what they break.
pub(crate) fn recall<'s>(
    alloc: Global,
    flat: &Flat<'s>,
    memory: &Memory<'s>,
    own: bool,
    named: &Place<'s>,
    trace: &mut Trace<'s>,
) -> Result<Option<Found<'s>>, NoMemory>
    ensures some { IfOk result (λ o. IfSome o (λ found. (token : List Step)
        → HasHome own flat.now memory.now.known.items trace.old token
        → IsRecalled flat.now trace.old trace.new named.now found)) }
    ensures none { IfOk result (λ o. IfNone o (trace.new ≡ trace.old)) }
    ensures branch { IsSameBranch trace.old trace.new }
{
    if !own || !named.trail.is_empty() {
        return Ok(None);
    }
    let Some(i) = place_of(flat.as_slice(), &named.token) else {
        return Ok(None);
    };
    let Some(known) = memory.at(i) else {
        return Ok(None);
    };
    if !trace.visit_known(known.visits) {
        return Ok(None);
    }
    let plain = copy_plain(alloc, &known.resolved.plain)?;
    Ok(Some(Found {
        plain,
        kind: Some(known.resolved.kind),
    }))
}
