//! Parts of values: under the names of members, and at the places of items. A missing part breaks
//! the rule on shapes at its object or list; what a part breaks has the name or the index as its
//! first step.

ghost use Rattle.std.specs.Prelude.{◌≡◌, [], ◌∷◌, Bool, Ok, IfOk, IfErr};
ghost use Rattle.std.specs.Fmt.{decimal};
ghost use Rattle.json_span.specs.PlainView.{Value, plain_view};
ghost use Rattle.type_rules.specs.Answer.{IsFound, IsBreak, seen, along, member_of, item_of};
ghost use Rattle.type_rules.specs.Checked.{Checked, under};
ghost use Rattle.type_rules.specs.Forms.{number_in, text_in, each, list_in, some_in};

use crate::fault::{ValueFault, at_item, under};
use crate::forms::{check_number, item, items_of, required, some_items_of, text_of};
use dec_fix::Dec;
use json_span::{Plain, PlainFields, PlainItems};
use std::alloc::Global;
use tk_io::{NoMemory, Sequence, Text};

/// What a value or a part of one may be: a number, a colour, a length, ..
pub trait Part<'s> {
    /// What the part is, once it is checked.
    type Typed: Drop;

    ghost part_in: { Bool → Value → Checked Self.Typed };

    /// What the value is, or the first rule that it breaks. Where `legacy` is true, lengths, times and colours may be
    /// texts; every other part is alike for either.
    fn check(alloc: Global, plain: &Plain<'s>, legacy: bool) -> Result<Self::Typed, ValueFault<'s>>
        ensures ok { IfOk result (λ part. part_in legacy (plain_view plain.now) ≡ Ok part) }
        ensures broken { IfErr result (IsBreak (part_in legacy (plain_view plain.now))) };
}

/// The part under a name.
pub fn part_under<'s, P: Part<'s>>(
    alloc: Global,
    members: &PlainFields<'s>,
    name: &'s str,
    legacy: bool,
) -> Result<P::Typed, ValueFault<'s>>
    ensures ok { IfOk result (IsFound (member_of (P.part_in legacy) name.entry.now members.now)) }
    ensures broken { IfErr result (IsBreak (member_of (P.part_in legacy) name.entry.now members.now)) }
{
    let plain = required(alloc, members, name)?;
    under(alloc, name, P::check(alloc, plain, legacy))
}

// The item with this index as a part.
fn part_of<'s, P: Part<'s>>(
    alloc: Global,
    i: usize,
    plain: &Plain<'s>,
    legacy: bool,
) -> Result<P::Typed, ValueFault<'s>>
    ensures ok { IfOk result (IsFound (under (decimal i) (seen (P.part_in legacy) plain.now))) }
    ensures broken { IfErr result (IsBreak (under (decimal i) (seen (P.part_in legacy) plain.now))) }
{
    at_item(alloc, i, P::check(alloc, plain, legacy))
}

/// The i-th item of a list as a part.
pub fn part_at<'s, P: Part<'s>>(
    alloc: Global,
    items: &PlainItems<'s>,
    i: usize,
    legacy: bool,
) -> Result<P::Typed, ValueFault<'s>>
    ensures ok { IfOk result (IsFound (item_of (P.part_in legacy) i items.now)) }
    ensures broken { IfErr result (IsBreak (item_of (P.part_in legacy) i items.now)) }
{
    let plain = item(alloc, items, i)?;
    part_of::<P>(alloc, i, plain, legacy)
}

/// Each item of a list as a part, the first to the last.
pub fn each_part<'s, P: Part<'s>>(
    alloc: Global,
    items: &PlainItems<'s>,
    legacy: bool,
) -> Result<Sequence<P::Typed>, ValueFault<'s>>
    ensures ok { IfOk result (IsFound (along (each (P.part_in legacy) 0) items.now)) }
    ensures broken { IfErr result (IsBreak (along (each (P.part_in legacy) 0) items.now)) }
{
    let mut parts = Sequence::new(alloc);
    let list = items.as_slice();
    for (i, plain) in list.iter().enumerate() {
        let part = part_of::<P>(alloc, i, plain, legacy)?;
        parts.push(part)?;
    }
    Ok(parts)
}

/// The items of the list that the value is, each as a part.
pub fn list_of<'s, P: Part<'s>>(
    alloc: Global,
    plain: &Plain<'s>,
    legacy: bool,
) -> Result<Sequence<P::Typed>, ValueFault<'s>>
    ensures ok { IfOk result (IsFound (seen (list_in (P.part_in legacy)) plain.now)) }
    ensures broken { IfErr result (IsBreak (seen (list_in (P.part_in legacy)) plain.now)) }
{
    let items = items_of(alloc, plain)?;
    each_part::<P>(alloc, items, legacy)
}

/// The items of the list of one or more that the value is, each as a part. A list of none breaks
/// the rule on shapes.
pub fn some_of<'s, P: Part<'s>>(
    alloc: Global,
    plain: &Plain<'s>,
    legacy: bool,
) -> Result<Sequence<P::Typed>, ValueFault<'s>>
    ensures ok { IfOk result (IsFound (seen (some_in (P.part_in legacy)) plain.now)) }
    ensures broken { IfErr result (IsBreak (seen (some_in (P.part_in legacy)) plain.now)) }
{
    let items = some_items_of(alloc, plain)?;
    each_part::<P>(alloc, items, legacy)
}

/// A list of one item.
pub fn one<T: Drop>(alloc: Global, item: T) -> Result<Sequence<T>, NoMemory>
    ensures { IfOk result (λ items. items ≡ item ∷ []) }
{
    let mut items = Sequence::new(alloc);
    items.push(item)?;
    Ok(items)
}

/// A number that is within the bounds of those that are read.
impl<'s> Part<'s> for Dec {
    type Typed = Dec;

    ghost part_in = { λ _. number_in };

    fn check(alloc: Global, plain: &Plain<'s>, _legacy: bool) -> Result<Dec, ValueFault<'s>> {
        check_number(alloc, plain)
    }
}

/// A text.
impl<'s> Part<'s> for Text<'s> {
    type Typed = Text<'s>;

    ghost part_in = { λ _. text_in };

    fn check(alloc: Global, plain: &Plain<'s>, _legacy: bool) -> Result<Text<'s>, ValueFault<'s>> {
        let text = text_of(alloc, plain)?;
        Ok(text.copy()?)
    }
}
