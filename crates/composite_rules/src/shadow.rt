//! Shadows.

ghost use Rattle.std.specs.Prelude.{◌≡◌, Ok, IfOk, IfErr, false};
ghost use Rattle.json_span.specs.PlainView.{plain_view, plain_fields_view};
ghost use Rattle.type_rules.specs.Answer.{IsFound, IsBreak};
ghost use Rattle.composite_rules.specs.Value.{boolean_in, inset_member, shadow_item_in, one_item};
ghost use Rattle.composite_rules.specs.Value.{one_shadow, shadows_in};

use json_span::{Plain, PlainFields};
use std::alloc::Global;
use std::fmt;
use tk_io::Sequence;
use type_rules::{
    Color, Part, Size, ValueFault, ValueRule, broken, members_of, named, one, part_under, some_of,
    under,
};

/// One shadow of a box (Format Module 2025.10, shadow).
#[derive(Clone, Copy, PartialEq, Eq)]
pub struct ShadowItem {
    pub color: Color,
    pub offset_x: Size,
    pub offset_y: Size,
    pub blur: Size,
    pub spread: Size,
    /// Whether the shadow falls inside of the box.
    pub inset: bool,
}

impl fmt::Debug for ShadowItem {
    fn fmt<W: fmt::Write>(&self, f: &mut fmt::Formatter<W>) -> fmt::Result {
        f.write_str("ShadowItem")
    }
}

/// One or more shadows.
pub type Shadows = Sequence<ShadowItem>;

#[tactic(auto, unfolding(crate::specs::Value::boolean_in))]
fn check_boolean<'s>(alloc: Global, plain: &Plain<'s>) -> Result<bool, ValueFault<'s>>
    ensures ok { IfOk result (λ x. boolean_in (plain_view plain.now) ≡ Ok x) }
    ensures broken { IfErr result (IsBreak (boolean_in (plain_view plain.now))) }
{
    match plain.as_bool() {
        Some(truth) => Ok(truth),
        None => Err(broken(alloc, ValueRule::ValueShape)),
    }
}

// Whether a shadow is an inner one; it is none where nothing is said.
fn inset_under<'s>(alloc: Global, members: &PlainFields<'s>) -> Result<bool, ValueFault<'s>>
    ensures ok { IfOk result (IsFound (inset_member (plain_fields_view members.now))) }
    ensures broken { IfErr result (IsBreak (inset_member (plain_fields_view members.now))) }
{
    match named(members, "inset") {
        Some(plain) => under(alloc, "inset", check_boolean(alloc, plain)),
        None => Ok(false),
    }
}

/// An object of a `color`, the lengths `offsetX`, `offsetY`, `blur` and `spread`, and optionally
/// `inset`, true or false, checked in this order. An absent `inset` is false.
impl<'s> Part<'s> for ShadowItem {
    type Typed = ShadowItem;

    ghost part_in = { shadow_item_in };

    fn check(alloc: Global, plain: &Plain<'s>, legacy: bool) -> Result<ShadowItem, ValueFault<'s>> {
        let members = members_of(alloc, plain)?;
        let color = part_under::<Color>(alloc, members, "color", legacy)?;
        let offset_x = part_under::<Size>(alloc, members, "offsetX", legacy)?;
        let offset_y = part_under::<Size>(alloc, members, "offsetY", legacy)?;
        let blur = part_under::<Size>(alloc, members, "blur", legacy)?;
        let spread = part_under::<Size>(alloc, members, "spread", legacy)?;
        let inset = inset_under(alloc, members)?;
        Ok(ShadowItem {
            color,
            offset_x,
            offset_y,
            blur,
            spread,
            inset,
        })
    }
}

// A list of shadows that is written as its one item.
fn one_item<'s>(alloc: Global, plain: &Plain<'s>, legacy: bool) -> Result<Shadows, ValueFault<'s>>
    ensures ok { IfOk result (λ items. one_item legacy (plain_view plain.now) ≡ Ok items) }
    ensures broken { IfErr result (IsBreak (one_item legacy (plain_view plain.now))) }
{
    let item = ShadowItem::check(alloc, plain, legacy)?;
    let items = one(alloc, item)?;
    Ok(items)
}

// A shadow that is one object, without a member `0`.
fn one_shadow<'s>(alloc: Global, plain: &Plain<'s>, legacy: bool) -> Result<Shadows, ValueFault<'s>>
    ensures ok { IfOk result (λ items. one_shadow legacy (plain_view plain.now) ≡ Ok items) }
    ensures broken { IfErr result (IsBreak (one_shadow legacy (plain_view plain.now))) }
{
    let members = members_of(alloc, plain)?;
    match named(members, "0") {
        Some(_) => under(alloc, "0", Err(broken(alloc, ValueRule::ValueShape))),
        None => one_item(alloc, plain, legacy),
    }
}

/// The shadows that the value is: one object without a member `0`, or a list of one or more.
pub(crate) fn shadows_of<'s>(
    alloc: Global,
    plain: &Plain<'s>,
    legacy: bool,
) -> Result<Shadows, ValueFault<'s>>
    ensures ok { IfOk result (λ items. shadows_in legacy (plain_view plain.now) ≡ Ok items) }
    ensures broken { IfErr result (IsBreak (shadows_in legacy (plain_view plain.now))) }
{
    match plain.as_array() {
        Some(_) => some_of::<ShadowItem>(alloc, plain, legacy),
        None => one_shadow(alloc, plain, legacy),
    }
}
