//! The JSON forms of values, and the members of objects.

ghost use Rattle.std.specs.Prelude.{◌≡◌, Ok, IfOk, IfErr, option_map};
ghost use Rattle.json_span.specs.PlainView.{plain_view};
ghost use Rattle.type_rules.specs.Answer.{AreItems, AreMembers, IsThere, IsBreak, seen, among};
ghost use Rattle.type_rules.specs.Answer.{along};
ghost use Rattle.type_rules.specs.Forms.{number_in, text_in, items_in, members_in};
ghost use Rattle.type_rules.specs.Forms.{items_of_length, some_items_in, named};
ghost use Rattle.type_rules.specs.Forms.{member_value, item_value};

use crate::fault::{ValueFault, ValueRule, broken};
use dec_fix::{Dec, NotDec};
use json_span::{Plain, PlainFields, PlainItems};
use std::alloc::Global;
use tk_io::Text;

/// The number that the value is. A number that is not within the bounds of those that are read
/// breaks the rule on wide numbers, and every other value that on shapes.
#[tactic(auto, unfolding(crate::specs::Forms::number_in))]
pub fn check_number<'s>(alloc: Global, plain: &Plain<'s>) -> Result<Dec, ValueFault<'s>>
    ensures ok { IfOk result (λ number. number_in (plain_view plain.now) ≡ Ok number) }
    ensures broken { IfErr result (IsBreak (number_in (plain_view plain.now))) }
{
    let Some(spelling) = plain.as_number() else {
        return Err(broken(alloc, ValueRule::ValueShape));
    };
    match Dec::read(spelling) {
        Ok(number) => Ok(number),
        Err(NotDec) => Err(broken(alloc, ValueRule::NumberWide)),
    }
}

/// The text that the value is. Another value breaks the rule on shapes.
#[tactic(auto, unfolding(crate::specs::Forms::text_in))]
pub fn text_of<'a, 's>(alloc: Global, plain: &'a Plain<'s>) -> Result<&'a Text<'s>, ValueFault<'s>>
    ensures ok { IfOk result (λ text. text_in (plain_view plain.entry.now) ≡ Ok text.now) }
    ensures broken { IfErr result (IsBreak (text_in (plain_view plain.entry.now))) }
{
    match plain.as_text() {
        Some(text) => Ok(text),
        None => Err(broken(alloc, ValueRule::ValueShape)),
    }
}

/// The items of the list that the value is. Another value breaks the rule on shapes.
#[tactic(auto, unfolding(crate::specs::Forms::items_in))]
pub fn items_of<'a, 's>(
    alloc: Global,
    plain: &'a Plain<'s>,
) -> Result<&'a PlainItems<'s>, ValueFault<'s>>
    ensures ok { IfOk result (AreItems (items_in (plain_view plain.entry.now))) }
    ensures broken { IfErr result (IsBreak (items_in (plain_view plain.entry.now))) }
{
    match plain.as_array() {
        Some(items) => Ok(items),
        None => Err(broken(alloc, ValueRule::ValueShape)),
    }
}

/// The members of the object that the value is. Another value breaks the rule on shapes.
#[tactic(auto, unfolding(crate::specs::Forms::members_in))]
pub fn members_of<'a, 's>(
    alloc: Global,
    plain: &'a Plain<'s>,
) -> Result<&'a PlainFields<'s>, ValueFault<'s>>
    ensures ok { IfOk result (AreMembers (members_in (plain_view plain.entry.now))) }
    ensures broken { IfErr result (IsBreak (members_in (plain_view plain.entry.now))) }
{
    match plain.as_object() {
        Some(members) => Ok(members),
        None => Err(broken(alloc, ValueRule::ValueShape)),
    }
}

/// The items of a list of this length. Another value breaks the rule on shapes.
#[tactic(auto, unfolding(crate::specs::Forms::items_of_length))]
pub fn items_of_length<'a, 's>(
    alloc: Global,
    len: usize,
    plain: &'a Plain<'s>,
) -> Result<&'a PlainItems<'s>, ValueFault<'s>>
    ensures ok { IfOk result (AreItems (seen (items_of_length len) plain.entry.now)) }
    ensures broken { IfErr result (IsBreak (seen (items_of_length len) plain.entry.now)) }
{
    let items = items_of(alloc, plain)?;
    if items.len() != len {
        return Err(broken(alloc, ValueRule::ValueShape));
    }
    Ok(items)
}

/// The items of a list of one or more. Another value breaks the rule on shapes.
#[tactic(auto, unfolding(crate::specs::Forms::some_items_in))]
pub fn some_items_of<'a, 's>(
    alloc: Global,
    plain: &'a Plain<'s>,
) -> Result<&'a PlainItems<'s>, ValueFault<'s>>
    ensures ok { IfOk result (AreItems (seen some_items_in plain.entry.now)) }
    ensures broken { IfErr result (IsBreak (seen some_items_in plain.entry.now)) }
{
    let items = items_of(alloc, plain)?;
    if items.is_empty() {
        return Err(broken(alloc, ValueRule::ValueShape));
    }
    Ok(items)
}

/// The value of the first member of this name, or none.
pub fn named<'a, 's>(members: &'a PlainFields<'s>, name: &str) -> Option<&'a Plain<'s>>
    ensures { option_map (λ v. plain_view v.now) result ≡ among (named name.now) members.entry.now }
{
    for member in members.as_slice() {
        if member.name.as_str() == name {
            return Some(&member.value);
        }
    }
    None
}

/// The value of the first member of this name. An object without one breaks the rule on shapes.
pub fn required<'a, 's>(
    alloc: Global,
    members: &'a PlainFields<'s>,
    name: &str,
) -> Result<&'a Plain<'s>, ValueFault<'s>>
    ensures ok { IfOk result (IsThere (among (member_value name.now) members.entry.now)) }
    ensures broken { IfErr result (IsBreak (among (member_value name.now) members.entry.now)) }
{
    match named(members, name) {
        Some(value) => Ok(value),
        None => Err(broken(alloc, ValueRule::ValueShape)),
    }
}

/// The i-th item. A list without one breaks the rule on shapes.
pub fn item<'a, 's>(
    alloc: Global,
    items: &'a PlainItems<'s>,
    i: usize,
) -> Result<&'a Plain<'s>, ValueFault<'s>>
    ensures ok { IfOk result (IsThere (along (item_value i) items.entry.now)) }
    ensures broken { IfErr result (IsBreak (along (item_value i) items.entry.now)) }
{
    match items.at(i) {
        Some(value) => Ok(value),
        None => Err(broken(alloc, ValueRule::ValueShape)),
    }
}
