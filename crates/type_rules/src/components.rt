//! The three components of a colour.

ghost use Rattle.std.specs.Prelude.{◌≡◌, Ok, IfOk, IfErr};
ghost use Rattle.std.specs.Fmt.{decimal};
ghost use Rattle.json_span.specs.PlainView.{plain_view};
ghost use Rattle.type_rules.specs.Answer.{IsBreak};
ghost use Rattle.type_rules.specs.Checked.{under};
ghost use Rattle.type_rules.specs.Value.{component_of_word, component_of_number, component_in};
ghost use Rattle.type_rules.specs.Value.{three_components, ranged_component, ranged_components};
ghost use Rattle.type_rules.specs.Value.{components_in};

use crate::fault::{ValueFault, ValueRule, at_item, broken};
use crate::forms::{check_number, items_of_length};
use crate::parts::{Part, part_at};
use crate::range::{Range, ranged};
use crate::space::{Ranges, Space};
use dec_fix::Dec;
use json_span::Plain;
use std::alloc::Global;

/// The components, of which each may be none.
#[derive(Clone, Copy)]
pub(crate) struct Components {
    pub first: Option<Dec>,
    pub second: Option<Dec>,
    pub third: Option<Dec>,
}

// A component that is a text: `none` alone is one.
fn component_of_word<'s>(alloc: Global, word: &str) -> Result<Option<Dec>, ValueFault<'s>>
    ensures ok { IfOk result (λ x. component_of_word word.now ≡ Ok x) }
    ensures broken { IfErr result (IsBreak (component_of_word word.now)) }
{
    if word == "none" {
        return Ok(None);
    }
    Err(broken(alloc, ValueRule::ValueShape))
}

// A component that is no text: a number.
fn component_of_number<'s>(alloc: Global, plain: &Plain<'s>) -> Result<Option<Dec>, ValueFault<'s>>
    ensures ok { IfOk result (λ x. component_of_number (plain_view plain.now) ≡ Ok x) }
    ensures broken { IfErr result (IsBreak (component_of_number (plain_view plain.now))) }
{
    let number = check_number(alloc, plain)?;
    Ok(Some(number))
}

/// A component of a colour.
pub(crate) struct Component;

/// A number, or none by the word `none`.
impl<'s> Part<'s> for Component {
    type Typed = Option<Dec>;

    ghost part_in = { λ _. component_in };

    fn check(
        alloc: Global,
        plain: &Plain<'s>,
        _legacy: bool,
    ) -> Result<Option<Dec>, ValueFault<'s>> {
        match plain.as_text() {
            Some(word) => component_of_word(alloc, word.as_str()),
            None => component_of_number(alloc, plain),
        }
    }
}

// The three components of a list, each a number or `none`.
fn three_components<'s>(alloc: Global, plain: &Plain<'s>) -> Result<Components, ValueFault<'s>>
    ensures ok { IfOk result (λ x. three_components (plain_view plain.now) ≡ Ok x) }
    ensures broken { IfErr result (IsBreak (three_components (plain_view plain.now))) }
{
    let items = items_of_length(alloc, 3, plain)?;
    let first = part_at::<Component>(alloc, items, 0, false)?;
    let second = part_at::<Component>(alloc, items, 1, false)?;
    let third = part_at::<Component>(alloc, items, 2, false)?;
    Ok(Components {
        first,
        second,
        third,
    })
}

// The component, where it lies in the range; none lies in each.
fn ranged_component<'s>(
    alloc: Global,
    range: Range,
    component: Option<Dec>,
) -> Result<Option<Dec>, ValueFault<'s>>
    ensures ok { IfOk result (λ x. ranged_component range component ≡ Ok x) }
    ensures broken { IfErr result (IsBreak (ranged_component range component)) }
{
    match component {
        Some(number) => {
            let number = ranged(alloc, ValueRule::ColorRange, range, number)?;
            Ok(Some(number))
        }
        None => Ok(None),
    }
}

// The i-th component, where it lies in its range; a break is told with the index as its first step.
fn ranged_at<'s>(
    alloc: Global,
    i: usize,
    range: Range,
    component: Option<Dec>,
) -> Result<Option<Dec>, ValueFault<'s>>
    ensures ok { IfOk result (λ x. under (decimal i) (ranged_component range component) ≡ Ok x) }
    ensures broken { IfErr result (IsBreak (under (decimal i) (ranged_component range component))) }
{
    at_item(alloc, i, ranged_component(alloc, range, component))
}

fn ranged_components<'s>(
    alloc: Global,
    ranges: Ranges,
    components: Components,
) -> Result<Components, ValueFault<'s>>
    ensures ok { IfOk result (λ x. ranged_components ranges components ≡ Ok x) }
    ensures broken { IfErr result (IsBreak (ranged_components ranges components)) }
{
    let first = ranged_at(alloc, 0, ranges.first, components.first)?;
    let second = ranged_at(alloc, 1, ranges.second, components.second)?;
    let third = ranged_at(alloc, 2, ranges.third, components.third)?;
    Ok(Components {
        first,
        second,
        third,
    })
}

/// The components that the value is: a list of exactly three, of which, after the forms of all
/// three, each lies in its range in this space.
pub(crate) fn components_of<'s>(
    alloc: Global,
    space: Space,
    plain: &Plain<'s>,
) -> Result<Components, ValueFault<'s>>
    ensures ok { IfOk result (λ x. components_in space (plain_view plain.now) ≡ Ok x) }
    ensures broken { IfErr result (IsBreak (components_in space (plain_view plain.now))) }
{
    let components = three_components(alloc, plain)?;
    ranged_components(alloc, space.ranges(), components)
}
