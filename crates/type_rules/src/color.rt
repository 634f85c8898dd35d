//! Colours.

ghost use Rattle.std.specs.Prelude.{◌≡◌, length, map, Ok, IfOk, IfErr};
ghost use Rattle.std.specs.Char.{is_ascii_hexdigit, to_ascii_lowercase};
ghost use Rattle.std.specs.List.{list_all};
ghost use Rattle.json_span.specs.PlainView.{plain_view, plain_fields_view};
ghost use Rattle.type_rules.specs.Answer.{IsFound, IsBreak, among, seen};
ghost use Rattle.type_rules.specs.Value.{components_member, alpha_in, alpha_member, hex_digits};
ghost use Rattle.type_rules.specs.Value.{hex_in, hex_member, color_in_object, color_in};
ghost use Rattle.type_rules.specs.Legacy.{color_of_text};

use crate::components::{Components, components_of};
use crate::fault::{ValueFault, ValueRule, or_broken, under};
use crate::forms::{check_number, members_of, named, required, text_of};
use crate::legacy::{legacy_color, legacy_text};
use crate::parts::Part;
use crate::range::{Range, ranged};
use crate::space::{SPACES, Space};
use crate::words::word_under;
use dec_fix::Dec;
use json_span::{Plain, PlainFields};
use std::alloc::Global;
use std::fmt;

/// A colour (Color Module 2025.10). Each component that is not none lies in its range in the space.
#[derive(Clone, Copy, PartialEq, Eq)]
pub struct Color {
    pub space: Space,
    pub first: Option<Dec>,
    pub second: Option<Dec>,
    pub third: Option<Dec>,
    /// Within 0 to 1.
    pub alpha: Dec,
    /// The six hexadecimal digits of `hex`, in lower case.
    pub hex: Option<[u8; 6]>,
}

impl fmt::Debug for Color {
    fn fmt<W: fmt::Write>(&self, f: &mut fmt::Formatter<W>) -> fmt::Result {
        f.write_str("Color")
    }
}

fn components_under<'s>(
    alloc: Global,
    space: Space,
    members: &PlainFields<'s>,
) -> Result<Components, ValueFault<'s>>
    ensures ok { IfOk result (IsFound (among (components_member space) members.now)) }
    ensures broken { IfErr result (IsBreak (among (components_member space) members.now)) }
{
    let plain = required(alloc, members, "components")?;
    under(alloc, "components", components_of(alloc, space, plain))
}

// An alpha: a number from 0 to 1.
fn alpha_of<'s>(alloc: Global, plain: &Plain<'s>) -> Result<Dec, ValueFault<'s>>
    ensures ok { IfOk result (λ x. alpha_in (plain_view plain.now) ≡ Ok x) }
    ensures broken { IfErr result (IsBreak (alpha_in (plain_view plain.now))) }
{
    let alpha = check_number(alloc, plain)?;
    ranged(alloc, ValueRule::ColorAlpha, Range::SHARE, alpha)
}

fn alpha_under<'s>(alloc: Global, members: &PlainFields<'s>) -> Result<Dec, ValueFault<'s>>
    ensures ok { IfOk result (IsFound (alpha_member (plain_fields_view members.now))) }
    ensures broken { IfErr result (IsBreak (alpha_member (plain_fields_view members.now))) }
{
    match named(members, "alpha") {
        Some(plain) => under(alloc, "alpha", alpha_of(alloc, plain)),
        None => Ok(Dec::whole(1)),
    }
}

pub(crate) fn are_digits(digits: &[u8]) -> bool
    ensures { result ≡ list_all is_ascii_hexdigit digits.now }
{
    digits.iter().all(|digit| digit.is_ascii_hexdigit())
}

pub(crate) fn in_lower_case(digits: &[u8]) -> [u8; 6]
    requires { length digits.now ≡ 6 }
    ensures { result ≡ map to_ascii_lowercase digits.now }
{
    let mut hex = [0u8; 6];
    hex.copy_from_slice(digits);
    hex.make_ascii_lowercase();
    hex
}

// The six digits after '#', in lower case.
fn hex_digits(text: &str) -> Option<[u8; 6]>
    ensures { result ≡ hex_digits text.now }
{
    let (mark, digits) = text.as_bytes().split_first()?;
    if *mark != b'#' {
        return None;
    }
    if digits.len() != 6 {
        return None;
    }
    if !are_digits(digits) {
        return None;
    }
    Some(in_lower_case(digits))
}

// The digits of a `hex`, in lower case.
fn hex_of<'s>(alloc: Global, plain: &Plain<'s>) -> Result<Option<[u8; 6]>, ValueFault<'s>>
    ensures ok { IfOk result (λ x. hex_in (plain_view plain.now) ≡ Ok x) }
    ensures broken { IfErr result (IsBreak (hex_in (plain_view plain.now))) }
{
    let text = text_of(alloc, plain)?;
    let digits = or_broken(alloc, ValueRule::ColorHex, hex_digits(text.as_str()))?;
    Ok(Some(digits))
}

fn hex_under<'s>(
    alloc: Global,
    members: &PlainFields<'s>,
) -> Result<Option<[u8; 6]>, ValueFault<'s>>
    ensures ok { IfOk result (IsFound (hex_member (plain_fields_view members.now))) }
    ensures broken { IfErr result (IsBreak (hex_member (plain_fields_view members.now))) }
{
    match named(members, "hex") {
        Some(plain) => under(alloc, "hex", hex_of(alloc, plain)),
        None => Ok(None),
    }
}

fn color_of_object<'s>(alloc: Global, plain: &Plain<'s>) -> Result<Color, ValueFault<'s>>
    ensures ok { IfOk result (IsFound (seen color_in_object plain.now)) }
    ensures broken { IfErr result (IsBreak (seen color_in_object plain.now)) }
{
    let members = members_of(alloc, plain)?;
    let space = word_under(alloc, ValueRule::ColorSpace, &SPACES, members, "colorSpace")?;
    let components = components_under(alloc, space, members)?;
    let alpha = alpha_under(alloc, members)?;
    let hex = hex_under(alloc, members)?;
    Ok(Color {
        space,
        first: components.first,
        second: components.second,
        third: components.third,
        alpha,
        hex,
    })
}

#[tactic(auto, unfolding(crate::specs::Legacy::color_of_text))]
fn color_of_text<'s>(alloc: Global, text: &str) -> Result<Color, ValueFault<'s>>
    ensures ok { IfOk result (IsFound (color_of_text text.now)) }
    ensures broken { IfErr result (IsBreak (color_of_text text.now)) }
{
    or_broken(alloc, ValueRule::LegacyText, legacy_color(text))
}

/// An object of a word `colorSpace`, a list `components`, and optionally a number `alpha` and a
/// text `hex`, checked in this order. An absent `alpha` is 1. Where `legacy` is true, also a text,
/// as `#3366cc`.
impl<'s> Part<'s> for Color {
    type Typed = Color;

    ghost part_in = { color_in };

    fn check(alloc: Global, plain: &Plain<'s>, legacy: bool) -> Result<Color, ValueFault<'s>> {
        match legacy_text(plain, legacy) {
            Some(text) => color_of_text(alloc, text),
            None => color_of_object(alloc, plain),
        }
    }
}
