//! What the element of a value holds.

ghost use Rattle.std.specs.Prelude.{◌≡◌, Some, None, option_map, option_and_then, true, ◌∷◌, []};
ghost use Rattle.std.specs.Char.{digit_value};
ghost use Rattle.dec_fix.specs.Arithmetic.{byte_of};
ghost use Rattle.transforms.specs.Hexadecimal.{hex_value};
ghost use Rattle.type_rules.specs.Sound.{IsColor, IsSize, IsTime, IsSimple, IsHex, is_hex_digit};
ghost use Rattle.android_out.specs.PlatformValue.{component_color, digits_color, color_content};
ghost use Rattle.android_out.specs.PlatformValue.{is_srgb, is_rem, size_content, whole_content};
ghost use Rattle.android_out.specs.PlatformValue.{milliseconds_in, simple_content};
ghost use Rattle.android_out.specs.inner.View.{unit_view, content_view};

use crate::family::family_content;
use dec_fix::Dec;
use transforms::{Config, scale_rem};
use type_rules::{Color, Simple, Size, SizeUnit, Space, Time, TimeUnit};

/// The unit of a length.
#[derive(Clone, Copy)]
pub(crate) enum DimenUnit {
    Dp,
    Sp,
}

/// What an element holds.
#[derive(Clone, Copy)]
pub(crate) enum Content<'a> {
    /// The bytes of alpha, red, green and blue.
    Color(u8, u8, u8, u8),
    /// A number and its unit.
    Dimen(Dec, DimenUnit),
    /// A whole number.
    Integer(Dec),
    Item(Dec),
    Text(&'a str),
}

// A colour by its three components, or none where one of them is `none`.
fn component_color(color: &Color) -> Option<Content<'static>>
    requires color { IsColor color.now }
    requires srgb { is_srgb color.now.space ≡ true }
    ensures { option_map content_view result ≡ component_color color.now }
{
    let red = color.first?;
    let green = color.second?;
    let blue = color.third?;
    Some(Content::Color(
        color.alpha.to_byte(),
        red.to_byte(),
        green.to_byte(),
        blue.to_byte(),
    ))
}

// The value of a digit in lower case.
fn digit(digit: u8) -> u8
    requires { is_hex_digit digit ≡ true }
    ensures { result ≡ digit_value digit }
{
    if digit <= b'9' {
        digit - b'0'
    } else {
        digit - b'a' + 10
    }
}

// The byte that two digits in lower case are.
fn byte(high: u8, low: u8) -> u8
    requires high { is_hex_digit high ≡ true }
    requires low { is_hex_digit low ≡ true }
    ensures { result ≡ hex_value (high ∷ low ∷ []) }
{
    16 * digit(high) + digit(low)
}

// A colour by the six digits of its `hex`.
fn digits_color(alpha: u8, digits: &[u8; 6]) -> Content<'static>
    requires { IsHex digits.now }
    ensures { Some (content_view result) ≡ digits_color alpha digits.now }
{
    Content::Color(
        alpha,
        byte(digits[0], digits[1]),
        byte(digits[2], digits[3]),
        byte(digits[4], digits[5]),
    )
}

// A colour by its `hex`, or none where it has no `hex`.
fn hex_color(color: &Color) -> Option<Content<'static>>
    requires { IsColor color.now }
    ensures { option_map content_view result
        ≡ option_and_then (digits_color (byte_of color.now.alpha)) color.now.hex }
{
    match &color.hex {
        Some(digits) => Some(digits_color(color.alpha.to_byte(), digits)),
        None => None,
    }
}

fn is_srgb(space: Space) -> bool
    ensures { result ≡ is_srgb space }
{
    match space {
        Space::Srgb => true,
        Space::SrgbLinear
        | Space::DisplayP3
        | Space::A98Rgb
        | Space::ProphotoRgb
        | Space::Rec2020
        | Space::XyzD65
        | Space::XyzD50
        | Space::Hsl
        | Space::Hwb
        | Space::Lab
        | Space::Lch
        | Space::Oklab
        | Space::Oklch => false,
    }
}

/// The bytes of a colour: of its components in sRGB, else of its digits.
fn color_content(color: &Color) -> Option<Content<'static>>
    requires { IsColor color.now }
    ensures { option_map content_view result ≡ color_content color.now }
{
    if is_srgb(color.space) {
        if let Some(content) = component_color(color) {
            return Some(content);
        }
    }
    hex_color(color)
}

fn is_rem(unit: SizeUnit) -> bool
    ensures { result ≡ is_rem unit }
{
    match unit {
        SizeUnit::Px => false,
        SizeUnit::Rem => true,
    }
}

/// A length in pixels, in this unit.
pub(crate) fn size_content(cfg: &Config, unit: DimenUnit, size: &Size) -> Content<'static>
    requires { IsSize size.now }
    ensures { content_view result ≡ size_content cfg.now (unit_view unit) size.now }
{
    Content::Dimen(
        scale_rem(&size.value, is_rem(size.unit), cfg.rem_base),
        unit,
    )
}

/// A number that is whole and of 32 bits.
pub(crate) fn whole_content(number: &Dec) -> Option<Content<'static>>
    ensures { option_map content_view result ≡ whole_content number.now }
{
    match number.whole_i32() {
        Some(_) => Some(Content::Integer(*number)),
        None => None,
    }
}

fn milliseconds(time: &Time) -> Dec
    requires { IsTime time.now }
    ensures { result ≡ milliseconds_in time.now.unit time.now.value }
{
    match time.unit {
        TimeUnit::Ms => time.value,
        TimeUnit::S => time.value.times_1000(),
    }
}

/// What the element of a simple value holds, where it has one.
pub(crate) fn simple_content<'a>(cfg: &Config, simple: &'a Simple<'_>) -> Option<Content<'a>>
    requires { IsSimple simple.now }
    ensures { option_map content_view result ≡ simple_content cfg.now simple.now }
{
    match simple {
        Simple::Color(color) => color_content(color),
        Simple::Dimension(size) => Some(size_content(cfg, DimenUnit::Dp, size)),
        Simple::FontFamily(families) => family_content(families.as_slice()),
        Simple::FontWeight(weight) => whole_content(weight),
        Simple::Duration(time) => whole_content(&milliseconds(time)),
        Simple::CubicBezier(_) => None,
        Simple::Number(number) => Some(Content::Item(*number)),
    }
}
