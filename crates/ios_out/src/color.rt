//! Colours of `UIColor`.

ghost use Rattle.std.specs.Prelude.{◌≡◌, Some, option_map, option_and_then, true, ◌∷◌, []};
ghost use Rattle.std.specs.Char.{digit_value};
ghost use Rattle.transforms.specs.Hexadecimal.{hex_value};
ghost use Rattle.type_rules.specs.Sound.{IsColor, IsHex, is_hex_digit};
ghost use Rattle.ios_out.specs.PlatformValue.{red_label, color_of, component_color, digits_color};
ghost use Rattle.ios_out.specs.PlatformValue.{color_content};
ghost use Rattle.ios_out.specs.inner.View.{quantity_view, content_view};

use crate::content::{Argument, Content, Quantity};
use dec_fix::Dec;
use type_rules::{Color, Space};

// The label of red, where `UIColor` knows the space.
fn red_label(space: Space) -> Option<&'static str>
    ensures { option_map (λ label. label.now) result ≡ red_label space }
{
    match space {
        Space::Srgb => Some("red"),
        Space::DisplayP3 => Some("displayP3Red"),
        Space::SrgbLinear
        | Space::A98Rgb
        | Space::ProphotoRgb
        | Space::Rec2020
        | Space::XyzD65
        | Space::XyzD50
        | Space::Hsl
        | Space::Hwb
        | Space::Lab
        | Space::Lch
        | Space::Oklab
        | Space::Oklch => None,
    }
}

// The call that makes a colour of three parts, of which the first has this label.
fn color_of(
    label: &'static str,
    red: Quantity,
    green: Quantity,
    blue: Quantity,
    alpha: Dec,
) -> Content<'static>
    ensures { content_view result
        ≡ color_of label.now (quantity_view red) (quantity_view green) (quantity_view blue) alpha }
{
    Content::Made(
        "UIColor",
        Argument::Labelled(label, red),
        Argument::Labelled("green", green),
        Argument::Labelled("blue", blue),
        Argument::Labelled("alpha", Quantity::Number(alpha)),
    )
}

// A colour by its three components, or none where one of them is `none`.
fn component_color(label: &'static str, color: &Color) -> Option<Content<'static>>
    ensures { option_map content_view result ≡ component_color label.now color.now }
{
    let red = color.first?;
    let green = color.second?;
    let blue = color.third?;
    Some(color_of(
        label,
        Quantity::Number(red),
        Quantity::Number(green),
        Quantity::Number(blue),
        color.alpha,
    ))
}

// The value of a digit in lower case.
fn digit(digit: u8) -> u8
    requires { is_hex_digit digit ≡ true }
    ensures { result ≡ digit_value digit }
{
    if digit <= b'9' {
        digit - b'0'
    } else {
        digit - b'a' + 10
    }
}

// The byte that two digits in lower case are.
fn byte(high: u8, low: u8) -> u8
    requires high { is_hex_digit high ≡ true }
    requires low { is_hex_digit low ≡ true }
    ensures { result ≡ hex_value (high ∷ low ∷ []) }
{
    16 * digit(high) + digit(low)
}

// A colour by the six digits of its `hex`.
fn digits_color(alpha: Dec, digits: &[u8; 6]) -> Content<'static>
    requires { IsHex digits.now }
    ensures { Some (content_view result) ≡ digits_color alpha digits.now }
{
    color_of(
        "red",
        Quantity::Byte(byte(digits[0], digits[1])),
        Quantity::Byte(byte(digits[2], digits[3])),
        Quantity::Byte(byte(digits[4], digits[5])),
        alpha,
    )
}

// A colour by its `hex`, or none where it has no `hex`.
fn hex_color(color: &Color) -> Option<Content<'static>>
    requires { IsColor color.now }
    ensures { option_map content_view result
        ≡ option_and_then (digits_color color.now.alpha) color.now.hex }
{
    match &color.hex {
        Some(digits) => Some(digits_color(color.alpha, digits)),
        None => None,
    }
}

/// A colour of its components in sRGB and Display P3, else of its digits.
pub(crate) fn color_content(color: &Color) -> Option<Content<'static>>
    requires { IsColor color.now }
    ensures { option_map content_view result ≡ color_content color.now }
{
    if let Some(label) = red_label(color.space) {
        if let Some(content) = component_color(label, color) {
            return Some(content);
        }
    }
    hex_color(color)
}
