//! What the constant of a value holds.

ghost use Rattle.std.specs.Prelude.{◌≡◌, Some, option_map};
ghost use Rattle.type_rules.specs.Sound.{IsSize, IsTime, IsSimple};
ghost use Rattle.ios_out.specs.PlatformValue.{is_rem, points, size_content, seconds_in};
ghost use Rattle.ios_out.specs.PlatformValue.{time_content, curve_content, simple_content};
ghost use Rattle.ios_out.specs.inner.View.{content_view};

use crate::color::color_content;
use crate::family::family_content;
use dec_fix::Dec;
use transforms::{Config, scale_rem};
use type_rules::{Curve, Simple, Size, SizeUnit, Time, TimeUnit};

/// A number, or a byte over 255.
#[derive(Clone, Copy)]
pub(crate) enum Quantity {
    Number(Dec),
    Byte(u8),
}

/// An argument of a constructor.
#[derive(Clone, Copy)]
pub(crate) enum Argument {
    Labelled(&'static str, Quantity),
    Bare(Quantity),
}

/// The type of a constant that is a number.
#[derive(Clone, Copy)]
pub(crate) enum NumberType {
    CgFloat,
    TimeInterval,
    Double,
}

/// What a constant holds.
#[derive(Clone, Copy)]
pub(crate) enum Content<'a> {
    /// A number of a type.
    Number(NumberType, Dec),
    /// A string.
    Text(&'a str),
    /// What a constructor makes of four arguments.
    Made(&'static str, Argument, Argument, Argument, Argument),
}

fn is_rem(unit: SizeUnit) -> bool
    ensures { result ≡ is_rem unit }
{
    match unit {
        SizeUnit::Px => false,
        SizeUnit::Rem => true,
    }
}

/// A length in points.
pub(crate) fn points(cfg: &Config, size: &Size) -> Dec
    requires { IsSize size.now }
    ensures { result ≡ points cfg.now size.now }
{
    scale_rem(&size.value, is_rem(size.unit), cfg.rem_base)
}

fn size_content(cfg: &Config, size: &Size) -> Content<'static>
    requires { IsSize size.now }
    ensures { content_view result ≡ size_content cfg.now size.now }
{
    Content::Number(NumberType::CgFloat, points(cfg, size))
}

fn seconds(time: &Time) -> Dec
    requires { IsTime time.now }
    ensures { result ≡ seconds_in time.now.unit time.now.value }
{
    match time.unit {
        TimeUnit::Ms => time.value.over_1000(),
        TimeUnit::S => time.value,
    }
}

fn time_content(time: &Time) -> Content<'static>
    requires { IsTime time.now }
    ensures { content_view result ≡ time_content time.now }
{
    Content::Number(NumberType::TimeInterval, seconds(time))
}

fn curve_content(curve: &Curve) -> Content<'static>
    ensures { content_view result ≡ curve_content curve.now }
{
    Content::Made(
        "CAMediaTimingFunction",
        Argument::Labelled("controlPoints", Quantity::Number(curve.x1)),
        Argument::Bare(Quantity::Number(curve.y1)),
        Argument::Bare(Quantity::Number(curve.x2)),
        Argument::Bare(Quantity::Number(curve.y2)),
    )
}

/// What the constant of a simple value holds, where it has one.
pub(crate) fn simple_content<'a>(cfg: &Config, simple: &'a Simple<'_>) -> Option<Content<'a>>
    requires { IsSimple simple.now }
    ensures { option_map content_view result ≡ simple_content cfg.now simple.now }
{
    match simple {
        Simple::Color(color) => color_content(color),
        Simple::Dimension(size) => Some(size_content(cfg, size)),
        Simple::FontFamily(families) => family_content(families.as_slice()),
        Simple::FontWeight(weight) => Some(Content::Number(NumberType::Double, *weight)),
        Simple::Duration(time) => Some(time_content(time)),
        Simple::CubicBezier(curve) => Some(curve_content(curve)),
        Simple::Number(number) => Some(Content::Number(NumberType::Double, *number)),
    }
}
