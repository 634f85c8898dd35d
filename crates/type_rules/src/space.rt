//! The colour spaces, and the ranges of their components.

ghost use Rattle.std.specs.Prelude.{◌≡◌};
ghost use Rattle.type_rules.specs.Ranges.{ranges_of};
ghost use Rattle.type_rules.specs.Words.{space_name};

use crate::range::Range;
use std::fmt;

/// The space in which the components of a colour stand (Color Module 2025.10).
#[derive(Clone, Copy, PartialEq, Eq)]
pub enum Space {
    Srgb,
    SrgbLinear,
    DisplayP3,
    A98Rgb,
    ProphotoRgb,
    Rec2020,
    XyzD65,
    XyzD50,
    Hsl,
    Hwb,
    Lab,
    Lch,
    Oklab,
    Oklch,
}

impl fmt::Debug for Space {
    fn fmt<W: fmt::Write>(&self, f: &mut fmt::Formatter<W>) -> fmt::Result {
        f.write_str(self.name())
    }
}

/// The ranges of the three components of a colour.
#[derive(Clone, Copy)]
pub(crate) struct Ranges {
    pub first: Range,
    pub second: Range,
    pub third: Range,
}

/// The spaces by their names.
pub(crate) const SPACES: [(&str, Space); 14] = [
    ("srgb", Space::Srgb),
    ("srgb-linear", Space::SrgbLinear),
    ("display-p3", Space::DisplayP3),
    ("a98-rgb", Space::A98Rgb),
    ("prophoto-rgb", Space::ProphotoRgb),
    ("rec2020", Space::Rec2020),
    ("xyz-d65", Space::XyzD65),
    ("xyz-d50", Space::XyzD50),
    ("hsl", Space::Hsl),
    ("hwb", Space::Hwb),
    ("lab", Space::Lab),
    ("lch", Space::Lch),
    ("oklab", Space::Oklab),
    ("oklch", Space::Oklch),
];

impl Space {
    /// The space as `colorSpace` spells it.
    pub fn name(self) -> &'static str
        ensures { result.now ≡ space_name self }
    {
        match self {
            Space::Srgb => "srgb",
            Space::SrgbLinear => "srgb-linear",
            Space::DisplayP3 => "display-p3",
            Space::A98Rgb => "a98-rgb",
            Space::ProphotoRgb => "prophoto-rgb",
            Space::Rec2020 => "rec2020",
            Space::XyzD65 => "xyz-d65",
            Space::XyzD50 => "xyz-d50",
            Space::Hsl => "hsl",
            Space::Hwb => "hwb",
            Space::Lab => "lab",
            Space::Lch => "lch",
            Space::Oklab => "oklab",
            Space::Oklch => "oklch",
        }
    }

    pub(crate) fn ranges(self) -> Ranges
        ensures { result ≡ ranges_of self }
    {
        match self {
            Space::Srgb
            | Space::SrgbLinear
            | Space::DisplayP3
            | Space::A98Rgb
            | Space::ProphotoRgb
            | Space::Rec2020 => Ranges::of(Range::SHARE, Range::SHARE, Range::SHARE),
            Space::XyzD65 | Space::XyzD50 => Ranges::of(Range::Free, Range::Free, Range::Free),
            Space::Hsl | Space::Hwb => Ranges::of(Range::HUE, Range::PERCENT, Range::PERCENT),
            Space::Lab => Ranges::of(Range::PERCENT, Range::Free, Range::Free),
            Space::Lch => Ranges::of(Range::PERCENT, Range::AtLeast(0), Range::HUE),
            Space::Oklab => Ranges::of(Range::SHARE, Range::Free, Range::Free),
            Space::Oklch => Ranges::of(Range::SHARE, Range::AtLeast(0), Range::HUE),
        }
    }
}

impl Ranges {
    // The ranges of three components.
    fn of(first: Range, second: Range, third: Range) -> Ranges
        ensures { result ≡ record { first = first; second = second; third = third } }
    {
        Ranges {
            first,
            second,
            third,
        }
    }
}
