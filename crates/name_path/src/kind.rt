//! The kinds of tokens.

ghost use Rattle.std.specs.Prelude.{◌≡◌, ◌≢◌, MatchOption};
ghost use Rattle.name_path.specs.declared.kind.Kind.{Kind};
ghost use Rattle.name_path.specs.Kinds.{kind_name, is_simple_kind};

use std::fmt;
use tk_io::is_same;

/// The kind of a token, by which its value is read (Format Module, sections on types).
#[derive(Clone, Copy, PartialEq, Eq)]
pub enum Kind {
    Color,
    Dimension,
    FontFamily,
    FontWeight,
    Duration,
    CubicBezier,
    Number,
    StrokeStyle,
    Border,
    Transition,
    Shadow,
    Gradient,
    Typography,
}

impl fmt::Debug for Kind {
    fn fmt<W: fmt::Write>(&self, f: &mut fmt::Formatter<W>) -> fmt::Result {
        f.write_str(self.name())
    }
}

impl Kind {
    /// The kind as `$type` spells it.
    pub fn name(self) -> &'static str
        ensures { result.now ≡ kind_name self }
    {
        match self {
            Kind::Color => "color",
            Kind::Dimension => "dimension",
            Kind::FontFamily => "fontFamily",
            Kind::FontWeight => "fontWeight",
            Kind::Duration => "duration",
            Kind::CubicBezier => "cubicBezier",
            Kind::Number => "number",
            Kind::StrokeStyle => "strokeStyle",
            Kind::Border => "border",
            Kind::Transition => "transition",
            Kind::Shadow => "shadow",
            Kind::Gradient => "gradient",
            Kind::Typography => "typography",
        }
    }

    /// Whether its values are made of no values of other kinds.
    pub fn is_simple(self) -> bool
        ensures { result ≡ is_simple_kind self }
    {
        match self {
            Kind::Color
            | Kind::Dimension
            | Kind::FontFamily
            | Kind::FontWeight
            | Kind::Duration
            | Kind::CubicBezier
            | Kind::Number => true,
            Kind::StrokeStyle
            | Kind::Border
            | Kind::Transition
            | Kind::Shadow
            | Kind::Gradient
            | Kind::Typography => false,
        }
    }

    /// The kind that is spelled so, or none where no kind is.
    pub fn named(text: &str) -> Option<Kind>
        ensures { MatchOption result ((kind : Kind) → kind_name kind ≢ text.now)
            (λ kind. kind_name kind ≡ text.now) }
    {
        for kind in &KINDS {
            if is_same(kind.name(), text) {
                return Some(*kind);
            }
        }
        None
    }
}

const KINDS: [Kind; 13] = [
    Kind::Color,
    Kind::Dimension,
    Kind::FontFamily,
    Kind::FontWeight,
    Kind::Duration,
    Kind::CubicBezier,
    Kind::Number,
    Kind::StrokeStyle,
    Kind::Border,
    Kind::Transition,
    Kind::Shadow,
    Kind::Gradient,
    Kind::Typography,
];
