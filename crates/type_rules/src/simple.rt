//! Values of the simple kinds.

ghost use Rattle.std.specs.Prelude.{◌≡◌, true, IfOk, IfErr};
ghost use Rattle.name_path.specs.Kinds.{is_simple_kind};
ghost use Rattle.type_rules.specs.Answer.{IsFound, IsBreak, seen};
ghost use Rattle.type_rules.specs.Sound.{kind_of};
ghost use Rattle.type_rules.specs.Value.{simple_value};

use crate::color::Color;
use crate::curve::Curve;
use crate::families::Families;
use crate::fault::ValueFault;
use crate::forms::check_number;
use crate::parts::Part;
use crate::size::Size;
use crate::time::Time;
use crate::weight::Weight;
use dec_fix::Dec;
use json_span::Plain;
use name_path::Kind;
use std::alloc::Global;
use std::fmt;

/// A value of a kind whose values are made of no values of other kinds.
#[derive(Drop)]
pub enum Simple<'s> {
    Color(Color),
    Dimension(Size),
    FontFamily(Families<'s>),
    /// Within 1 to 1000.
    FontWeight(Dec),
    Duration(Time),
    CubicBezier(Curve),
    Number(Dec),
}

impl fmt::Debug for Simple<'_> {
    fn fmt<W: fmt::Write>(&self, f: &mut fmt::Formatter<W>) -> fmt::Result {
        f.write_str("Simple")
    }
}

impl<'s> Simple<'s> {
    /// The kind that the value is of.
    pub fn kind(&self) -> Kind
        ensures { result ≡ kind_of self.now }
    {
        match self {
            Simple::Color(_) => Kind::Color,
            Simple::Dimension(_) => Kind::Dimension,
            Simple::FontFamily(_) => Kind::FontFamily,
            Simple::FontWeight(_) => Kind::FontWeight,
            Simple::Duration(_) => Kind::Duration,
            Simple::CubicBezier(_) => Kind::CubicBezier,
            Simple::Number(_) => Kind::Number,
        }
    }
}

/// The value under a kind whose values are made of no values of other kinds, or the first rule that
/// it breaks. Where `legacy` is true, a text stands for a length, a time or a colour: a JSON number
/// that its unit follows directly, or `#` and six or eight hexadecimal digits.
///
/// # Errors
/// `Broken` with the first broken rule in the order of the kind's parts, and the steps to the part
/// that breaks it; `NoMemory` where memory runs out.
pub fn check_simple<'s>(
    alloc: Global,
    kind: Kind,
    plain: &Plain<'s>,
    legacy: bool,
) -> Result<Simple<'s>, ValueFault<'s>>
    requires { is_simple_kind kind ≡ true }
    ensures ok { IfOk result (IsFound (seen (simple_value legacy kind) plain.now)) }
    ensures broken { IfErr result (IsBreak (seen (simple_value legacy kind) plain.now)) }
{
    match kind {
        Kind::Color => Ok(Simple::Color(Color::check(alloc, plain, legacy)?)),
        Kind::Dimension => Ok(Simple::Dimension(Size::check(alloc, plain, legacy)?)),
        Kind::FontFamily => Ok(Simple::FontFamily(Families::check(alloc, plain, legacy)?)),
        Kind::FontWeight => Ok(Simple::FontWeight(Weight::check(alloc, plain, legacy)?)),
        Kind::Duration => Ok(Simple::Duration(Time::check(alloc, plain, legacy)?)),
        Kind::CubicBezier => Ok(Simple::CubicBezier(Curve::check(alloc, plain, legacy)?)),
        Kind::Number => Ok(Simple::Number(check_number(alloc, plain)?)),
        Kind::StrokeStyle
        | Kind::Border
        | Kind::Transition
        | Kind::Shadow
        | Kind::Gradient
        | Kind::Typography => unreachable!(),
    }
}
