//! Values of every kind.

ghost use Rattle.std.specs.Prelude.{◌≡◌, true, IfOk, IfErr};
ghost use Rattle.name_path.specs.Kinds.{is_simple_kind};
ghost use Rattle.type_rules.specs.Answer.{IsFound, IsBreak, seen};
ghost use Rattle.composite_rules.specs.Sound.{kind_of};
ghost use Rattle.composite_rules.specs.Value.{value_of};

use crate::border::Border;
use crate::gradient::{Stops, stops_of};
use crate::shadow::{Shadows, shadows_of};
use crate::stroke::Stroke;
use crate::transition::Transition;
use crate::typography::Typography;
use json_span::Plain;
use name_path::Kind;
use std::alloc::Global;
use std::fmt;
use type_rules::{Part, Simple, ValueFault, check_simple};

/// A value of a kind.
#[derive(Drop)]
pub enum Typed<'s> {
    /// A value that is made of no values of other kinds.
    Simple(Simple<'s>),
    StrokeStyle(Stroke),
    Border(Border),
    Transition(Transition),
    Shadow(Shadows),
    Gradient(Stops),
    Typography(Typography<'s>),
}

impl fmt::Debug for Typed<'_> {
    fn fmt<W: fmt::Write>(&self, f: &mut fmt::Formatter<W>) -> fmt::Result {
        f.write_str("Typed")
    }
}

impl<'s> Typed<'s> {
    /// The kind that the value is of.
    pub fn kind(&self) -> Kind
        ensures { result ≡ kind_of self.now }
    {
        match self {
            Typed::Simple(simple) => simple.kind(),
            Typed::StrokeStyle(_) => Kind::StrokeStyle,
            Typed::Border(_) => Kind::Border,
            Typed::Transition(_) => Kind::Transition,
            Typed::Shadow(_) => Kind::Shadow,
            Typed::Gradient(_) => Kind::Gradient,
            Typed::Typography(_) => Kind::Typography,
        }
    }
}

// A value of a kind whose values hold no others.
fn simple_of<'s>(
    alloc: Global,
    kind: Kind,
    plain: &Plain<'s>,
    legacy: bool,
) -> Result<Typed<'s>, ValueFault<'s>>
    requires { is_simple_kind kind ≡ true }
    ensures ok { IfOk result (IsFound (seen (value_of legacy kind) plain.now)) }
    ensures broken { IfErr result (IsBreak (seen (value_of legacy kind) plain.now)) }
{
    let simple = check_simple(alloc, kind, plain, legacy)?;
    Ok(Typed::Simple(simple))
}

/// The value under the kind, or the first rule that it breaks. Where `legacy` is true, a text stands for a length, a time
/// or a colour, also as a part of the value.
///
/// # Errors
/// `Broken` with the first broken rule in the order of the kind's parts, each part from its first
/// to its last, and the steps to the part that breaks it, or to the object that lacks a member;
/// `NoMemory` where memory runs out.
pub fn check<'s>(
    alloc: Global,
    kind: Kind,
    plain: &Plain<'s>,
    legacy: bool,
) -> Result<Typed<'s>, ValueFault<'s>>
    ensures ok { IfOk result (IsFound (seen (value_of legacy kind) plain.now)) }
    ensures broken { IfErr result (IsBreak (seen (value_of legacy kind) plain.now)) }
{
    match kind {
        Kind::Color
        | Kind::Dimension
        | Kind::FontFamily
        | Kind::FontWeight
        | Kind::Duration
        | Kind::CubicBezier
        | Kind::Number => simple_of(alloc, kind, plain, legacy),
        Kind::StrokeStyle => Ok(Typed::StrokeStyle(Stroke::check(alloc, plain, legacy)?)),
        Kind::Border => Ok(Typed::Border(Border::check(alloc, plain, legacy)?)),
        Kind::Transition => Ok(Typed::Transition(Transition::check(alloc, plain, legacy)?)),
        Kind::Shadow => Ok(Typed::Shadow(shadows_of(alloc, plain, legacy)?)),
        Kind::Gradient => Ok(Typed::Gradient(stops_of(alloc, plain, legacy)?)),
        Kind::Typography => Ok(Typed::Typography(Typography::check(alloc, plain, legacy)?)),
    }
}
