//! The rules of values, and why a value has no type.

ghost use Rattle.std.specs.Prelude.{◌≡◌, [], ◌∷◌, Ok, IfOk, IfErr, IsErrAnd};
ghost use Rattle.std.specs.Fmt.{decimal};
ghost use Rattle.type_rules.specs.Rules.{rule_name};
ghost use Rattle.type_rules.specs.Answer.{IsBreak, IsOutside};
ghost use Rattle.type_rules.specs.Checked.{or_broken};
ghost use Rattle.type_rules.specs.declared.fault.ValueFault.TheVariants.{NoMemory as OutOfMemory};

use itoa::Buffer;
use name_path::Trail;
use std::alloc::Global;
use std::fmt;
use tk_io::{NoMemory, Text};

/// A rule that a value or a part of it breaks.
#[derive(Clone, Copy, PartialEq, Eq)]
pub enum ValueRule {
    /// A part has another JSON form, or a member that must be there is missing.
    ValueShape,
    /// A number is not within the bounds of those that are read.
    NumberWide,
    /// The unit of a dimension is neither `px` nor `rem`.
    DimensionUnit,
    /// The unit of a duration is neither `ms` nor `s`.
    DurationUnit,
    /// The first or third number of a cubic Bézier curve is not within 0 to 1.
    BezierRange,
    /// The weight of a font is a number not within 1 to 1000.
    WeightRange,
    /// The weight of a font is a text that is no word for one.
    WeightWord,
    /// The colour space is none of the fourteen.
    ColorSpace,
    /// A component of a colour is out of its range.
    ColorRange,
    /// The alpha of a colour is not within 0 to 1.
    ColorAlpha,
    /// The `hex` of a colour is not `#` and six hexadecimal digits.
    ColorHex,
    /// A stroke style is a text that is no word for one.
    StrokeWord,
    /// The line cap of a stroke style is none of the three.
    StrokeCap,
    /// A text in the place of a length, a time or a colour is no number with a unit, and no `#` with six or eight
    /// hexadecimal digits.
    LegacyText,
}

impl fmt::Debug for ValueRule {
    fn fmt<W: fmt::Write>(&self, f: &mut fmt::Formatter<W>) -> fmt::Result {
        f.write_str(self.name())
    }
}

impl ValueRule {
    /// The rule as a refusal spells it.
    pub fn name(self) -> &'static str
        ensures { result.now ≡ rule_name self }
    {
        match self {
            ValueRule::ValueShape => "value-shape",
            ValueRule::NumberWide => "number-wide",
            ValueRule::DimensionUnit => "dimension-unit",
            ValueRule::DurationUnit => "duration-unit",
            ValueRule::BezierRange => "bezier-range",
            ValueRule::WeightRange => "weight-range",
            ValueRule::WeightWord => "weight-word",
            ValueRule::ColorSpace => "color-space",
            ValueRule::ColorRange => "color-range",
            ValueRule::ColorAlpha => "color-alpha",
            ValueRule::ColorHex => "color-hex",
            ValueRule::StrokeWord => "stroke-word",
            ValueRule::StrokeCap => "stroke-cap",
            ValueRule::LegacyText => "legacy-text",
        }
    }
}

/// Why a value has no type.
#[derive(Drop)]
pub enum ValueFault<'s> {
    /// The first rule that is broken, and the steps from the value to the part that breaks it:
    /// names of members, and indices of items in decimal digits.
    Broken { rule: ValueRule, trail: Trail<'s> },
    /// Memory ran out.
    NoMemory,
}

impl fmt::Debug for ValueFault<'_> {
    fn fmt<W: fmt::Write>(&self, f: &mut fmt::Formatter<W>) -> fmt::Result {
        f.write_str("ValueFault")
    }
}

impl<'s> From<NoMemory> for ValueFault<'s> {
    ghost from_gives = { λ _ e. e ≡ OutOfMemory };

    fn from(_: NoMemory) -> ValueFault<'s> {
        ValueFault::NoMemory
    }
}

/// The value itself breaks the rule.
pub fn broken<'s>(alloc: Global, rule: ValueRule) -> ValueFault<'s>
    ensures { result ≡ ValueFault.Broken rule [] }
{
    ValueFault::Broken {
        rule,
        trail: Trail::new(alloc),
    }
}

/// What is there, or the value breaks the rule.
pub fn or_broken<'s, T>(
    alloc: Global,
    rule: ValueRule,
    found: Option<T>,
) -> Result<T, ValueFault<'s>>
    ensures ok { IfOk result (λ x. or_broken rule found ≡ Ok x) }
    ensures broken { IfErr result (IsBreak (or_broken rule found)) }
{
    match found {
        Some(part) => Ok(part),
        None => Err(broken(alloc, rule)),
    }
}

// The step, and after it these steps.
fn before<'s>(alloc: Global, step: Text<'s>, steps: &Trail<'s>) -> Result<Trail<'s>, NoMemory>
    ensures { IfOk result (λ trail. trail ≡ step.entry ∷ steps.now) }
{
    let mut trail = Trail::new(alloc);
    trail.push(step)?;
    for step in steps.as_slice() {
        trail.push(step.copy()?)?;
    }
    Ok(trail)
}

// A fault of a part as its owner tells it: with one more step before the place.
fn outside<'s>(alloc: Global, step: Text<'s>, fault: ValueFault<'s>) -> ValueFault<'s>
    ensures { IsOutside step.entry fault.entry result }
{
    match fault {
        ValueFault::Broken { rule, trail } => match before(alloc, step, &trail) {
            Ok(trail) => ValueFault::Broken { rule, trail },
            Err(NoMemory) => ValueFault::NoMemory,
        },
        ValueFault::NoMemory => ValueFault::NoMemory,
    }
}

// The index in decimal digits.
fn index_text<'s>(alloc: Global, i: usize) -> Result<Text<'s>, NoMemory>
    ensures { IfOk result (λ text. text ≡ decimal i) }
{
    let mut buffer = Buffer::new();
    Text::owned(alloc, buffer.format(i))
}

// The same of a part that is the i-th item of a list.
fn outside_item<'s>(alloc: Global, i: usize, fault: ValueFault<'s>) -> ValueFault<'s>
    ensures { IsOutside (decimal i) fault.entry result }
{
    match index_text(alloc, i) {
        Ok(step) => outside(alloc, step, fault),
        Err(NoMemory) => ValueFault::NoMemory,
    }
}

/// What was found of the member of this name, seen from its object: a broken rule has the name as
/// its first step.
pub fn under<'s, T>(
    alloc: Global,
    name: &'s str,
    found: Result<T, ValueFault<'s>>,
) -> Result<T, ValueFault<'s>>
    ensures ok { IfOk found.entry (λ x. result ≡ Ok x) }
    ensures broken { IfErr found.entry (λ fault. IsErrAnd result (IsOutside name.entry.now fault)) }
{
    match found {
        Ok(part) => Ok(part),
        Err(fault) => Err(outside(alloc, Text::of(name), fault)),
    }
}

/// What was found of the i-th item, counted from 0, seen from its list: a broken rule has the index
/// as its first step.
pub fn at_item<'s, T>(
    alloc: Global,
    i: usize,
    found: Result<T, ValueFault<'s>>,
) -> Result<T, ValueFault<'s>>
    ensures ok { IfOk found.entry (λ x. result ≡ Ok x) }
    ensures broken { IfErr found.entry (λ fault. IsErrAnd result (IsOutside (decimal i) fault)) }
{
    match found {
        Ok(part) => Ok(part),
        Err(fault) => Err(outside_item(alloc, i, fault)),
    }
}
