//! Stroke styles.

ghost use Rattle.std.specs.Prelude.{◌≡◌, Ok, IfOk, IfErr};
ghost use Rattle.json_span.specs.PlainView.{plain_view, plain_fields_view};
ghost use Rattle.type_rules.specs.Answer.{IsFound, IsBreak};
ghost use Rattle.composite_rules.specs.Value.{stroke_of_word, lengths_member, dashes_in, stroke_in};
ghost use Rattle.composite_rules.specs.Words.{stroke_word_name, cap_name};

use json_span::{Plain, PlainFields};
use std::alloc::Global;
use std::fmt;
use tk_io::Sequence;
use type_rules::{
    Part, Size, ValueFault, ValueRule, list_of, meaning, members_of, or_broken, required, under,
    word_under,
};

/// A style that has a word of its own (Format Module 2025.10, stroke style).
#[derive(Clone, Copy, PartialEq, Eq)]
pub enum StrokeWord {
    Solid,
    Dashed,
    Dotted,
    Double,
    Groove,
    Ridge,
    Outset,
    Inset,
}

impl fmt::Debug for StrokeWord {
    fn fmt<W: fmt::Write>(&self, f: &mut fmt::Formatter<W>) -> fmt::Result {
        f.write_str(self.name())
    }
}

/// How the dashes of a stroke end.
#[derive(Clone, Copy, Debug, PartialEq, Eq)]
pub enum Cap {
    Round,
    Butt,
    Square,
}

/// Lengths of dashes and of the gaps between them.
pub type Sizes = Sequence<Size>;

/// How a stroke is drawn.
#[derive(Drop)]
pub enum Stroke {
    Word(StrokeWord),
    /// Dashes and gaps of these lengths in turn, and how the dashes end.
    Dashes(Sizes, Cap),
}

impl fmt::Debug for Stroke {
    fn fmt<W: fmt::Write>(&self, f: &mut fmt::Formatter<W>) -> fmt::Result {
        f.write_str("Stroke")
    }
}

const WORDS: [(&str, StrokeWord); 8] = [
    ("solid", StrokeWord::Solid),
    ("dashed", StrokeWord::Dashed),
    ("dotted", StrokeWord::Dotted),
    ("double", StrokeWord::Double),
    ("groove", StrokeWord::Groove),
    ("ridge", StrokeWord::Ridge),
    ("outset", StrokeWord::Outset),
    ("inset", StrokeWord::Inset),
];

const CAPS: [(&str, Cap); 3] = [
    ("round", Cap::Round),
    ("butt", Cap::Butt),
    ("square", Cap::Square),
];

impl StrokeWord {
    /// The word as a value spells it.
    pub fn name(self) -> &'static str
        ensures { result.now ≡ stroke_word_name self }
    {
        match self {
            StrokeWord::Solid => "solid",
            StrokeWord::Dashed => "dashed",
            StrokeWord::Dotted => "dotted",
            StrokeWord::Double => "double",
            StrokeWord::Groove => "groove",
            StrokeWord::Ridge => "ridge",
            StrokeWord::Outset => "outset",
            StrokeWord::Inset => "inset",
        }
    }
}

impl Cap {
    /// The cap as `lineCap` spells it.
    pub fn name(self) -> &'static str
        ensures { result.now ≡ cap_name self }
    {
        match self {
            Cap::Round => "round",
            Cap::Butt => "butt",
            Cap::Square => "square",
        }
    }
}

fn stroke_of_word<'s>(alloc: Global, text: &str) -> Result<Stroke, ValueFault<'s>>
    ensures ok { IfOk result (λ stroke. stroke_of_word text.now ≡ Ok stroke) }
    ensures broken { IfErr result (IsBreak (stroke_of_word text.now)) }
{
    let word = or_broken(alloc, ValueRule::StrokeWord, meaning(&WORDS, text))?;
    Ok(Stroke::Word(word))
}

fn lengths_under<'s>(
    alloc: Global,
    members: &PlainFields<'s>,
    legacy: bool,
) -> Result<Sizes, ValueFault<'s>>
    ensures ok { IfOk result (IsFound (lengths_member legacy (plain_fields_view members.now))) }
    ensures broken { IfErr result (IsBreak (lengths_member legacy (plain_fields_view members.now))) }
{
    let plain = required(alloc, members, "dashArray")?;
    under(alloc, "dashArray", list_of::<Size>(alloc, plain, legacy))
}

// A stroke style that is an object: its dashes and its cap.
fn dashes_of<'s>(alloc: Global, plain: &Plain<'s>, legacy: bool) -> Result<Stroke, ValueFault<'s>>
    ensures ok { IfOk result (λ stroke. dashes_in legacy (plain_view plain.now) ≡ Ok stroke) }
    ensures broken { IfErr result (IsBreak (dashes_in legacy (plain_view plain.now))) }
{
    let members = members_of(alloc, plain)?;
    let lengths = lengths_under(alloc, members, legacy)?;
    let cap = word_under(alloc, ValueRule::StrokeCap, &CAPS, members, "lineCap")?;
    Ok(Stroke::Dashes(lengths, cap))
}

/// A word, or an object of a list `dashArray` of lengths and a word `lineCap`, checked in this
/// order.
impl<'s> Part<'s> for Stroke {
    type Typed = Stroke;

    ghost part_in = { stroke_in };

    fn check(alloc: Global, plain: &Plain<'s>, legacy: bool) -> Result<Stroke, ValueFault<'s>> {
        match plain.as_text() {
            Some(text) => stroke_of_word(alloc, text.as_str()),
            None => dashes_of(alloc, plain, legacy),
        }
    }
}
