//! Font weights.

ghost use Rattle.std.specs.Prelude.{◌≡◌, Ok, IfOk, IfErr};
ghost use Rattle.json_span.specs.PlainView.{plain_view};
ghost use Rattle.type_rules.specs.Answer.{IsBreak};
ghost use Rattle.type_rules.specs.Value.{weight_of_word, weight_of_number, weight_in};

use crate::fault::{ValueFault, ValueRule, or_broken};
use crate::forms::check_number;
use crate::parts::Part;
use crate::range::{Range, ranged};
use crate::words::meaning;
use dec_fix::Dec;
use json_span::Plain;
use std::alloc::Global;

/// The words for weights, and the number of each (Format Module 2025.10, font weight).
const WEIGHTS: [(&str, u16); 18] = [
    ("thin", 100),
    ("hairline", 100),
    ("extra-light", 200),
    ("ultra-light", 200),
    ("light", 300),
    ("normal", 400),
    ("regular", 400),
    ("book", 400),
    ("medium", 500),
    ("semi-bold", 600),
    ("demi-bold", 600),
    ("bold", 700),
    ("extra-bold", 800),
    ("ultra-bold", 800),
    ("black", 900),
    ("heavy", 900),
    ("extra-black", 950),
    ("ultra-black", 950),
];

fn weight_of_word<'s>(alloc: Global, word: &str) -> Result<Dec, ValueFault<'s>>
    ensures ok { IfOk result (λ weight. weight_of_word word.now ≡ Ok weight) }
    ensures broken { IfErr result (IsBreak (weight_of_word word.now)) }
{
    let number = or_broken(alloc, ValueRule::WeightWord, meaning(&WEIGHTS, word))?;
    Ok(Dec::whole(number))
}

fn weight_of_number<'s>(alloc: Global, plain: &Plain<'s>) -> Result<Dec, ValueFault<'s>>
    ensures ok { IfOk result (λ weight. weight_of_number (plain_view plain.now) ≡ Ok weight) }
    ensures broken { IfErr result (IsBreak (weight_of_number (plain_view plain.now))) }
{
    let number = check_number(alloc, plain)?;
    ranged(
        alloc,
        ValueRule::WeightRange,
        Range::Within(1, 1000),
        number,
    )
}

/// The weight of a font, which is a number.
#[derive(Clone, Copy, Debug)]
pub struct Weight;

/// A number within 1 to 1000, or a word that stands for one.
impl<'s> Part<'s> for Weight {
    type Typed = Dec;

    ghost part_in = { λ _. weight_in };

    fn check(alloc: Global, plain: &Plain<'s>, _legacy: bool) -> Result<Dec, ValueFault<'s>> {
        match plain.as_text() {
            Some(word) => weight_of_word(alloc, word.as_str()),
            None => weight_of_number(alloc, plain),
        }
    }
}
