//! Font families.

ghost use Rattle.type_rules.specs.Value.{families_in};

use crate::fault::ValueFault;
use crate::parts::{Part, one, some_of};
use json_span::Plain;
use std::alloc::Global;
use tk_io::{Sequence, Text};

/// One or more font families, the preferred first.
pub type Families<'s> = Sequence<Text<'s>>;

/// A text, or a list of one or more texts.
impl<'s> Part<'s> for Families<'s> {
    type Typed = Families<'s>;

    ghost part_in = { λ _. families_in };

    fn check(
        alloc: Global,
        plain: &Plain<'s>,
        legacy: bool,
    ) -> Result<Families<'s>, ValueFault<'s>> {
        match plain.as_text() {
            Some(family) => {
                let copy = family.copy()?;
                let families = one(alloc, copy)?;
                Ok(families)
            }
            None => some_of::<Text<'s>>(alloc, plain, legacy),
        }
    }
}
