//! What a recipe makes: the text of each step once for each number from its first to its last, with the digits of the number in place
//! of each byte 1.

use crate::table::{Part, Step, Table};
use itoa::Buffer;
use tk_io::{Bytes, NoMemory};

/// The most steps of a recipe.
const MOST_STEPS: usize = 100_000;

/// Why a row is not run.
#[derive(Clone, Copy)]
pub(crate) enum Unrun {
    /// The table goes on with no recipe.
    NoRow,
    NoMemory,
}

impl From<NoMemory> for Unrun {
    fn from(_: NoMemory) -> Unrun {
        Unrun::NoMemory
    }
}

/// Appends the text with the digits in place of each byte 1.
fn append_filled(out: &mut Bytes, text: &str, digits: &str) -> Result<(), NoMemory> {
    for (place, piece) in text.split('\u{1}').enumerate() {
        if place > 0 {
            out.append(digits.as_bytes())?;
        }
        out.append(piece.as_bytes())?;
    }
    Ok(())
}

fn append_step(out: &mut Bytes, step: &Step<'_>) -> Result<(), NoMemory> {
    for number in step.first..=step.last {
        let mut buffer = Buffer::new();
        append_filled(out, step.text, buffer.format(number))?;
    }
    Ok(())
}

/// Appends what the recipe makes with which the table goes on.
pub(crate) fn append_recipe(out: &mut Bytes, table: &mut Table<'_>) -> Result<(), Unrun> {
    for _ in 0..MOST_STEPS {
        match table.part() {
            Some(Part::Step(step)) => append_step(out, &step)?,
            Some(Part::End) => return Ok(()),
            None => break,
        }
    }
    Err(Unrun::NoRow)
}
