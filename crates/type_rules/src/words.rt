//! Tables of words.

ghost use Rattle.std.specs.Prelude.{◌≡◌, IfOk, IfErr};
ghost use Rattle.type_rules.specs.Answer.{IsFound, IsBreak, seen};
ghost use Rattle.type_rules.specs.Words.{meaning, rows_of, word_by, word_at};

use crate::fault::{ValueFault, ValueRule, or_broken, under};
use crate::forms::{required, text_of};
use json_span::{Plain, PlainFields};
use std::alloc::Global;

/// What the word stands for by the table, or none where the table does not have it.
pub fn meaning<T: Copy>(table: &[(&str, T)], word: &str) -> Option<T>
    ensures { result ≡ meaning (rows_of table.now) word.now }
{
    for row in table {
        if row.0 == word {
            return Some(row.1);
        }
    }
    None
}

/// What the text that the value is stands for by the table. A text that the table does not have
/// breaks the rule, and every other value that on shapes.
pub fn word_of<'s, T: Copy>(
    alloc: Global,
    rule: ValueRule,
    table: &[(&str, T)],
    plain: &Plain<'s>,
) -> Result<T, ValueFault<'s>>
    ensures ok { IfOk result (IsFound (seen (word_by rule table.now) plain.now)) }
    ensures broken { IfErr result (IsBreak (seen (word_by rule table.now) plain.now)) }
{
    let word = text_of(alloc, plain)?;
    or_broken(alloc, rule, meaning(table, word.as_str()))
}

/// What the word under a name stands for by the table.
pub fn word_under<'s, T: Copy>(
    alloc: Global,
    rule: ValueRule,
    table: &[(&str, T)],
    members: &PlainFields<'s>,
    name: &'s str,
) -> Result<T, ValueFault<'s>>
    ensures ok { IfOk result (IsFound (word_at rule table.now name.entry.now members.now)) }
    ensures broken { IfErr result (IsBreak (word_at rule table.now name.entry.now members.now)) }
{
    let plain = required(alloc, members, name)?;
    under(alloc, name, word_of(alloc, rule, table, plain))
}
