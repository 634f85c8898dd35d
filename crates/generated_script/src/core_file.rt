//! The generated file `core.json`: chains of ten tokens, each with a literal at its start.

ghost use Rattle.std.specs.Prelude.{◌≡◌, ◌<◌, ◌≤◌, ◌^◌, ◌++◌, codes, IfOk, OnOk};
ghost use Rattle.std.specs.Fmt.{decimal};
ghost use Rattle.generated_script.specs.Script.{edit_count};
ghost use Rattle.generated_script.specs.Tokens.{core_text, edited, generated_token};
ghost use Rattle.generated_script.specs.Tokens.{generated_value, literal};
ghost use Rattle.generated_script.specs.declared.script.TheConstants.{MOST_TOKENS};

use itoa::Buffer;
use std::alloc::Global;
use tk_io::{Bytes, NoMemory};

// The token whose literal the edit changes.
fn edited(seed: u64, size: u64, edit: u64) -> u64
    requires { (seed < 2 ^ 32) × (1 ≤ size) × (size ≤ MOST_TOKENS) × (edit ≤ edit_count) }
    ensures { result ≡ edited seed size edit }
{
    let blocks = (size + 9) / 10;
    10 * ((seed + 7 * edit) % blocks)
}

// The literal of a token after so many edits.
fn literal(seed: u64, size: u64, edits: u64, i: u64) -> u64
    requires { (seed < 2 ^ 32) × (1 ≤ size) × (size ≤ MOST_TOKENS) × (edits ≤ edit_count)
        × (i < size) }
    ensures { result ≡ literal seed size edits i }
{
    let mut number = (seed + i) % 100;
    for edit in 1..edits + 1 {
        if edited(seed, size, edit) == i {
            number = 100 + edit;
        }
    }
    number
}

/// Adds the number's digits.
pub(crate) fn add_number(out: &mut Bytes, number: u64) -> Result<(), NoMemory>
    ensures { OnOk result (out.new ≡ out.old ++ decimal number) }
{
    let mut buffer = Buffer::new();
    out.append(buffer.format(number).as_bytes())?;
    Ok(())
}

fn add_literal(out: &mut Bytes, number: u64) -> Result<(), NoMemory>
    ensures { OnOk result (out.new
        ≡ out.old ++ (codes "{\"value\":" ++ (decimal number ++ codes ",\"unit\":\"px\"}"))) }
{
    out.append(b"{\"value\":")?;
    add_number(out, number)?;
    out.append(b",\"unit\":\"px\"}")?;
    Ok(())
}

// Adds a reference to the token of this number.
fn add_alias(out: &mut Bytes, i: u64) -> Result<(), NoMemory>
    ensures { OnOk result (out.new
        ≡ out.old ++ (codes "\"{t.n" ++ (decimal i ++ codes "}\""))) }
{
    out.append(b"\"{t.n")?;
    add_number(out, i)?;
    out.append(b"}\"")?;
    Ok(())
}

// Adds the value of the i-th token as it stands after so many edits: a literal, or a reference to an earlier token.
fn add_value(out: &mut Bytes, seed: u64, size: u64, edits: u64, i: u64) -> Result<(), NoMemory>
    requires { (seed < 2 ^ 32) × (1 ≤ size) × (size ≤ MOST_TOKENS) × (edits ≤ edit_count)
        × (i < size) }
    ensures { OnOk result (out.new ≡ out.old ++ generated_value seed size edits i) }
{
    if i % 10 == 0 {
        add_literal(out, literal(seed, size, edits, i))
    } else {
        add_alias(out, i - 1)
    }
}

fn add_token(out: &mut Bytes, seed: u64, size: u64, edits: u64, i: u64) -> Result<(), NoMemory>
    requires { (seed < 2 ^ 32) × (1 ≤ size) × (size ≤ MOST_TOKENS) × (edits ≤ edit_count)
        × (i < size) }
    ensures { OnOk result (out.new ≡ out.old ++ generated_token seed size edits i) }
{
    out.append(b",\"n")?;
    add_number(out, i)?;
    out.append(b"\":{\"$value\":")?;
    add_value(out, seed, size, edits, i)?;
    out.append(b"}")?;
    Ok(())
}

/// The file after so many edits.
#[tactic(auto, unfolding(crate::specs::Tokens::core_text))]
pub(crate) fn core_text(alloc: Global, seed: u64, size: u64, edits: u64) -> Result<Bytes, NoMemory>
    requires { (seed < 2 ^ 32) × (1 ≤ size) × (size ≤ MOST_TOKENS) × (edits ≤ edit_count) }
    ensures { IfOk result (λ text. text ≡ core_text seed size edits) }
{
    let mut text = Bytes::new(alloc);
    text.append(b"{\"t\":{\"$type\":\"dimension\"")?;
    for i in 0..size {
        add_token(&mut text, seed, size, edits, i)?;
    }
    text.append(b"}}")?;
    Ok(text)
}
