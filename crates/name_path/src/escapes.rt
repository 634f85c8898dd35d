//! Escapes in the steps of a pointer (RFC 6901 section 3).

ghost use Rattle.std.specs.Prelude.{◌≡◌, ◌≢◌, ◌↔◌, ◌++◌, ◌∷◌, ℕ, List, All, IsTrue, OnOk, OnErr};
ghost use Rattle.std.specs.Prelude.{IfOk, IfSome, IfNone, IsErrOf, [], length, ◌<◌};
ghost use Rattle.std.specs.String.{string_bytes};
ghost use Rattle.tk_io.specs.Writing.{Extends};
ghost use Rattle.name_path.specs.Reference.{escaped_step};

use crate::RefStop;
use crate::pieces::around;
use std::alloc::Global;
use tk_io::{Bytes, NoMemory, behind};

/// What the escape after a `~` stands for and what follows it, or none where there is no escape.
fn behind_tilde<'a>(text: &'a str) -> Option<(&'static str, &'a str)>
    ensures some { IfSome result (λ p. 126 ∷ text.entry.now ≡ escaped_step p.0.now ++ p.1.now) }
    ensures shorter { IfSome result (λ p. length p.1.now < length text.entry.now) }
    ensures none { IfNone result ((rest : List ℕ)
        → (text.entry.now ≢ 48 ∷ rest) × (text.entry.now ≢ 49 ∷ rest)) }
{
    if let Some(rest) = behind(text, '0') {
        return Some(("~", rest));
    }
    if let Some(rest) = behind(text, '1') {
        return Some(("/", rest));
    }
    None
}

// Adds a piece of a step behind what stands there.
fn add(step: &mut String, piece: &str) -> Result<(), NoMemory>
    ensures { OnOk result (string_bytes step.new ≡ string_bytes step.old ++ piece.now) }
{
    step.push_str(piece)?;
    Ok(())
}

/// The step that a segment without `/` spells, or `BadRef` where a `~` is no escape.
pub fn unescaped(alloc: Global, segment: &str) -> Result<String, RefStop>
    requires { All (λ b. b ≢ 47) segment.now }
    ensures step { IfOk result (λ step. segment.now ≡ escaped_step (string_bytes step)) }
    ensures bad { IsErrOf result RefStop.BadRef
        → (step : List ℕ) → segment.now ≢ escaped_step step }
{
    let mut step = String::new(alloc);
    let mut left = segment;
    while let Some((plain, behind)) = around(left, '~') {
        add(&mut step, plain)?;
        let Some((meant, rest)) = behind_tilde(behind) else {
            return Err(RefStop::BadRef);
        };
        add(&mut step, meant)?;
        left = rest;
    }
    add(&mut step, left)?;
    Ok(step)
}

fn append_byte(byte: u8, out: &mut Bytes) -> Result<(), NoMemory>
    ensures ok { OnOk result (out.new ≡ out.old ++ escaped_step (byte ∷ [])) }
    ensures err { OnErr result (out.new ≡ out.old) }
{
    match byte {
        b'~' => out.append(b"~0"),
        b'/' => out.append(b"~1"),
        _ => out.append(&[byte]),
    }
}

fn append_bytes(step: &[u8], out: &mut Bytes) -> Result<(), NoMemory>
    ensures ok { OnOk result (out.new ≡ out.old ++ escaped_step step.now) }
    ensures err { OnErr result (Extends out.old out.new) }
{
    for byte in step {
        append_byte(*byte, out)?;
    }
    Ok(())
}

// Whether a step has neither `~` nor `/`, so that it is its own spelling.
fn is_plain(step: &[u8]) -> bool
    ensures { IsTrue result ↔ All (λ b. (b ≢ 126) × (b ≢ 47)) step.now }
{
    step.iter().all(|b| !matches!(*b, b'~' | b'/'))
}

/// Appends a step with `~` as `~0` and `/` as `~1`; of a refusal a part may stay.
pub fn append_escaped(step: &str, out: &mut Bytes) -> Result<(), NoMemory>
    ensures ok { OnOk result (out.new ≡ out.old ++ escaped_step step.now) }
    ensures err { OnErr result (Extends out.old out.new) }
{
    let bytes = step.as_bytes();
    if is_plain(bytes) {
        return out.append(bytes);
    }
    append_bytes(bytes, out)
}
