//! Strings at the fronts of texts.

ghost use Rattle.std.specs.Prelude.{◌≡◌, ◌<◌, ◌≤◌, ◌++◌, ◌∷◌, [], ℕ, List, length, IfSome, IfNone};
ghost use Rattle.std.specs.Prelude.{IfOk, OnOk};
ghost use Rattle.std.specs.String.{string_bytes};
ghost use Rattle.json_span.specs.Spelling.{inside_text, string_text};
ghost use Rattle.certificates.specs.inner.Fronts.{Lacks, Finds};

use crate::CertStop;
use crate::cut::cut;
use crate::escape::behind_backslash;
use std::alloc::Global;
use tk_io::{NoMemory, behind};

/// What stands before the next backslash, and what stands after it; none where a quote stands before it.
fn before_backslash(text: &str) -> Option<(&str, &str)>
    ensures found { IfSome result (λ p. (text.now ≡ p.0.now ++ 92 ∷ p.1.now)
        × Lacks 92 p.0.now × Lacks 34 p.0.now) }
    ensures none { IfNone result ((inside rest : List ℕ) → text.now ≡ inside ++ 34 ∷ rest
        → Lacks 34 inside → Lacks 92 inside) }
{
    let Some((plain, behind)) = cut(text, '\\') else {
        return None;
    };
    match cut(plain, '"') {
        Some(_) => None,
        None => Some((plain, behind)),
    }
}

fn add(characters: &mut String, plain: &str) -> Result<(), NoMemory>
    ensures { OnOk result (string_bytes characters.new ≡ string_bytes characters.old ++ plain.now) }
{
    characters.push_str(plain)?;
    Ok(())
}

fn add_one(characters: &mut String, c: char) -> Result<(), NoMemory>
    ensures { OnOk result (c < 128
        → string_bytes characters.new ≡ string_bytes characters.old ++ c ∷ []) }
{
    characters.push(c)?;
    Ok(())
}

/// The characters up to the closing quote, behind those that were read, and what follows the quote.
fn closed<'s>(mut characters: String, text: &'s str) -> Result<(String, &'s str), CertStop>
    ensures found { (inside rest : List ℕ) → text.entry.now ≡ inside ++ 34 ∷ rest → Lacks 34 inside
        → Finds result (λ r. (string_bytes r.0 ≡ string_bytes characters ++ inside)
        × (r.1.now ≡ rest)) }
    ensures left { IfOk result (λ r. length r.1.now ≤ length text.entry.now) }
{
    let Some((plain, rest)) = cut(text, '"') else {
        return Err(CertStop::BadCert);
    };
    add(&mut characters, plain)?;
    Ok((characters, rest))
}

/// The characters whose spelling stands at the front of the text up to a quote, and what follows that.
fn inside_string<'s>(alloc: Global, text: &'s str) -> Result<(String, &'s str), CertStop>
    ensures found { (s rest : List ℕ) → text.entry.now ≡ inside_text s ++ 34 ∷ rest
        → Finds result (λ r. (string_bytes r.0 ≡ s) × (r.1.now ≡ rest)) }
    ensures left { IfOk result (λ r. length r.1.now ≤ length text.entry.now) }
{
    let mut characters = String::new(alloc);
    let mut left = text;
    while let Some((plain, escape)) = before_backslash(left) {
        add(&mut characters, plain)?;
        let Some((meant, rest)) = behind_backslash(escape) else {
            return Err(CertStop::BadCert);
        };
        add_one(&mut characters, meant)?;
        left = rest;
    }
    closed(characters, left)
}

/// The string that stands at the front of the text, and what follows it.
pub(crate) fn front_string<'s>(alloc: Global, text: &'s str) -> Result<(String, &'s str), CertStop>
    ensures found { (s rest : List ℕ) → text.entry.now ≡ string_text s ++ rest
        → Finds result (λ r. (string_bytes r.0 ≡ s) × (r.1.now ≡ rest)) }
    ensures left { IfOk result (λ r. length r.1.now ≤ length text.entry.now) }
{
    match behind(text, '"') {
        Some(inside) => inside_string(alloc, inside),
        None => Err(CertStop::BadCert),
    }
}
