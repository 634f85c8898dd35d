//! Strings as texts: slices of the source where no escape stands in them.

ghost use Rattle.std.specs.Prelude.{◌≡◌, ◌≤◌, ℕ, List, length, drop, IfOk};
ghost use Rattle.std.specs.String.{string_bytes};
ghost use Rattle.std.specs.Str.{IsCharBoundary, bytes_eq};
ghost use Rattle.json_span.specs.Characters.{CharactersAt};
ghost use Rattle.json_span.specs.inner.Escapes.{HasCharacters};
ghost use Rattle.json_span.specs.Table.{IsString, StandsString};

use crate::bytes::{Class, has};
use crate::escape::read_escape;
use crate::scan::plain_end;
use std::alloc::Global;
use tk_io::{NoMemory, Text};

/// The characters of the string that stands there: a slice of the text where no escape stands in
/// it.
pub(crate) fn string_text<'s>(alloc: Global, text: &'s str, at: usize) -> Result<Text<'s>, NoMemory>
    requires { StandsString text.now at }
    ensures { IfOk result (λ t. (s : List ℕ) (end : ℕ) → IsString text.entry.now at s end → t ≡ s) }
{
    let plain = plain_end(text, at + 1);
    if has(text, plain, Class::One(b'"')) {
        return Ok(Text::of(&text[at + 1..plain]));
    }
    let characters = decode(alloc, text, at + 1)?;
    Text::owned(alloc, characters.as_str())
}

/// Whether these are the characters of the string that stands there. Only a string with an escape
/// is decoded, and nothing is kept of it.
pub(crate) fn is_string_of(text: &str, at: usize, characters: &str) -> bool
    requires { StandsString text.now at }
    ensures { (s : List ℕ) (end : ℕ) → IsString text.now at s end
        → result ≡ bytes_eq s characters.now }
{
    let plain = plain_end(text, at + 1);
    if has(text, plain, Class::One(b'"')) {
        return &text[at + 1..plain] == characters;
    }
    are_characters(text, at + 1, characters.as_bytes())
}

// The characters from there up to the closing quote.
fn decode(alloc: Global, text: &str, from: usize) -> Result<String, NoMemory>
    requires within { from ≤ length text.now }
    requires boundary { IsCharBoundary text.now from }
    requires content { HasCharacters (drop from text.now) }
    ensures { IfOk result (λ t. (s u : List ℕ) → CharactersAt (drop from text.now) s u
        → string_bytes t ≡ s) }
{
    let mut characters = String::new(alloc);
    let mut at = from;
    loop {
        let plain = plain_end(text, at);
        characters.push_str(&text[at..plain])?;
        if !has(text, plain, Class::One(b'\\')) {
            return Ok(characters);
        }
        let escaped = read_escape(&text.as_bytes()[plain..]);
        characters.push(escaped.character)?;
        at = plain + escaped.len;
    }
}

// Whether these are the characters from there up to the closing quote.
fn are_characters(text: &str, from: usize, characters: &[u8]) -> bool
    requires within { from ≤ length text.now }
    requires content { HasCharacters (drop from text.now) }
    ensures { (s u : List ℕ) → CharactersAt (drop from text.now) s u
        → result ≡ bytes_eq s characters.now }
{
    let mut rest = characters;
    let mut at = from;
    loop {
        let plain = plain_end(text, at);
        let Some(behind) = rest.strip_prefix(&text.as_bytes()[at..plain]) else {
            return false;
        };
        if !has(text, plain, Class::One(b'\\')) {
            return behind.is_empty();
        }
        let escaped = read_escape(&text.as_bytes()[plain..]);
        let mut buffer = [0; 4];
        let character = escaped.character.encode_utf8(&mut buffer).as_bytes();
        let Some(left) = behind.strip_prefix(character) else {
            return false;
        };
        rest = left;
        at = plain + escaped.len;
    }
}
