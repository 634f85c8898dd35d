//! A text that is a slice of a source, or shared.

ghost use Rattle.std.specs.Prelude.{◌≡◌, ◌≢◌, ◌<◌, ◌==◌, ◌++◌, ◌∷◌, [], ℕ, List, Some, IfOk};
ghost use Rattle.std.specs.Prelude.{IfSome, IfNone, MatchOption, refl};
ghost use Rattle.std.specs.Cmp as Cmp;
ghost use Rattle.std.specs.Cmp.Lexicographic.{nat_list_eq_equiv, nat_list_cmp_total, texts_po};
ghost use Rattle.std.specs.Cmp.Lexicographic.{texts_ties};
ghost use Rattle.std.specs.Cmp.Rules.{hashing};
ghost use Rattle.std.specs.Hash as fed;
ghost use Rattle.std.specs.List.{slice_split};
ghost use Rattle.std.specs.Str.{bytes_eq};
ghost use Rattle.std.specs.String.{string_bytes};
ghost use Rattle.std.proofs.Common.{rules};
ghost use Rattle.tk_io.specs.Order.{text_cmp};

use crate::NoMemory;
use crate::comparing::{is_same, order_of};
use std::alloc::Global;
use std::cmp::Ordering;
use std::fmt;
use std::hash::{Hash, Hasher};
use std::marker::Model;
use std::rc::RcStr;

/// A text, seen as the bytes of its UTF-8. It borrows from a source, or shares an owned text where the source spells
/// it by escapes.
#[derive(Drop)]
pub struct Text<'s> {
    kept: Kept<'s>,
}

#[derive(Drop)]
enum Kept<'s> {
    Slice(&'s str),
    Shared(RcStr),
}

impl<'s> Model for Text<'s> {
    ghost use Rattle.std.specs.Prelude.{List, ℕ};
    ghost use Rattle.tk_io.specs.Text.{text_bytes};

    ghost Value = { List ℕ };

    ghost view = { λ t. text_bytes t.kept };
}

impl<'s> Text<'s> {
    /// The slice itself.
    pub fn of(text: &'s str) -> Text<'s>
        ensures { result ≡ text.entry.now }
    {
        Text {
            kept: Kept::Slice(text),
        }
    }

    /// A shared text of these characters.
    pub fn owned(alloc: Global, text: &str) -> Result<Text<'s>, NoMemory>
        ensures { IfOk result (λ t. t ≡ text.now) }
    {
        let shared = RcStr::from_str(alloc, text)?;
        Ok(Text {
            kept: Kept::Shared(shared),
        })
    }

    /// A shared text of these characters, which are not copied.
    pub fn from_string(text: String) -> Result<Text<'s>, NoMemory>
        ensures { IfOk result (λ t. t ≡ string_bytes text) }
    {
        let shared = RcStr::from_string(text)?;
        Ok(Text {
            kept: Kept::Shared(shared),
        })
    }

    /// The characters.
    pub fn as_str(&self) -> &str
        ensures { result.now ≡ self.now }
    {
        match &self.kept {
            Kept::Slice(text) => text,
            Kept::Shared(text) => text.as_str(),
        }
    }

    /// A text of the same characters, which shares them.
    pub fn copy(&self) -> Result<Text<'s>, NoMemory>
        ensures { IfOk result (λ t. t ≡ self.now) }
    {
        match &self.kept {
            Kept::Slice(text) => Ok(Text {
                kept: Kept::Slice(text),
            }),
            Kept::Shared(text) => {
                let shared = text.clone()?;
                Ok(Text {
                    kept: Kept::Shared(shared),
                })
            }
        }
    }
}

/// What stands after the character at the text's beginning, or none where the text does not begin
/// with it.
pub fn behind<'a>(text: &'a str, first: char) -> Option<&'a str>
    requires { first < 128 }
    ensures { MatchOption result ((rest : List ℕ) → text.entry.now ≢ first ∷ rest)
        (λ rest. text.entry.now ≡ first ∷ rest.now) }
{
    text.strip_prefix(first)
}

// What stands before the character at the text's end.
fn before<'a>(text: &'a str, last: char) -> Option<&'a str>
    requires { last < 128 }
    ensures { MatchOption result ((front : List ℕ) → text.entry.now ≢ front ++ last ∷ [])
        (λ front. text.entry.now ≡ front.now ++ last ∷ []) }
{
    text.strip_suffix(last)
}

// What stands between the character at the text's beginning and the one at its end.
fn between<'a>(text: &'a str, first: char, last: char) -> Option<&'a str>
    requires { (first < 128) × (last < 128) }
    ensures some { IfSome result (λ inside. text.entry.now ≡ first ∷ (inside.now ++ last ∷ [])) }
    ensures none { IfNone result ((inside : List ℕ)
        → text.entry.now ≢ first ∷ (inside ++ last ∷ [])) }
{
    match behind(text, first) {
        Some(rest) => before(rest, last),
        None => None,
    }
}

// The slices of the text between the characters.
fn slices<'a>(alloc: Global, text: &'a str, at: char) -> Result<Vec<Text<'a>>, NoMemory>
    requires { at < 128 }
    ensures { IfOk result (λ pieces. pieces.items ≡ slice_split (λ b. b == at) text.entry.now) }
{
    let pieces = text.split(at).map(|piece| Text::of(piece)).collect(alloc)?;
    Ok(pieces)
}

// Shared texts of the same characters.
fn shared<'s>(alloc: Global, texts: &[Text<'_>]) -> Result<Vec<Text<'s>>, NoMemory>
    ensures { IfOk result (λ owned. owned.items ≡ texts.now) }
{
    let mut owned = Vec::new(alloc);
    for text in texts {
        owned.push(Text::owned(alloc, text.as_str())?)?;
    }
    Ok(owned)
}

impl<'s> Text<'s> {
    /// What stands between the character at the text's beginning and the one at its end, or none where it does not stand
    /// between them. Of a slice it is a slice.
    pub fn inside(
        &self,
        alloc: Global,
        first: char,
        last: char,
    ) -> Result<Option<Text<'s>>, NoMemory>
        requires { (first < 128) × (last < 128) }
        ensures some { IfOk result
            (λ found. IfSome found (λ t. self.now ≡ first ∷ (t ++ last ∷ []))) }
        ensures none { IfOk result
            (λ found. IfNone found ((t : List ℕ) → self.now ≢ first ∷ (t ++ last ∷ []))) }
    {
        match &self.kept {
            Kept::Slice(text) => match between(text, first, last) {
                Some(inside) => Ok(Some(Text::of(inside))),
                None => Ok(None),
            },
            Kept::Shared(text) => match between(text.as_str(), first, last) {
                Some(inside) => Ok(Some(Text::owned(alloc, inside)?)),
                None => Ok(None),
            },
        }
    }

    /// The pieces between the characters, which are one more than those. Of a slice they are slices.
    pub fn split(&self, alloc: Global, at: char) -> Result<Vec<Text<'s>>, NoMemory>
        requires { at < 128 }
        ensures { IfOk result (λ pieces. pieces.items ≡ slice_split (λ b. b == at) self.now) }
    {
        match &self.kept {
            Kept::Slice(text) => slices(alloc, text, at),
            Kept::Shared(text) => {
                let pieces = slices(alloc, text.as_str(), at)?;
                shared(alloc, pieces.as_slice())
            }
        }
    }
}

impl<'s> fmt::Debug for Text<'s> {
    fn fmt<W: fmt::Write>(&self, f: &mut fmt::Formatter<W>) -> fmt::Result {
        fmt::Debug::fmt(self.as_str(), f)
    }
}

/// Texts are equal where their bytes are.
impl<'s> PartialEq for Text<'s> {
    ghost eq = { λ x y. bytes_eq x y };

    ghost laws = { Cmp.partial_equiv_from_equiv nat_list_eq_equiv };

    fn eq(&self, other: &Self) -> bool {
        is_same(self.as_str(), other.as_str())
    }
}

impl<'s> Eq for Text<'s> {
    ghost laws = { nat_list_eq_equiv };
}

/// Texts are ordered by their bytes.
impl<'s> PartialOrd for Text<'s> {
    ghost partial_cmp = { λ x y. Some (text_cmp x y) };

    ghost laws = { texts_po };

    fn partial_cmp(&self, other: &Self) -> Option<Ordering> {
        Some(self.cmp(other))
    }
}

impl<'s> Ord for Text<'s> {
    ghost cmp = { λ x y. text_cmp x y };

    ghost total = { nat_list_cmp_total };

    ghost matches_partial_cmp = { λ x y. refl };

    ghost matches_eq = { λ x y. texts_ties x y };

    fn cmp(&self, other: &Self) -> Ordering {
        order_of(self.as_str(), other.as_str())
    }
}

/// The empty text.
impl<'s> Default for Text<'s> {
    ghost is_default = { λ t. t ≡ [] };

    fn default() -> Text<'s> {
        Text::of("")
    }
}

impl<'s> Hash for Text<'s> {
    ghost hash_input = { λ s. fed.str s };

    ghost respects_eq = { Prim.search (hashing, rules) };

    fn hash<H: Hasher>(&self, state: &mut H) {
        self.as_str().hash(state);
    }
}
