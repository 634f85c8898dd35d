//! Reading one event, by its line.

ghost use Rattle.std.specs.Prelude.{◌≡◌, ℕ, false, true, List, ◌++◌, ◌∷◌, MatchOption, length};
ghost use Rattle.std.specs.Fmt.{decimal};
ghost use Rattle.edit_script.specs.Script.{EventData, HasSpelling, IsSpellable, IsSpelledNumber};
ghost use Rattle.edit_script.specs.Script.{has_kind, is_path, move, patch, put};
ghost use Rattle.edit_script.specs.View.{event_view};
ghost use Rattle.edit_script.specs.inner.Line.{behind_line, first_line, numbers_text};
ghost use Rattle.edit_script.specs.declared.version.Version.TheVariants.{First};

use crate::cut::{cut_at_first, cut_at_newline};
use crate::number::{cut_number, read_number};
use crate::path::is_path;
use crate::{Event, Version};

/// The event of this version with this line, whose text stands at the start of what is after the line.
pub(crate) fn event_of_line<'s>(
    version: Version,
    line: &'s str,
    behind: &'s str,
) -> Option<(Event<'s>, &'s str)>
    ensures { MatchOption result ((e : EventData) → (rest : List ℕ) → HasSpelling version e
        → line.entry.now ≡ first_line e → behind.entry.now ≡ behind_line e ++ rest → ⊥)
        (λ p. (line.entry.now ≡ first_line (event_view p.0))
        × (behind.entry.now ≡ behind_line (event_view p.0) ++ p.1.now)
        × HasSpelling version (event_view p.0)) }
{
    if line == "commit" {
        return Some((Event::Commit, behind));
    }
    if let Some(path) = line.strip_prefix("del ") {
        if !is_path(path) {
            return None;
        }
        return Some((Event::Del(path), behind));
    }
    if let Some(words) = line.strip_prefix("put ") {
        let (path, text, rest) = put_text(words, behind)?;
        return Some((Event::Put(path, text), rest));
    }
    match version {
        Version::First => None,
        Version::Second => event_of_second(line, behind),
    }
}

// The event with this line that the second version alone has.
fn event_of_second<'s>(line: &'s str, behind: &'s str) -> Option<(Event<'s>, &'s str)>
    ensures { MatchOption result ((e : EventData) → (rest : List ℕ) → has_kind First e ≡ false
        → IsSpellable e → line.entry.now ≡ first_line e
        → behind.entry.now ≡ behind_line e ++ rest → ⊥)
        (λ p. (line.entry.now ≡ first_line (event_view p.0))
        × (behind.entry.now ≡ behind_line (event_view p.0) ++ p.1.now)
        × (has_kind First (event_view p.0) ≡ false) × IsSpellable (event_view p.0)) }
{
    if let Some(words) = line.strip_prefix("move ") {
        let (first, second) = move_paths(words)?;
        return Some((Event::Move(first, second), behind));
    }
    patch_event(line, behind)
}

// The patch with this line.
fn patch_event<'s>(line: &'s str, behind: &'s str) -> Option<(Event<'s>, &'s str)>
    ensures { MatchOption result ((path : List ℕ) → (start : ℕ) → (end : ℕ) → (bytes : List ℕ)
        → (rest : List ℕ) → IsSpellable (patch path start end bytes)
        → line.entry.now ≡ first_line (patch path start end bytes)
        → behind.entry.now ≡ bytes ++ 10 ∷ rest → ⊥)
        (λ p. (line.entry.now ≡ first_line (event_view p.0))
        × (behind.entry.now ≡ behind_line (event_view p.0) ++ p.1.now)
        × (has_kind First (event_view p.0) ≡ false) × IsSpellable (event_view p.0)) }
{
    let (path, start, end, length) = patch_words(line.strip_prefix("patch ")?)?;
    let (bytes, rest) = cut_at_newline(behind, length)?;
    Some((Event::Patch(path, start, end, bytes), rest))
}

/// The path and the text of a put with these words on its line, and what is left after the text.
fn put_text<'s>(words: &'s str, behind: &'s str) -> Option<(&'s str, &'s str, &'s str)>
    ensures { MatchOption result ((path : List ℕ) → (text : List ℕ) → (rest : List ℕ)
        → IsSpellable (put path text) → words.entry.now ≡ path ++ 32 ∷ decimal (length text)
        → behind.entry.now ≡ text ++ 10 ∷ rest → ⊥)
        (λ p. (words.entry.now ≡ p.0.now ++ 32 ∷ decimal (length p.1.now))
        × (behind.entry.now ≡ p.1.now ++ 10 ∷ p.2.now)
        × IsSpellable (put p.0.now p.1.now)) }
{
    let (path, digits) = cut_at_first(words, ' ')?;
    if !is_path(path) {
        return None;
    }
    let (text, rest) = cut_at_newline(behind, read_number(digits)?)?;
    Some((path, text, rest))
}

// The two paths of a move with these words on its line.
fn move_paths(words: &str) -> Option<(&str, &str)>
    ensures { MatchOption result ((first : List ℕ) → (second : List ℕ)
        → IsSpellable (move first second) → words.now ≡ first ++ 32 ∷ second → ⊥)
        (λ p. (words.now ≡ p.0.now ++ 32 ∷ p.1.now) × IsSpellable (move p.0.now p.1.now)) }
{
    let (first, second) = cut_at_first(words, ' ')?;
    if !is_path(first) || !is_path(second) {
        return None;
    }
    Some((first, second))
}

// The path, the two offsets and the length of a patch with these words on its line.
fn patch_words(words: &str) -> Option<(&str, usize, usize, usize)>
    ensures { MatchOption result ((path : List ℕ) → (start : ℕ) → (end : ℕ) → (size : ℕ)
        → is_path path ≡ true → IsSpelledNumber start → IsSpelledNumber end → IsSpelledNumber size
        → words.now ≡ path ++ 32 ∷ numbers_text start end size → ⊥)
        (λ p. (words.now ≡ p.0.now ++ 32 ∷ numbers_text p.1 p.2 p.3) × (is_path p.0.now ≡ true)
        × IsSpelledNumber p.1 × IsSpelledNumber p.2 × IsSpelledNumber p.3) }
{
    let (path, numbers) = cut_at_first(words, ' ')?;
    if !is_path(path) {
        return None;
    }
    let (start, end, size) = three_numbers(numbers)?;
    Some((path, start, end, size))
}

// Three numbers with blanks between them.
fn three_numbers(text: &str) -> Option<(usize, usize, usize)>
    ensures { MatchOption result ((start : ℕ) → (end : ℕ) → (size : ℕ) → IsSpelledNumber start
        → IsSpelledNumber end → IsSpelledNumber size
        → text.now ≡ numbers_text start end size → ⊥)
        (λ p. (text.now ≡ numbers_text p.0 p.1 p.2) × IsSpelledNumber p.0
        × IsSpelledNumber p.1 × IsSpelledNumber p.2) }
{
    let (start, rest) = cut_number(text)?;
    let (end, rest) = cut_number(rest)?;
    Some((start, end, read_number(rest)?))
}
