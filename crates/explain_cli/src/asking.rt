//! What the arguments ask.

ghost use Rattle.std.specs.Prelude.{◌≡◌, ◌⊎◌, ◌∷◌, [], ℕ, List, IfOk, IfErr, IfSome, IfNone};
ghost use Rattle.std.specs.Prelude.{IsErrOf, codes};
ghost use Rattle.std.specs.Str.{bytes_eq};
ghost use Rattle.name_path.specs.declared.place.Place.{Place as PlaceData};
ghost use Rattle.name_path.specs.Reference.{SpellsPlace};
ghost use Rattle.explain_cli.specs.Asked.{Asks, words_of};
ghost use Rattle.explain_cli.specs.declared.asking.Question.{Question as QuestionData};

use edit_script::is_path;
use name_path::{Place, RefStop, read_pointer};
use std::alloc::Global;
use tk_io::Text;
use token_cli::Stop;

/// What the arguments ask.
#[derive(Drop)]
pub enum Question<'q> {
    /// How the place gets its value in the permutation of this name.
    Show(Text<'q>, Place<'q>),
    /// Whether the certificate holds that stands in the file at this path.
    Check(Text<'q>),
}

// Whether the text is this word.
fn is_word(text: &str, word: &str) -> bool
    ensures { result ≡ bytes_eq text.now word.now }
{
    text == word
}

// The only word.
fn one_word(words: &[String]) -> Option<&str>
    ensures some { IfSome result (λ word. words_of words.now ≡ word.now ∷ []) }
    ensures none { IfNone result ((word : List ℕ) → words_of words.now ≡ word ∷ [] → ⊥) }
{
    let Some((word, others)) = words.split_first() else {
        return None;
    };
    if !others.is_empty() {
        return None;
    }
    Some(word.as_str())
}

// The only two words.
fn two_words(words: &[String]) -> Option<(&str, &str)>
    ensures some { IfSome result (λ two. words_of words.now ≡ two.0.now ∷ two.1.now ∷ []) }
    ensures none { IfNone result ((first second : List ℕ)
        → words_of words.now ≡ first ∷ second ∷ [] → ⊥) }
{
    let Some((first, others)) = words.split_first() else {
        return None;
    };
    match one_word(others) {
        Some(second) => Some((first.as_str(), second)),
        None => None,
    }
}

// The place that a pointer spells.
fn place_at<'q>(alloc: Global, pointer: &str) -> Result<Place<'q>, Stop>
    ensures place { IfOk result (λ place. SpellsPlace pointer.now place) }
    ensures usage { IsErrOf result Stop.Usage → (place : PlaceData)
        → SpellsPlace pointer.now place → ⊥ }
    ensures no_other { IfErr result (λ s. (s ≡ Stop.Usage) ⊎ (s ≡ Stop.NoMemory)) }
{
    let text = Text::owned(alloc, pointer)?;
    match read_pointer(alloc, &text) {
        Ok(place) => Ok(place),
        Err(RefStop::BadRef) => Err(Stop::Usage),
        Err(RefStop::NoMemory) => Err(Stop::NoMemory),
    }
}

// The question behind the word `show`.
fn show_question<'q>(alloc: Global, words: &[String]) -> Result<Question<'q>, Stop>
    ensures asked { IfOk result (Asks (codes "show" ∷ words_of words.now)) }
    ensures usage { IsErrOf result Stop.Usage → (q : QuestionData)
        → Asks (codes "show" ∷ words_of words.now) q → ⊥ }
    ensures no_other { IfErr result (λ s. (s ≡ Stop.Usage) ⊎ (s ≡ Stop.NoMemory)) }
{
    let Some((perm, pointer)) = two_words(words) else {
        return Err(Stop::Usage);
    };
    let place = place_at(alloc, pointer)?;
    let perm = Text::owned(alloc, perm)?;
    Ok(Question::Show(perm, place))
}

// The question behind the word `check`.
fn check_question<'q>(alloc: Global, words: &[String]) -> Result<Question<'q>, Stop>
    ensures asked { IfOk result (Asks (codes "check" ∷ words_of words.now)) }
    ensures usage { IsErrOf result Stop.Usage → (q : QuestionData)
        → Asks (codes "check" ∷ words_of words.now) q → ⊥ }
    ensures no_other { IfErr result (λ s. (s ≡ Stop.Usage) ⊎ (s ≡ Stop.NoMemory)) }
{
    let Some(path) = one_word(words) else {
        return Err(Stop::Usage);
    };
    if !is_path(path) {
        return Err(Stop::Usage);
    }
    let path = Text::owned(alloc, path)?;
    Ok(Question::Check(path))
}

/// What the arguments ask: `show`, the name of a permutation, which may be any text, and a pointer to a place; or `check` and
/// the path of a file. It borrows nothing from them.
///
/// # Errors
/// `Usage` exactly where they ask nothing; `NoMemory`.
pub fn read_question<'q>(alloc: Global, words: &[String]) -> Result<Question<'q>, Stop>
    ensures asked { IfOk result (Asks (words_of words.now)) }
    ensures usage { IsErrOf result Stop.Usage → (q : QuestionData)
        → Asks (words_of words.now) q → ⊥ }
    ensures no_other { IfErr result (λ s. (s ≡ Stop.Usage) ⊎ (s ≡ Stop.NoMemory)) }
{
    let Some((first, others)) = words.split_first() else {
        return Err(Stop::Usage);
    };
    if is_word(first.as_str(), "show") {
        return show_question(alloc, others);
    }
    if is_word(first.as_str(), "check") {
        return check_question(alloc, others);
    }
    Err(Stop::Usage)
}
