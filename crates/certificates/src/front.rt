//! What stands at the fronts of texts: places, files and spans.

ghost use Rattle.std.specs.Prelude.{◌≡◌, ◌<◌, ◌≤◌, ◌++◌, ◌∷◌, ◌^◌, ℕ, List, true, length, MatchOption};
ghost use Rattle.std.specs.Prelude.{IfOk, IfSome};
ghost use Rattle.std.specs.Char.{digit_value};
ghost use Rattle.std.specs.Fmt.{decimal};
ghost use Rattle.std.specs.String.{string_bytes};
ghost use Rattle.edit_script.specs.Script.{is_path};
ghost use Rattle.name_path.specs.Names.{IsTokenPath};
ghost use Rattle.name_path.specs.Reference.{place_text};
ghost use Rattle.name_path.specs.declared.place.Place.{Place};
ghost use Rattle.certificates.specs.Certificate.{SpotFits, place_string, span_words};
ghost use Rattle.certificates.specs.declared.certificate.Spot.{Spot};
ghost use Rattle.certificates.specs.inner.Fronts.{Finds};

use crate::cut::{cut, past};
use crate::string::front_string;
use crate::{CertStop, Spot};
use edit_script::is_path;
use name_path::{Place, RefStop, read_pointer};
use std::alloc::Global;
use tk_io::Text;

/// The place that the pointer spells.
fn pointed<'s>(alloc: Global, pointer: &Text<'s>) -> Result<Place<'s>, CertStop>
    ensures token { IfOk result (λ place. IsTokenPath place.token) }
    ensures found { (place : Place) → IsTokenPath place.token → pointer.now ≡ place_text place
        → Finds result (λ p. p ≡ place) }
{
    match read_pointer(alloc, pointer) {
        Ok(place) => Ok(place),
        Err(RefStop::BadRef) => Err(CertStop::BadCert),
        Err(RefStop::NoMemory) => Err(CertStop::NoMemory),
    }
}

/// The place whose pointer has these characters, and what follows.
fn place_before<'s>(
    alloc: Global,
    characters: String,
    rest: &'s str,
) -> Result<(Place<'s>, &'s str), CertStop>
    ensures token { IfOk result (λ r. IsTokenPath r.0.token) }
    ensures found { (place : Place) → IsTokenPath place.token
        → string_bytes characters ≡ place_text place → Finds result (λ r. r.0 ≡ place) }
    ensures rest { IfOk result (λ r. r.1.now ≡ rest.entry.now) }
{
    let pointer = Text::from_string(characters)?;
    match pointed(alloc, &pointer) {
        Ok(place) => Ok((place, rest)),
        Err(stop) => Err(stop),
    }
}

/// The place whose string stands at the front of the text, and what follows the words behind it.
pub(crate) fn front_place<'s>(
    alloc: Global,
    text: &'s str,
    behind: &str,
) -> Result<(Place<'s>, &'s str), CertStop>
    ensures token { IfOk result (λ r. IsTokenPath r.0.token) }
    ensures found { (place : Place) (rest : List ℕ) → IsTokenPath place.token
        → text.entry.now ≡ place_string place ++ (behind.now ++ rest)
        → Finds result (λ r. (r.0 ≡ place) × (r.1.now ≡ rest)) }
    ensures left { IfOk result (λ r. length r.1.now ≤ length text.entry.now) }
{
    match front_string(alloc, text) {
        Ok((characters, left)) => match past(left, behind) {
            Some(rest) => place_before(alloc, characters, rest),
            None => Err(CertStop::BadCert),
        },
        Err(stop) => Err(stop),
    }
}

/// The number that the text spells, where it has no leading zero.
fn number_of(text: &str) -> Option<usize>
    ensures found { (n : ℕ) → n < 2 ^ 32 → text.now ≡ decimal n → MatchOption result ⊥ (λ m. m ≡ n) }
    ensures few { IfSome result (λ n. n < 2 ^ 32) }
{
    match text.parse::<u32>() {
        Ok(number) => Some(number as usize),
        Err(_) => None,
    }
}

/// The number before the first such character, and what follows this.
fn front_number(text: &str, mark: char) -> Option<(usize, &str)>
    requires { (mark < 128) × (10 ≤ digit_value mark) }
    ensures found { (n : ℕ) (rest : List ℕ) → n < 2 ^ 32 → text.now ≡ decimal n ++ mark ∷ rest
        → MatchOption result ⊥ (λ p. (p.0 ≡ n) × (p.1.now ≡ rest)) }
    ensures few { IfSome result (λ p. p.0 < 2 ^ 32) }
    ensures left { IfSome result (λ p. length p.1.now ≤ length text.now) }
{
    let (digits, rest) = cut(text, mark)?;
    let number = number_of(digits)?;
    Some((number, rest))
}

/// The path of a file before the first blank, and what follows this.
fn front_file(text: &str) -> Option<(&str, &str)>
    ensures found { (file rest : List ℕ) → is_path file ≡ true → text.now ≡ file ++ 32 ∷ rest
        → MatchOption result ⊥ (λ p. (p.0.now ≡ file) × (p.1.now ≡ rest)) }
    ensures path { IfSome result (λ p. is_path p.0.now ≡ true) }
    ensures left { IfSome result (λ p. length p.1.now ≤ length text.now) }
{
    let (file, rest) = cut(text, ' ')?;
    if !is_path(file) {
        return None;
    }
    Some((file, rest))
}

/// The span of the place, which stands at the front of the text up to the line's end, and what follows that.
pub(crate) fn front_span<'s>(place: Place<'s>, text: &'s str) -> Option<(Spot<'s>, &'s str)>
    requires { IsTokenPath place.token }
    ensures found { (spot : Spot) (rest : List ℕ) → SpotFits spot → place.entry ≡ spot.place
        → text.entry.now ≡ span_words spot ++ 10 ∷ rest
        → MatchOption result ⊥ (λ p. (p.0 ≡ spot) × (p.1.now ≡ rest)) }
    ensures fits { IfSome result (λ p. SpotFits p.0) }
    ensures left { IfSome result (λ p. length p.1.now ≤ length text.entry.now) }
{
    let (file, offsets) = front_file(text)?;
    let (start, left) = front_number(offsets, ' ')?;
    let (end, rest) = front_number(left, '\n')?;
    let file = Text::of(file);
    let spot = Spot {
        place,
        file,
        start,
        end,
    };
    Some((spot, rest))
}
