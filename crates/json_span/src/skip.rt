//! Reading the syntax alone, with a list of open brackets: one byte for each, so depth has no
//! bound.

ghost use Rattle.std.specs.Prelude.{◌≡◌, ◌≤◌, ◌<◌, ◌++◌, [], ◌∷◌, length, drop, true, false};
ghost use Rattle.std.specs.Prelude.{IfOk, IfErr};
ghost use Rattle.grammar.specs.Grammar.{named, seq};
ghost use Rattle.grammar.specs.Predict.{begins, first};
ghost use Rattle.tk_io.specs.Characters.{colon_sign};
ghost use Rattle.json_span.specs.Grammar.{value, ws, one};
ghost use Rattle.json_span.specs.Predictive.{ahead, symbol, before_of, more_of, close_of, list_of};
ghost use Rattle.json_span.specs.inner.Scan.{ReadsTo, Scans, rule_of};
ghost use Rattle.json_span.specs.inner.Alternatives.{bracket_of, rule_of_scalar};
ghost use Rattle.json_span.specs.inner.Skipping.{left_of, ContinuesAs, StopsAt};

use crate::alternative::{Alternative, Bracket, Scalar, alternative_at};
use crate::bytes::{Class, has, row_end};
use crate::scan::{blanks_end, number_end};
use crate::stop::Stop;
use crate::string::string_end;
use std::alloc::Global;
use tk_io::NoMemory;

/// Where reading goes on, and whether a value is to come there.
#[derive(Clone, Copy)]
struct Place {
    at: usize,
    wants: bool,
}

impl Bracket {
    /// The byte that closes the list.
    pub(crate) fn close(self) -> Class
        ensures { rule_of result ≡ one (close_of (bracket_of self)) }
    {
        match self {
            Bracket::Square => Class::One(b']'),
            Bracket::Curly => Class::One(b'}'),
        }
    }
}

/// The end of what stands before a value of a list: in an object a name, a colon and blanks.
pub(crate) fn before_end(text: &str, at: usize, bracket: Bracket) -> Result<usize, usize>
    requires { at ≤ length text.now }
    ensures { Scans (before_of (bracket_of bracket)) text.now at result }
{
    match bracket {
        Bracket::Square => Ok(at),
        Bracket::Curly => {
            let name = string_end(text, at)?;
            colon_end(text, name)
        }
    }
}

/// The end of the colon after a name, and of the blanks around it.
pub(crate) fn colon_end(text: &str, at: usize) -> Result<usize, usize>
    requires { at ≤ length text.now }
    ensures { Scans (seq ws (symbol colon_sign)) text.now at result }
{
    let colon = blanks_end(text, at);
    let end = row_end(text, colon, &[Class::One(b':')])?;
    Ok(blanks_end(text, end))
}

/// The end of a value that holds no others.
pub(crate) fn scalar_end(text: &str, at: usize, scalar: Scalar) -> Result<usize, usize>
    requires { at ≤ length text.now }
    ensures { Scans (rule_of_scalar scalar) text.now at result }
{
    match scalar {
        Scalar::False => row_end(
            text,
            at,
            &[
                Class::One(b'f'),
                Class::One(b'a'),
                Class::One(b'l'),
                Class::One(b's'),
                Class::One(b'e'),
            ],
        ),
        Scalar::Null => row_end(
            text,
            at,
            &[
                Class::One(b'n'),
                Class::One(b'u'),
                Class::One(b'l'),
                Class::One(b'l'),
            ],
        ),
        Scalar::True => row_end(
            text,
            at,
            &[
                Class::One(b't'),
                Class::One(b'r'),
                Class::One(b'u'),
                Class::One(b'e'),
            ],
        ),
        Scalar::Number => number_end(text, at),
        Scalar::String => string_end(text, at),
    }
}

// Reads on where a value is to come.
fn begin(text: &str, at: usize, brackets: &mut Vec<Bracket>) -> Result<Place, Stop>
    requires { at ≤ length text.now }
    ensures leads { IfOk result (λ p. ContinuesAs text.now
        (left_of true brackets.old.items) at (left_of p.wants brackets.new.items) p.at) }
    ensures forward { IfOk result (λ p. at < p.at) }
    ensures within { IfOk result (λ p. p.at ≤ length text.now) }
    ensures stop { IfErr result (λ e. StopsAt (left_of true brackets.old.items) text.now at e) }
{
    match alternative_at(text, at) {
        Some(Alternative::Scalar(scalar)) => {
            let end = scalar_end(text, at, scalar)?;
            Ok(Place {
                at: end,
                wants: false,
            })
        }
        Some(Alternative::List(bracket)) => open(text, at, bracket, brackets),
        None => Err(Stop::Syntax(at)),
    }
}

// Reads on where a list begins.
fn open(text: &str, at: usize, bracket: Bracket, brackets: &mut Vec<Bracket>) -> Result<Place, Stop>
    requires within { at < length text.now }
    requires opens { begins (first ahead (list_of (bracket_of bracket))) (drop at text.now) ≡ true }
    ensures leads { IfOk result (λ p. ContinuesAs text.now
        (left_of true brackets.old.items) at (left_of p.wants brackets.new.items) p.at) }
    ensures forward { IfOk result (λ p. at < p.at) }
    ensures within { IfOk result (λ p. p.at ≤ length text.now) }
    ensures stop { IfErr result (λ e. StopsAt (left_of true brackets.old.items) text.now at e) }
{
    let inner = blanks_end(text, at + 1);
    if has(text, inner, bracket.close()) {
        return Ok(Place {
            at: inner + 1,
            wants: false,
        });
    }
    let next = before_end(text, inner, bracket)?;
    brackets.push(bracket)?;
    let last = open_row(text, next, brackets)?;
    Ok(Place {
        at: last,
        wants: true,
    })
}

// Opens each square bracket from there on that has another right after it.
fn open_row(text: &str, from: usize, brackets: &mut Vec<Bracket>) -> Result<usize, NoMemory>
    requires { from ≤ length text.now }
    ensures leads { IfOk result (λ e. ContinuesAs text.now
        (left_of true brackets.old.items) from (left_of true brackets.new.items) e) }
    ensures forward { IfOk result (λ e. from ≤ e) }
    ensures within { IfOk result (λ e. e ≤ length text.now) }
{
    if !has(text, from, Class::One(b'[')) {
        return Ok(from);
    }
    let mut at = from;
    while has(text, at + 1, Class::One(b'[')) {
        brackets.push(Bracket::Square)?;
        at += 1;
    }
    Ok(at)
}

// Reads on after a value of a list, whose bracket was taken off the open ones.
fn go_on(
    text: &str,
    at: usize,
    bracket: Bracket,
    brackets: &mut Vec<Bracket>,
) -> Result<Place, Stop>
    requires { at ≤ length text.now }
    ensures leads { IfOk result (λ p. ContinuesAs text.now
        (left_of false (brackets.old.items ++ bracket ∷ [])) at
        (left_of p.wants brackets.new.items) p.at) }
    ensures forward { IfOk result (λ p. at < p.at) }
    ensures within { IfOk result (λ p. p.at ≤ length text.now) }
    ensures stop { IfErr result (λ e.
        StopsAt (left_of false (brackets.old.items ++ bracket ∷ [])) text.now at e) }
{
    let behind = blanks_end(text, at);
    if !has(text, behind, Class::One(b',')) {
        let end = row_end(text, behind, &[bracket.close()])?;
        return Ok(Place {
            at: end,
            wants: false,
        });
    }
    let item = blanks_end(text, behind + 1);
    let next = before_end(text, item, bracket)?;
    brackets.push(bracket)?;
    Ok(Place {
        at: next,
        wants: true,
    })
}

// Reads on to where the last of the open brackets is closed.
fn skip(
    text: &str,
    from: usize,
    wants_first: bool,
    mut brackets: Vec<Bracket>,
) -> Result<usize, Stop>
    requires { from ≤ length text.now }
    ensures end { IfOk result (λ e. ReadsTo (left_of wants_first brackets.items) text.now from e) }
    ensures stop { IfErr result (λ e.
        StopsAt (left_of wants_first brackets.items) text.now from e) }
{
    let mut at = from;
    let mut wants = wants_first;
    loop {
        let place = if wants {
            begin(text, at, &mut brackets)?
        } else {
            match brackets.pop() {
                None => return Ok(at),
                Some(bracket) => go_on(text, at, bracket, &mut brackets)?,
            }
        };
        at = place.at;
        wants = place.wants;
    }
}

/// The end of a value.
pub(crate) fn value_end(alloc: Global, text: &str, at: usize) -> Result<usize, Stop>
    requires { at ≤ length text.now }
    ensures end { IfOk result (λ e. ReadsTo (named value) text.now at e) }
    ensures stop { IfErr result (λ e. StopsAt (named value) text.now at e) }
{
    skip(text, at, true, Vec::new(alloc))
}

/// The end of the list whose bracket is open, after one of its values.
pub(crate) fn list_end(
    alloc: Global,
    text: &str,
    at: usize,
    bracket: Bracket,
) -> Result<usize, Stop>
    requires { at ≤ length text.now }
    ensures end { IfOk result (λ e. ReadsTo (seq ws (more_of (bracket_of bracket))) text.now at e) }
    ensures stop { IfErr result (λ e.
        StopsAt (seq ws (more_of (bracket_of bracket))) text.now at e) }
{
    let mut brackets = Vec::new(alloc);
    brackets.push(bracket)?;
    skip(text, at, false, brackets)
}
