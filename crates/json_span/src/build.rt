//! Building the tree of a value, down to a depth. After a flaw the syntax alone is read on.

ghost use Rattle.std.specs.Prelude.{◌≡◌, ◌+◌, ◌≤◌, ◌<◌, ◌^◌, ◌++◌, ◌∷◌, [], true, length, drop};
ghost use Rattle.std.specs.Prelude.{IfOk, IfErr, OnOk};
ghost use Rattle.grammar.specs.Grammar.{named, seq};
ghost use Rattle.grammar.specs.Predict.{begins, first};
ghost use Rattle.tk_io.specs.Characters.{colon_sign};
ghost use Rattle.json_span.specs.Grammar.{value, ws};
ghost use Rattle.json_span.specs.Predictive.{ahead, before_of, list_of, square, curly, symbol};
ghost use Rattle.json_span.specs.inner.Scan.{ReadsTo};
ghost use Rattle.json_span.specs.inner.Names.{IsNameSpan};
ghost use Rattle.json_span.specs.inner.Alternatives.{bracket_of};
ghost use Rattle.json_span.specs.inner.Skipping.{StopsAt};
ghost use Rattle.json_span.specs.inner.Building.{IsNext, IsBuilt, Opens, HaltsBehind};
ghost use Rattle.json_span.specs.inner.Building.{IsSmall, IsClosed, end_of_built};

use crate::alternative::{Alternative, Bracket, alternative_at};
use crate::bytes::{Class, has, row_end};
use crate::flaw::Flaw;
use crate::names::{NameSpan, close_names, read_name};
use crate::scan::{blanks_end, number_end};
use crate::skip::{colon_end, list_end, scalar_end, value_end};
use crate::stop::Stop;
use crate::table::Span;
use std::alloc::Global;

/// A value that was read to its end.
#[derive(Clone, Copy)]
pub(crate) enum Built {
    Whole(usize),
    /// The first flaw in it, and its end.
    Flawed(Flaw, usize),
}

impl Built {
    /// The offset after the value.
    pub(crate) fn end(&self) -> usize
        ensures { result ≡ end_of_built self.now }
    {
        match self {
            Built::Whole(end) => *end,
            Built::Flawed(_, end) => *end,
        }
    }
}

/// Where a list goes on after a value.
#[derive(Clone, Copy)]
enum Next {
    /// After a comma and its blanks.
    Item(usize),
    /// After the bracket that closes the list.
    Closed(usize),
}

// Reads on after a value of a list.
fn next_of(text: &str, at: usize, bracket: Bracket) -> Result<Next, usize>
    requires { at ≤ length text.now }
    ensures ok { IfOk result (λ n. IsNext (bracket_of bracket) text.now at n) }
    ensures stop { IfErr result (λ s. HaltsBehind (bracket_of bracket) text.now at s) }
{
    let behind = blanks_end(text, at);
    if has(text, behind, Class::One(b',')) {
        return Ok(Next::Item(blanks_end(text, behind + 1)));
    }
    let end = row_end(text, behind, &[bracket.close()])?;
    Ok(Next::Closed(end))
}

/// What stands before a member's value.
#[derive(Clone, Copy)]
struct MemberFront {
    own: NameSpan,
    /// Where the value begins.
    value: usize,
}

// Reads a member up to its value, and adds its name.
fn member_front(text: &str, at: usize, names: &mut Vec<NameSpan>) -> Result<MemberFront, Stop>
    requires within { at ≤ length text.now }
    requires short { length text.now < 2 ^ 32 }
    ensures own { IfOk result (λ m. IsNameSpan text.now at m.own) }
    ensures colon { IfOk result (λ m.
        ReadsTo (seq ws (symbol colon_sign)) text.now m.own.end m.value) }
    ensures names { IfOk result (λ m. names.new.items ≡ names.old.items ++ m.own ∷ []) }
    ensures stop { IfErr result (λ e. StopsAt (before_of curly) text.now at e) }
{
    let own = read_name(text, at)?;
    let value = colon_end(text, own.end as usize)?;
    names.push(own)?;
    Ok(MemberFront { own, value })
}

// Puts the span of a list in its place, once all values in it stand after that place.
fn close(nodes: &mut Vec<Span>, index: usize, name: u32, name_end: u32, start: u32, end: u32)
    requires within { index < length nodes.old.items }
    requires small { length nodes.old.items < 2 ^ 32 }
    ensures { IsClosed nodes.old.items index name name_end start end nodes.new.items }
{
    let next = nodes.len() as u32;
    nodes[index] = Span {
        name,
        name_end,
        start,
        end,
        next,
    };
}

/// Builds the value that stands there; `room` says how many brackets may open in it.
#[cycle(value)]
pub(crate) fn build_value(
    alloc: Global,
    text: &str,
    at: usize,
    room: u32,
    name: u32,
    name_end: u32,
    nodes: &mut Vec<Span>,
    names: &mut Vec<NameSpan>,
) -> Result<Built, Stop>
    requires within { at ≤ length text.now }
    requires small { IsSmall text.now at nodes.old.items }
    ensures ok { IfOk result (λ b.
        IsBuilt text.now at room name name_end nodes.old.items nodes.new.items b) }
    ensures names { OnOk result (names.new.items ≡ names.old.items) }
    ensures stop { IfErr result (λ e. StopsAt (named value) text.now at e) }
{
    match alternative_at(text, at) {
        Some(Alternative::Scalar(scalar)) => {
            let end = scalar_end(text, at, scalar)?;
            let next = (nodes.len() + 1) as u32;
            nodes.push(Span {
                name,
                name_end,
                start: at as u32,
                end: end as u32,
                next,
            })?;
            Ok(Built::Whole(end))
        }
        Some(Alternative::List(bracket)) => {
            build_list(alloc, text, at, bracket, room, name, name_end, nodes, names)
        }
        None => Err(Stop::Syntax(at)),
    }
}

// Builds a list.
#[cycle(value)]
fn build_list(
    alloc: Global,
    text: &str,
    at: usize,
    bracket: Bracket,
    room: u32,
    name: u32,
    name_end: u32,
    nodes: &mut Vec<Span>,
    names: &mut Vec<NameSpan>,
) -> Result<Built, Stop>
    requires within { at < length text.now }
    requires opens { begins (first ahead (list_of (bracket_of bracket))) (drop at text.now) ≡ true }
    requires small { IsSmall text.now at nodes.old.items }
    ensures ok { IfOk result (λ b.
        IsBuilt text.now at room name name_end nodes.old.items nodes.new.items b) }
    ensures names { OnOk result (names.new.items ≡ names.old.items) }
    ensures stop { IfErr result (λ e. StopsAt (named value) text.now at e) }
{
    if room == 0 {
        let end = value_end(alloc, text, at)?;
        return Ok(Built::Flawed(Flaw::Deep(at, at + 1), end));
    }
    let inner = blanks_end(text, at + 1);
    if has(text, inner, bracket.close()) {
        let end = inner + 1;
        let next = (nodes.len() + 1) as u32;
        nodes.push(Span {
            name,
            name_end,
            start: at as u32,
            end: end as u32,
            next,
        })?;
        return Ok(Built::Whole(end));
    }
    match bracket {
        Bracket::Square => {
            build_array(
                alloc,
                text,
                at,
                inner,
                room - 1,
                name,
                name_end,
                nodes,
                names,
            )
        }
        Bracket::Curly => {
            build_object(
                alloc,
                text,
                at,
                inner,
                room - 1,
                name,
                name_end,
                nodes,
                names,
            )
        }
    }
}

// Builds an array of one element or more, the first of which begins at `inner`.
#[cycle(value)]
fn build_array(
    alloc: Global,
    text: &str,
    at: usize,
    inner: usize,
    room: u32,
    name: u32,
    name_end: u32,
    nodes: &mut Vec<Span>,
    names: &mut Vec<NameSpan>,
) -> Result<Built, Stop>
    requires opens { Opens square text.now at inner }
    requires small { IsSmall text.now at nodes.old.items }
    ensures ok { IfOk result (λ b.
        IsBuilt text.now at (room + 1) name name_end nodes.old.items nodes.new.items b) }
    ensures names { OnOk result (names.new.items ≡ names.old.items) }
    ensures stop { IfErr result (λ e. StopsAt (named value) text.now at e) }
{
    let index = nodes.len();
    nodes.push(Span {
        name,
        name_end,
        start: at as u32,
        end: 0,
        next: 0,
    })?;
    let mut next = inner;
    loop {
        let behind = match build_value(alloc, text, next, room, 0, 0, nodes, names)? {
            Built::Whole(end) => end,
            Built::Flawed(flaw, end) => {
                let end = list_end(alloc, text, end, Bracket::Square)?;
                return Ok(Built::Flawed(flaw, end));
            }
        };
        match next_of(text, behind, Bracket::Square)? {
            Next::Item(item) => next = item,
            Next::Closed(end) => {
                close(nodes, index, name, name_end, at as u32, end as u32);
                return Ok(Built::Whole(end));
            }
        }
    }
}

// Builds an object of one member or more, the first of which begins at `inner`.
#[cycle(value)]
fn build_object(
    alloc: Global,
    text: &str,
    at: usize,
    inner: usize,
    room: u32,
    name: u32,
    name_end: u32,
    nodes: &mut Vec<Span>,
    names: &mut Vec<NameSpan>,
) -> Result<Built, Stop>
    requires opens { Opens curly text.now at inner }
    requires small { IsSmall text.now at nodes.old.items }
    ensures ok { IfOk result (λ b.
        IsBuilt text.now at (room + 1) name name_end nodes.old.items nodes.new.items b) }
    ensures names { OnOk result (names.new.items ≡ names.old.items) }
    ensures stop { IfErr result (λ e. StopsAt (named value) text.now at e) }
{
    let index = nodes.len();
    nodes.push(Span {
        name,
        name_end,
        start: at as u32,
        end: 0,
        next: 0,
    })?;
    let base = names.len();
    let mut next = inner;
    loop {
        let front = member_front(text, next, names)?;
        let built = build_value(
            alloc,
            text,
            front.value,
            room,
            front.own.start,
            front.own.end,
            nodes,
            names,
        )?;
        let behind = match built {
            Built::Whole(end) => end,
            Built::Flawed(flaw, end) => {
                let end = list_end(alloc, text, end, Bracket::Curly)?;
                let first = close_names(alloc, text, base, names)?;
                return Ok(Built::Flawed(first.unwrap_or(flaw), end));
            }
        };
        match next_of(text, behind, Bracket::Curly)? {
            Next::Item(item) => next = item,
            Next::Closed(end) => {
                let again = close_names(alloc, text, base, names)?;
                if let Some(flaw) = again {
                    return Ok(Built::Flawed(flaw, end));
                }
                close(nodes, index, name, name_end, at as u32, end as u32);
                return Ok(Built::Whole(end));
            }
        }
    }
}
