//! Reading a JSON text.

ghost use Rattle.std.specs.Prelude.{◌≡◌, ◌+◌, ◌<◌, ◌^◌, [], length, IfOk, IfErr};
ghost use Rattle.json_span.specs.View.{node_view};
ghost use Rattle.json_span.specs.Answer.{Answers, IsAnswer, IsJsonFault, ShowsOnly, fault_of};
ghost use Rattle.json_span.specs.Answer.{shows};
ghost use Rattle.json_span.specs.inner.Building.{IsTableOf};

use crate::build::{Built, build_value};
use crate::flaw::Flaw;
use crate::node::Node;
use crate::scan::blanks_end;
use crate::stop::Stop;
use crate::table::{Document, Span};
use std::alloc::Global;
use std::rc::Rc;
use std::sync::ledger::Ledger;
use tk_io::Steps;

/// Why a text was not read. Offsets are bytes.
#[derive(Clone, Copy, Debug, PartialEq, Eq)]
pub enum JsonFault {
    /// No JSON text of RFC 8259: up to this offset it is a viable prefix, and no further.
    Syntax(usize),
    /// A name that repeats an earlier one of its object, by the offsets of its string.
    Dup(usize, usize),
    /// A bracket that opens a 65th level, by its offsets.
    Deep(usize, usize),
    NoMemory,
}

impl From<Stop> for JsonFault {
    ghost use Rattle.json_span.specs.Answer.{fault_of_stop};

    ghost from_gives = { λ s e. e ≡ fault_of_stop s };

    fn from(stop: Stop) -> JsonFault {
        match stop {
            Stop::Syntax(at) => JsonFault::Syntax(at),
            Stop::NoMemory => JsonFault::NoMemory,
        }
    }
}

/// How many brackets may be open at once.
const MOST_OPEN: u32 = 64;

/// About how many bytes of a text have one value.
const BYTES_OF_A_SPAN: usize = 10;

/// For so many values room is made at first.
const MOST_ROOM: usize = 65_536;

/// How long a text may be whose offsets are counted in 32 bits.
const LONGEST: usize = u32::MAX as usize;

fn fault_of(flaw: Flaw) -> JsonFault
    ensures { result ≡ fault_of flaw }
{
    match flaw {
        Flaw::Dup(start, end) => JsonFault::Dup(start, end),
        Flaw::Deep(start, end) => JsonFault::Deep(start, end),
    }
}

// The value whose table this is.
fn root<'s>(alloc: Global, text: &'s str, nodes: Vec<Span>) -> Result<Node<'s>, JsonFault>
    requires { IsTableOf text.now nodes.items }
    ensures found { IfOk result (λ n. IsAnswer text.entry.now (shows (node_view n))) }
    ensures refused { IfErr result (λ e. IsJsonFault text.entry.now e) }
{
    match Rc::new(alloc, Document { text, nodes }) {
        Ok(document) => Ok(Node::new(document, 0)),
        Err(_) => Err(JsonFault::NoMemory),
    }
}

// No spans, with room for those of a short text, where there is memory for it. Other tables grow.
fn no_spans(alloc: Global, text: &str) -> Vec<Span>
    ensures { result.items ≡ [] }
{
    let mut nodes = Vec::new(alloc);
    let room = text.len() / BYTES_OF_A_SPAN;
    if room < MOST_ROOM {
        let _ = nodes.reserve(room);
    }
    nodes
}

// Reads a text whose offsets fit into 32 bits.
fn read_short<'s>(alloc: Global, text: &'s str) -> Result<Node<'s>, JsonFault>
    requires { length text.now < 2 ^ 32 }
    ensures found { IfOk result (λ n. IsAnswer text.entry.now (shows (node_view n))) }
    ensures refused { IfErr result (λ e. IsJsonFault text.entry.now e) }
{
    let start = blanks_end(text, 0);
    let mut nodes = no_spans(alloc, text);
    let mut names = Vec::new(alloc);
    let built = build_value(alloc, text, start, MOST_OPEN, 0, 0, &mut nodes, &mut names)?;
    let last = blanks_end(text, built.end());
    if last < text.len() {
        return Err(JsonFault::Syntax(last));
    }
    match built {
        Built::Whole(_) => root(alloc, text, nodes),
        Built::Flawed(flaw, _) => Err(fault_of(flaw)),
    }
}

// Reads a text, where its offsets fit into 32 bits; a longer one is answered by want of memory.
fn read_text<'s>(alloc: Global, text: &'s str) -> Result<Node<'s>, JsonFault>
    ensures found { IfOk result (λ n. IsAnswer text.entry.now (shows (node_view n))) }
    ensures refused { IfErr result (λ e. IsJsonFault text.entry.now e) }
{
    if text.len() > LONGEST {
        return Err(JsonFault::NoMemory);
    }
    read_short(alloc, text)
}

/// The one value that the text shows (RFC 8259), each part at the slice from its first to its last
/// byte. It is one step of `parses`, whatever it answers.
///
/// # Errors
///
/// [`JsonFault::Syntax`] exactly where the grammar does not read the text. Of a text that it reads,
/// [`JsonFault::Dup`] or [`JsonFault::Deep`], whichever stands first: names of one object must
/// differ once their escapes are read, and at most 64 brackets may be open at once.
/// [`JsonFault::NoMemory`], also for a text of 4 GiB or more.
pub fn read<'s, L: Ledger>(
    alloc: Global,
    text: &'s str,
    parses: &mut Steps<L>,
) -> Result<Node<'s>, JsonFault>
    ensures step { parses.new ≡ parses.old + 1 }
    // Whatever is answered is the one answer of the text; out of memory is none.
    ensures answer { Answers text.entry.now result }
    // The node is the value that the text shows, without a flaw.
    ensures found { IfOk result (λ n. IsAnswer text.entry.now (shows (node_view n))) }
    // No other node is.
    ensures only { IfOk result (λ n. ShowsOnly text.entry.now (node_view n)) }
    ensures refused { IfErr result (λ e. IsJsonFault text.entry.now e) }
{
    parses.tick();
    read_text(alloc, text)
}
