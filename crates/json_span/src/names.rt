//! The names of an object, and the first one that repeats another.

ghost use Rattle.std.specs.Prelude.{◌≡◌, ◌≤◌, ◌<◌, ◌^◌, List, [], length, take, drop, slice_get};
ghost use Rattle.std.specs.Prelude.{true, Some, None, IfOk, IfErr, IfSome, OnOk};
ghost use Rattle.std.specs.Str.{bytes_eq};
ghost use Rattle.grammar.specs.Grammar.{named};
ghost use Rattle.tk_io.specs.Order.{text_cmp};
ghost use Rattle.json_span.specs.Grammar.{string};
ghost use Rattle.json_span.specs.Tree.{Entry};
ghost use Rattle.json_span.specs.Flaw.{equal_names, is_seen};
ghost use Rattle.json_span.specs.inner.Scan.{Halts};
ghost use Rattle.json_span.specs.inner.Names.{IsNameSpan, IsNameOf, AreNamesOf, reversed_names};
ghost use Rattle.json_span.specs.inner.Building.{flaw_view};
ghost use Rattle.json_span.specs.inner.NameOrder.{SortsNames, TellsSecond, again_in, least, rises};
ghost use Rattle.json_span.specs.inner.NameOrder.{key_of, word};

use crate::bytes::{Class, has};
use crate::flaw::Flaw;
use crate::scan::plain_end;
use crate::string::characters_end;
use crate::text::{is_string_of, string_text};
use std::alloc::Global;
use std::cmp::Ordering;
use tk_io::{NoMemory, Text};

/// The offsets of a name's string, and whether no escape stands in it.
#[derive(Clone, Copy)]
pub(crate) struct NameSpan {
    pub(crate) start: u32,
    pub(crate) end: u32,
    pub(crate) is_plain: bool,
}

impl NameSpan {
    // The offset of its first byte.
    fn offset(self) -> usize
        ensures { result ≡ self.start }
    {
        self.start as usize
    }

    // The flaw that it repeats an earlier one.
    fn repeated(self) -> Flaw
        ensures { flaw_view result ≡ equal_names self.start self.end }
    {
        Flaw::Dup(self.start as usize, self.end as usize)
    }
}

/// A name with its key and its place among those of the object.
#[derive(Drop)]
pub(crate) struct PlacedName<'s> {
    key: u64,
    name: Text<'s>,
    place: usize,
}

/// Up to how many names are compared in pairs.
const MOST_PAIRED: usize = 8;

/// What a key is multiplied by for each byte: the prime of the hash FNV-1 of 64 bits.
const KEY_FACTOR: u64 = 1_099_511_628_211;

/// The name whose string stands there.
pub(crate) fn read_name(text: &str, at: usize) -> Result<NameSpan, usize>
    requires within { at ≤ length text.now }
    requires short { length text.now < 2 ^ 32 }
    ensures ok { IfOk result (λ n. IsNameSpan text.now at n) }
    ensures stop { IfErr result (λ e. Halts (named string) text.now at e) }
{
    if !has(text, at, Class::One(b'"')) {
        return Err(at);
    }
    let plain = plain_end(text, at + 1);
    if has(text, plain, Class::One(b'"')) {
        let end = plain + 1;
        return Ok(NameSpan {
            start: at as u32,
            end: end as u32,
            is_plain: true,
        });
    }
    let end = characters_end(text, at + 1)?;
    Ok(NameSpan {
        start: at as u32,
        end: end as u32,
        is_plain: false,
    })
}

// The bytes of a name in whose string no escape stands.
fn plain_bytes<'s>(text: &'s str, name: NameSpan) -> Option<&'s [u8]>
    requires { (e : Entry) × IsNameOf text.now name e }
    ensures { IfSome result (λ b. (e : Entry) → IsNameOf text.entry.now name e → b.now ≡ e.name) }
{
    if !name.is_plain {
        return None;
    }
    Some(&text.as_bytes()[name.start as usize + 1..name.end as usize - 1])
}

// Whether two names are the same.
fn are_same(alloc: Global, text: &str, a: NameSpan, b: NameSpan) -> Result<bool, NoMemory>
    requires first { (e : Entry) × IsNameOf text.now a e }
    requires second { (e : Entry) × IsNameOf text.now b e }
    ensures { IfOk result (λ r. (e f : Entry) → IsNameOf text.now a e → IsNameOf text.now b f
        → r ≡ bytes_eq e.name f.name) }
{
    if let (Some(bytes), Some(others)) = (plain_bytes(text, a), plain_bytes(text, b)) {
        return Ok(bytes == others);
    }
    let name = string_text(alloc, text, b.start as usize)?;
    Ok(is_string_of(text, a.start as usize, name.as_str()))
}

// Whether the i-th name stands before it.
fn is_before(alloc: Global, text: &str, names: &[NameSpan], i: usize) -> Result<bool, NoMemory>
    requires within { i < length names.now }
    requires are { (es : List Entry) × AreNamesOf text.now names.now es }
    ensures { IfOk result (λ b. (es : List Entry) (e : Entry) → AreNamesOf text.now names.now es
        → slice_get es i ≡ Some e
        → b ≡ is_seen (reversed_names (take i es) []) e.name) }
{
    for k in 0..i {
        if are_same(alloc, text, names[k], names[i])? {
            return Ok(true);
        }
    }
    Ok(false)
}

// The first name that repeats another, each compared with all before it.
fn flaw_in_pairs(alloc: Global, text: &str, names: &[NameSpan]) -> Result<Option<Flaw>, NoMemory>
    requires { (es : List Entry) × AreNamesOf text.now names.now es }
    ensures { IfOk result (TellsSecond text.now names.now) }
{
    for i in 0..names.len() {
        if is_before(alloc, text, names, i)? {
            return Ok(Some(names[i].repeated()));
        }
    }
    Ok(None)
}

// A number that equal names share, and by which most others differ.
fn key_of(name: &str) -> u64
    ensures { result ≡ key_of name.now }
{
    let mut key: u64 = 0;
    for byte in name.as_bytes() {
        key = key.wrapping_mul(KEY_FACTOR).wrapping_add(u64::from(*byte));
    }
    key
}

// How two names stand to each other: by their keys, and by their bytes where those are the same.
fn compare(left: &PlacedName<'_>, right: &PlacedName<'_>) -> Ordering
    ensures { result ≡ text_cmp (word left.now) (word right.now) }
{
    match left.key.cmp(&right.key) {
        Ordering::Less => Ordering::Less,
        Ordering::Equal => left.name.cmp(&right.name),
        Ordering::Greater => Ordering::Greater,
    }
}

// Whether two names are the same, and then their keys.
fn are_equal(left: &PlacedName<'_>, right: &PlacedName<'_>) -> bool
    ensures { result ≡ bytes_eq (word left.now) (word right.now) }
{
    left.key == right.key && left.name == right.name
}

// The names by their keys, each with its place among those of the object; equal names are neighbours
// and stay in the order of the text. Numbers are compared in place of most names.
fn sort_names<'s>(
    alloc: Global,
    text: &'s str,
    names: &[NameSpan],
) -> Result<Vec<PlacedName<'s>>, NoMemory>
    requires { (es : List Entry) × AreNamesOf text.now names.now es }
    ensures { IfOk result (λ v. SortsNames text.entry.now names.now v.items) }
{
    let mut sorted = Vec::with_capacity(alloc, names.len())?;
    for place in 0..names.len() {
        let name = string_text(alloc, text, names[place].offset())?;
        let key = key_of(name.as_str());
        sorted.push(PlacedName { key, name, place })?;
    }
    sorted.sort_by(|left, right| compare(left, right))?;
    Ok(sorted)
}

// The lesser of two places.
fn lesser(first: Option<usize>, place: usize) -> Option<usize>
    ensures { result ≡ least first (Some place) }
{
    match first {
        Some(other) => if other <= place {
            Some(other)
        } else {
            Some(place)
        },
        None => Some(place),
    }
}

// The least place of a name that equals the one before it.
fn first_again(sorted: &[PlacedName<'_>]) -> Option<usize>
    ensures { result ≡ again_in sorted.now }
{
    let mut first = None;
    for i in 1..sorted.len() {
        if are_equal(&sorted[i - 1], &sorted[i]) {
            first = lesser(first, sorted[i].place);
        }
    }
    first
}

// The first name that repeats another, by names of which equal ones are neighbours.
fn flaw_in_order(alloc: Global, text: &str, names: &[NameSpan]) -> Result<Option<Flaw>, NoMemory>
    requires { (es : List Entry) × AreNamesOf text.now names.now es }
    ensures { IfOk result (TellsSecond text.now names.now) }
{
    let sorted = sort_names(alloc, text, names)?;
    match first_again(&sorted) {
        Some(i) => Ok(Some(names[i].repeated())),
        None => Ok(None),
    }
}

// Whether the next name is seen to stand behind the name, where a longer one stands behind a shorter
// one.
fn rises(text: &str, name: NameSpan, next: NameSpan) -> bool
    requires first { (e : Entry) × IsNameOf text.now name e }
    requires second { (e : Entry) × IsNameOf text.now next e }
    ensures { result ≡ true → (e f : Entry) → IsNameOf text.now name e → IsNameOf text.now next f
        → rises e.name f.name ≡ true }
{
    let (Some(bytes), Some(others)) = (plain_bytes(text, name), plain_bytes(text, next)) else {
        return false;
    };
    if bytes.len() == others.len() {
        return bytes.cmp(others).is_lt();
    }
    bytes.len() < others.len()
}

// Whether each name is seen to stand behind the one before it, as those of a list that is numbered
// do: then none repeats another.
fn are_rising(text: &str, names: &[NameSpan]) -> bool
    requires { (es : List Entry) × AreNamesOf text.now names.now es }
    ensures { result ≡ true → TellsSecond text.now names.now None }
{
    for i in 1..names.len() {
        if !rises(text, names[i - 1], names[i]) {
            return false;
        }
    }
    true
}

// The first name that repeats another.
fn flaw_of_names(alloc: Global, text: &str, names: &[NameSpan]) -> Result<Option<Flaw>, NoMemory>
    requires { (es : List Entry) × AreNamesOf text.now names.now es }
    ensures { IfOk result (TellsSecond text.now names.now) }
{
    if names.len() <= MOST_PAIRED {
        return flaw_in_pairs(alloc, text, names);
    }
    if are_rising(text, names) {
        return Ok(None);
    }
    flaw_in_order(alloc, text, names)
}

/// Takes off the names from a place on, those of an object, and answers the first one that repeats
/// another.
pub(crate) fn close_names(
    alloc: Global,
    text: &str,
    base: usize,
    names: &mut Vec<NameSpan>,
) -> Result<Option<Flaw>, NoMemory>
    requires within { base ≤ length names.old.items }
    requires are { (es : List Entry) × AreNamesOf text.now (drop base names.old.items) es }
    ensures flaw { IfOk result (TellsSecond text.now (drop base names.old.items)) }
    ensures left { OnOk result (names.new.items ≡ take base names.old.items) }
{
    let flaw = flaw_of_names(alloc, text, &names[base..])?;
    names.truncate(base);
    Ok(flaw)
}
