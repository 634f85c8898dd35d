//! Calls that no run of the command line makes, each once with ample memory.

ghost use Rattle.std.specs.Prelude.{◌≡◌, ◌<◌};

use alias_ref::evaluate;
use file_plan::Files;
use group_inherit::{Entry, Flat, flatten};
use json_span::{Node, Plain, ValueType, read};
use std::alloc::Global;
use std::marker::Brand;
use std::process::Abort;
use std::str;
use std::sync::ledger::{Blank, Ledger};
use std::test::Fail;
use tk_io::{Body, NoMemory, Steps};
use token_cells::{Format, cell, sheet_of};
use token_tree::{Group, shape};
use transforms::{Config, Texts};

fn read_by<'s, L: Ledger>(alloc: Global, text: &'s [u8], page: Blank) -> Option<Node<'s>>
    requires page { (page.name ≡ L.name) × (page.parts ≡ L.parts) × (0 < L.parts) }
{
    let mut steps: Steps<L> = Steps::new(page);
    let text = str::from_utf8(text).ok()?;
    read(alloc, text, &mut steps).ok()
}

pub(crate) fn value(alloc: Global, text: &[u8]) -> Option<Node<'_>> {
    read_by::<Brand>(alloc, text, Blank::new(1))
}

/// How long the number or the text is, or how many items the array has.
fn length(alloc: Global, node: &Node<'_>) -> Option<usize> {
    if let Some(number) = node.as_number() {
        return Some(number.len());
    }
    if let Some(items) = node.as_array() {
        return Some(items.len());
    }
    let text = node.as_text(alloc).ok()?;
    Some(text.map_or(0, |text| text.as_str().len()))
}

/// The same of a copy of the value, and its type and truth.
fn leaf(alloc: Global, text: &str) -> Option<(ValueType, Option<bool>, bool, usize)> {
    let node = value(alloc, text.as_bytes())?.copy().ok()?;
    let length = length(alloc, &node)?;
    Some((node.value_type(), node.as_bool(), node.is_null(), length))
}

static LEAVES: [(&str, (ValueType, Option<bool>, bool, usize)); 6] = [
    ("true", (ValueType::Boolean, Some(true), false, 0)),
    ("null", (ValueType::Null, None, true, 0)),
    ("-1.5", (ValueType::Number, None, false, 4)),
    (r#""\u00e9""#, (ValueType::String, None, false, 2)),
    ("[1, 2]", (ValueType::Array, None, false, 2)),
    ("{}", (ValueType::Object, None, false, 0)),
];

#[test]
fn values_have_types_and_lengths(rt: HostRuntime) {
    for (text, expected) in LEAVES.iter() {
        assert!(rt; leaf(rt.alloc(), text) == Some(*expected), "{text}");
    }
}

/// Whether a plain object has one member, a list of this name.
fn is_one_list(plain: &Plain<'_>, name: &str) -> Option<bool> {
    let members = plain.as_object()?;
    let member = members.at(0)?;
    let items = member.value.as_array()?;
    let one = members.len() == 1 && !members.is_empty() && member.name.as_str() == name;
    Some(one && items.len() == 1 && items.at(0)?.as_number() == Some("1.50"))
}

fn has_plain_list(alloc: Global) -> Option<bool> {
    let plain = value(alloc, br#"{"\u0061":[1.50]}"#)?.to_plain(alloc).ok()?;
    is_one_list(&plain, "a")
}

#[test]
fn plain_values_have_their_parts(rt: HostRuntime) {
    assert!(rt; has_plain_list(rt.alloc()) == Some(true));
}

pub(crate) fn group_of<'s, L: Ledger>(
    alloc: Global,
    text: &'s [u8],
    steps: &mut Steps<L>,
) -> Option<Group<'s>> {
    let text = str::from_utf8(text).ok()?;
    let Ok(root) = read(alloc, text, steps) else {
        return None;
    };
    shape(alloc, "tokens.json", text, &root).ok()
}

/// Whether the second member of the group is found by its name.
fn is_found_by_name(group: &Group<'_>) -> Option<bool> {
    let (name, _) = group.members.at(1)?;
    Some(name.as_str() == "b" && group.members.get(name).is_some())
}

/// A flat tree with the second token alone, put in by hand.
fn second_alone<'s>(alloc: Global, flat: &Flat<'s>) -> Option<Flat<'s>> {
    let (path, entry) = flat.at(1)?;
    let entry = Entry {
        def: entry.def.clone().ok()?,
        group_kind: entry.group_kind,
        group_mark: None,
    };
    let mut one = Flat::new(alloc);
    if !one.is_empty() {
        return None;
    }
    one.put(path, entry).ok()?;
    Some(one)
}

/// Whether the second token alone, whose reference leads nowhere then, has no value, and among all tokens has one.
fn is_resolved<'s, L: Ledger>(
    alloc: Global,
    flat: &Flat<'s>,
    steps: &mut Steps<L>,
) -> Option<bool> {
    let alone = second_alone(alloc, flat)?;
    let (path, _) = flat.at(1)?;
    if alone.len() != 1 || alone.get(path).is_none() || flat.get(path).is_none() {
        return None;
    }
    let is_lost = evaluate(alloc, &alone, path, steps).is_err();
    Some(is_lost && evaluate(alloc, flat, path, steps).is_ok())
}

/// The style sheet of the second token alone.
fn sheet_of_second<'s, L: Ledger>(
    alloc: Global,
    flat: &Flat<'s>,
    steps: &mut Steps<L>,
) -> Option<Body> {
    let (path, _) = flat.at(1)?;
    if flat.get(path).is_none() {
        return None;
    }
    let cells = cell(alloc, flat, path, &Config::plain(alloc), steps).ok()?;
    sheet_of(Format::Css, &cells).ok()
}

fn tokens_by<L: Ledger>(alloc: Global, text: &[u8], page: Blank) -> Option<Body>
    requires page { (page.name ≡ L.name) × (page.parts ≡ L.parts) × (0 < L.parts) }
{
    let mut steps: Steps<L> = Steps::new(page);
    let group = group_of(alloc, text, &mut steps)?;
    let flat = flatten(alloc, &group, &mut steps).ok()?;
    if !is_found_by_name(&group)? || !is_resolved(alloc, &flat, &mut steps)? {
        return None;
    }
    sheet_of_second(alloc, &flat, &mut steps)
}

fn has_sheet_of_second(alloc: Global, text: &str, sheet: &str) -> bool {
    match tokens_by::<Brand>(alloc, text.as_bytes(), Blank::new(1)) {
        Some(body) => body.as_slice() == sheet.as_bytes(),
        None => false,
    }
}

#[test]
fn tokens_are_taken_alone(rt: HostRuntime) {
    let text = r#"{"a":{"$type":"number","$value":1},"b":{"$value":"{a}"}}"#;
    assert!(rt; has_sheet_of_second(rt.alloc(), text, ":root {\n  --b: var(--a);\n}\n"));
}

/// Whether a copy of a list of texts stays where the list is cleared.
fn copied_texts_stay(alloc: Global) -> Result<bool, NoMemory> {
    let mut texts = Texts::new(alloc);
    texts.push(b"one")?;
    texts.push(b"")?;
    let copy = texts.copy(alloc)?;
    texts.clear();
    Ok(texts.len() == 0 && copy.len() == 2 && copy.at(0) == Some(b"one".as_slice()))
}

/// Whether a copy of files stays where one is taken away.
fn copied_files_stay(alloc: Global) -> Result<bool, NoMemory> {
    let mut files = Files::new(alloc);
    files.put("b.json", "{}")?;
    files.put("a.json", "[]")?;
    let copy = files.copy()?;
    files.del("a.json");
    Ok(files.len() == 1 && copy.len() == 2 && copy.at(0) == Some(("a.json", "[]")))
}

#[test]
fn copies_stay(rt: HostRuntime) -> Result<(), Fail> {
    assert!(rt; copied_texts_stay(rt.alloc())?);
    assert!(rt; copied_files_stay(rt.alloc())?);
    Ok(())
}
