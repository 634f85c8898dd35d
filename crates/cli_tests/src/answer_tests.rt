//! What calls answer whose answers a run does not print: each compared with what is expected.

ghost use Rattle.std.specs.Prelude.{◌≡◌, ◌<◌};

use crate::call_tests::{group_of, value};
use alias_ref::{Resolved, evaluate, refs_of};
use group_inherit::{Flat, flatten};
use json_span::Plain;
use name_path::{Kind, Link, Links, Paths};
use permutations::{Perms, Source, Sources, list};
use resolver_doc::read_resolver;
use std::alloc::Global;
use std::marker::Brand;
use std::process::Abort;
use std::sync::ledger::{Blank, Ledger};
use tk_io::{Steps, Text};

/// Whether the texts are these.
fn are_texts(texts: &[Text<'_>], expected: &[&str]) -> bool {
    if texts.len() != expected.len() {
        return false;
    }
    for (i, text) in texts.iter().enumerate() {
        let Some(other) = expected.get(i) else {
            return false;
        };
        if text.as_str() != *other {
            return false;
        }
    }
    true
}

/// A link by the steps to it, the name of its token and that token's kind.
type LinkRow = (&'static [&'static str], &'static str, Kind);

fn is_link(link: &Link<'_>, row: &LinkRow) -> bool {
    are_texts(link.trail.as_slice(), row.0)
        && are_texts(link.target.as_slice(), &[row.1])
        && link.kind == Some(row.2)
}

/// Whether the links are these, in this order.
fn are_links(links: &Links<'_>, rows: &[LinkRow]) -> bool {
    if links.len() != rows.len() {
        return false;
    }
    for (i, row) in rows.iter().enumerate() {
        let Some(link) = links.at(i) else {
            return false;
        };
        if !is_link(link, row) {
            return false;
        }
    }
    true
}

/// Whether the value is a dimension of this number and unit.
fn is_size(plain: &Plain<'_>, number: &str, unit: &str) -> Option<bool> {
    let members = plain.as_object()?;
    let first = members.at(0)?;
    let second = members.at(1)?;
    let is_number = first.name.as_str() == "value" && first.value.as_number() == Some(number);
    let is_unit = second.name.as_str() == "unit" && second.value.as_text()?.as_str() == unit;
    Some(members.len() == 2 && is_number && is_unit)
}

/// What the i-th token of the tree comes to.
fn evaluated<'s, L: Ledger>(
    alloc: Global,
    flat: &Flat<'s>,
    i: usize,
    steps: &mut Steps<L>,
) -> Option<Resolved<'s>> {
    let (path, _) = flat.at(i)?;
    if flat.get(path).is_none() {
        return None;
    }
    evaluate(alloc, flat, path, steps).ok()
}

/// Whether the alias has the kind and the value of its token, and the link to it.
fn is_alias(alias: &Resolved<'_>) -> Option<bool> {
    let same = alias.kind == Kind::Dimension && is_size(&alias.plain, "1.50", "px")?;
    Some(same && are_links(&alias.links, &[(&[], "a", Kind::Dimension)]))
}

/// Whether the border has its own kind, its parts in written order with the values that they refer to, and their links.
fn is_border(border: &Resolved<'_>) -> Option<bool> {
    let parts = border.plain.as_object()?;
    let color = parts.at(0)?;
    let width = parts.at(1)?;
    let style = parts.at(2)?;
    let has_color = color.name.as_str() == "color" && color.value.as_number() == Some("7");
    let has_width = width.name.as_str() == "width" && is_size(&width.value, "1.50", "px")?;
    let has_style = style.value.as_text()?.as_str() == "solid";
    let links: &[LinkRow] = &[
        (&["color"], "d", Kind::Number),
        (&["width"], "a", Kind::Dimension),
    ];
    let is_kind = border.kind == Kind::Border && are_links(&border.links, links);
    Some(is_kind && has_color && has_width && has_style)
}

const TOKENS: &str = r#"{
    "a": {"$type": "dimension", "$value": {"value": 1.50, "unit": "px"}},
    "b": {"$value": "{a}"},
    "c": {"$type": "border", "$value": {"color": "{d}", "width": "{a}", "style": "solid"}},
    "d": {"$type": "number", "$value": 7}
}"#;

fn answers_by<L: Ledger>(alloc: Global, text: &[u8], page: Blank) -> Option<bool>
    requires page { (page.name ≡ L.name) × (page.parts ≡ L.parts) × (0 < L.parts) }
{
    let mut steps: Steps<L> = Steps::new(page);
    let group = group_of(alloc, text, &mut steps)?;
    let flat = flatten(alloc, &group, &mut steps).ok()?;
    let alias = evaluated(alloc, &flat, 1, &mut steps)?;
    let border = evaluated(alloc, &flat, 2, &mut steps)?;
    Some(is_alias(&alias)? && is_border(&border)?)
}

fn has_answers(alloc: Global, text: &str) -> Option<bool> {
    answers_by::<Brand>(alloc, text.as_bytes(), Blank::new(1))
}

#[test]
fn tokens_come_to_kind_value_and_links(rt: HostRuntime) {
    assert!(rt; has_answers(rt.alloc(), TOKENS) == Some(true));
}

/// Whether the paths are these, each a list of names.
fn are_paths(paths: &Paths<'_>, expected: &[&[&str]]) -> bool {
    if paths.len() != expected.len() {
        return false;
    }
    for (i, names) in expected.iter().enumerate() {
        let Some(path) = paths.at(i) else {
            return false;
        };
        if !are_texts(path.as_slice(), names) {
            return false;
        }
    }
    true
}

const REFERRING: &str = r##"{"t": {"$value": {
    "x": "{a.b}", "y": ["{c}", 1, "{a.b}"], "z": {"$ref": "#/c/$value/q"}, "w": "{}"
}}}"##;

fn names_by<L: Ledger>(alloc: Global, text: &[u8], page: Blank) -> Option<bool>
    requires page { (page.name ≡ L.name) × (page.parts ≡ L.parts) × (0 < L.parts) }
{
    let mut steps: Steps<L> = Steps::new(page);
    let group = group_of(alloc, text, &mut steps)?;
    let flat = flatten(alloc, &group, &mut steps).ok()?;
    let (_, entry) = flat.at(0)?;
    let paths = refs_of(alloc, &entry.def).ok()?;
    Some(are_paths(&paths, &[&["a", "b"], &["c"], &["a", "b"], &["c"]]))
}

fn has_names(alloc: Global, text: &str) -> Option<bool> {
    names_by::<Brand>(alloc, text.as_bytes(), Blank::new(1))
}

#[test]
fn references_are_listed_as_often_as_written(rt: HostRuntime) {
    assert!(rt; has_names(rt.alloc(), REFERRING) == Some(true));
}

/// Whether the sources are these files, in this order.
fn are_files(sources: &Sources<'_, '_>, expected: &[&str]) -> bool {
    if sources.len() != expected.len() {
        return false;
    }
    for (i, name) in expected.iter().enumerate() {
        let Some(Source::File(file, _, _)) = sources.at(i) else {
            return false;
        };
        if file.as_str() != *name {
            return false;
        }
    }
    true
}

/// A permutation's name and the files of its sources.
type PermRow = (&'static str, &'static [&'static str]);

static PERMUTATIONS: [PermRow; 4] = [
    ("m=b+n=y", &["all.json", "b.json"]),
    ("m=b+n=x", &["all.json", "b.json", "x.json"]),
    ("m=a+n=y", &["all.json", "a.json"]),
    ("m=a+n=x", &["all.json", "a.json", "x.json"]),
];

/// Whether the permutations are these, in this order.
fn are_rows(perms: &Perms<'_, '_>, rows: &[PermRow]) -> bool {
    if perms.len() != rows.len() {
        return false;
    }
    for (i, row) in rows.iter().enumerate() {
        let Some(perm) = perms.at(i) else {
            return false;
        };
        if perm.name.as_str() != row.0 || !are_files(&perm.sources, row.1) {
            return false;
        }
    }
    true
}

const DOCUMENT: &str = r##"{
    "version": "2025.10",
    "sets": {"all": {"sources": [{"$ref": "./all.json"}]}},
    "modifiers": {
        "n": {"contexts": {"y": [], "x": [{"$ref": "x.json"}]}},
        "m": {"contexts": {"b": [{"$ref": "b.json"}], "a": [{"$ref": "a.json"}]}}
    },
    "resolutionOrder": [{"$ref": "#/sets/all"}, {"$ref": "#/modifiers/m"}, {"$ref": "#/modifiers/n"}]
}"##;

fn is_listed(alloc: Global, text: &str) -> Option<bool> {
    let root = value(alloc, text.as_bytes())?;
    let plan = read_resolver(alloc, &root).ok()?;
    let perms = list(alloc, &plan).ok()?;
    Some(are_rows(&perms, &PERMUTATIONS))
}

#[test]
fn permutations_are_listed_last_modifier_fastest(rt: HostRuntime) {
    assert!(rt; is_listed(rt.alloc(), DOCUMENT) == Some(true));
}
