//! Spellings of paths, places and groups, and the order of paths.

use crate::checks::{check, check_at};
use name_path::{
    Kind, Path, PathMap, Place, RefStop, is_name, print_group, print_path, print_place, read_curly,
    read_group, read_pointer,
};
use std::alloc::{AllocError, Global};
use std::cmp::Ordering;
use tk_io::{Bytes, Text};

// Whether these are the texts, with a line's end after each.
fn are_lines(texts: &[Text<'_>], lines: &str) -> bool {
    let mut rest = lines;
    for text in texts {
        let Some(after) = rest.strip_prefix(text.as_str()) else {
            return false;
        };
        let Some(after) = after.strip_prefix('\n') else {
            return false;
        };
        rest = after;
    }
    rest.is_empty()
}

// Whether the text is a curly alias of these names.
fn is_curly(alloc: Global, text: &str, names: &str) -> bool {
    match read_curly(alloc, &Text::of(text)) {
        Ok(path) => are_lines(path.as_slice(), names),
        Err(_) => false,
    }
}

const CURLY: &[(&str, &str)] = &[
    ("{a.$root}", "a\n$root\n"),
    ("{$root}", "$root\n"),
    ("{a}", "a\n"),
    ("{color.text ink.50%}", "color\ntext ink\n50%\n"),
    ("{größe.色}", "größe\n色\n"),
    ("{a/b.c~d}", "a/b\nc~d\n"),
];

#[test]
fn reads_curly_aliases(rt: HostRuntime) {
    for (text, names) in CURLY {
        check(&rt, is_curly(rt.alloc(), text, names), text);
    }
}

fn curly_is_refused(alloc: Global, text: &str) -> bool {
    matches!(read_curly(alloc, &Text::of(text)), Err(RefStop::BadRef))
}

const NOT_CURLY: &[&str] = &[
    "",
    "{",
    "}",
    "{}",
    "{a..b}",
    "{.a}",
    "{a.}",
    "{$root.a}",
    "{$value}",
    "{a.{b}}",
    "{a",
    "a}",
    " {a}",
    "#/a",
];

#[test]
fn refuses_what_is_no_curly_alias(rt: HostRuntime) {
    for text in NOT_CURLY {
        check(&rt, curly_is_refused(rt.alloc(), text), text);
    }
}

// Whether the place has these names and steps.
fn has(place: &Place<'_>, names: &str, steps: &str) -> bool {
    are_lines(place.token.as_slice(), names) && are_lines(place.trail.as_slice(), steps)
}

fn prints(place: &Place<'_>, alloc: Global, printed: &str) -> bool {
    let mut out = Bytes::new(alloc);
    print_place(place, &mut out).is_ok() && out.as_slice() == printed.as_bytes()
}

// Whether a copy of the place has these names and steps and is printed so.
fn is_place(alloc: Global, place: &Place<'_>, names: &str, steps: &str, printed: &str) -> bool {
    match place.copy() {
        Ok(copy) => has(&copy, names, steps) && prints(&copy, alloc, printed),
        Err(_) => false,
    }
}

// Whether the text is a pointer to these names and steps, which is printed so.
fn is_pointer(alloc: Global, text: &str, names: &str, steps: &str, printed: &str) -> bool {
    match read_pointer(alloc, &Text::of(text)) {
        Ok(place) => is_place(alloc, &place, names, steps, printed),
        Err(_) => false,
    }
}

const POINTERS: &[(&str, &str, &str, &str)] = &[
    ("#/a~1b/$value/0", "a/b\n", "0\n", "#/a~1b/$value/0"),
    ("#/a/b", "a\nb\n", "", "#/a/b/$value"),
    ("#/a/$value", "a\n", "", "#/a/$value"),
    (
        "#/a/$root/$value/x",
        "a\n$root\n",
        "x\n",
        "#/a/$root/$value/x",
    ),
    ("#/a/$value/$value", "a\n", "$value\n", "#/a/$value/$value"),
    ("#/a/$value/", "a\n", "\n", "#/a/$value/"),
    (
        "#/~01/$value/~0~1./01",
        "~1\n",
        "~/.\n01\n",
        "#/~01/$value/~0~1./01",
    ),
    ("#/ä ö/$value/ü", "ä ö\n", "ü\n", "#/ä ö/$value/ü"),
];

#[test]
fn reads_pointers_back(rt: HostRuntime) {
    for (text, names, steps, printed) in POINTERS {
        check(
            &rt,
            is_pointer(rt.alloc(), text, names, steps, printed),
            text,
        );
    }
}

fn pointer_is_refused(alloc: Global, text: &str) -> bool {
    matches!(read_pointer(alloc, &Text::of(text)), Err(RefStop::BadRef))
}

const NO_POINTERS: &[&str] = &[
    "",
    "#",
    "#/",
    "/a",
    "#a",
    "#/a/",
    "#/$value",
    "#/$value/a",
    "#/$root/a",
    "#/a.b",
    "#/a~2",
    "#/a~",
    "#/a/$value/~",
    "{a}",
];

#[test]
fn refuses_what_is_no_pointer(rt: HostRuntime) {
    for text in NO_POINTERS {
        check(&rt, pointer_is_refused(rt.alloc(), text), text);
    }
}

// Whether the path's names are joined so.
fn joins(path: &Path<'_>, alloc: Global, joined: &str) -> bool {
    let mut out = Bytes::new(alloc);
    print_path(path, &mut out).is_ok() && out.as_slice() == joined.as_bytes()
}

fn prints_group(path: &Path<'_>, alloc: Global, printed: &str) -> bool {
    let mut out = Bytes::new(alloc);
    print_group(path, &mut out).is_ok() && out.as_slice() == printed.as_bytes()
}

// Whether the text is a group whose names are joined so, and which is printed so.
fn is_group(alloc: Global, text: &str, joined: &str, printed: &str) -> bool {
    match read_group(alloc, &Text::of(text)) {
        Ok(path) => joins(&path, alloc, joined) && prints_group(&path, alloc, printed),
        Err(_) => false,
    }
}

const GROUPS: &[(&str, &str, &str)] = &[
    ("#", "", "#"),
    ("{a.b}", "a.b", "#/a/b"),
    ("#/a~1b", "a/b", "#/a~1b"),
    ("#/a/b", "a.b", "#/a/b"),
];

#[test]
fn reads_groups_back(rt: HostRuntime) {
    for (text, joined, printed) in GROUPS {
        check(&rt, is_group(rt.alloc(), text, joined, printed), text);
    }
}

fn group_is_refused(alloc: Global, text: &str) -> bool {
    matches!(read_group(alloc, &Text::of(text)), Err(RefStop::BadRef))
}

const NO_GROUPS: &[&str] = &[
    "",
    "{}",
    "{a.$root}",
    "#/$root",
    "#/a/$value",
    "#/",
    "#/a~2",
];

#[test]
fn refuses_what_is_no_group(rt: HostRuntime) {
    for text in NO_GROUPS {
        check(&rt, group_is_refused(rt.alloc(), text), text);
    }
}

// Whether the names are put at the end of the path.
fn are_pushed<'s>(path: &mut Path<'s>, names: &[&'s str]) -> bool {
    for name in names {
        if path.push(Text::of(name)).is_err() {
            return false;
        }
    }
    true
}

// Whether a copy of the path stands so to the other path.
fn copy_stands<'s>(path: &Path<'s>, other: &Path<'s>, order: Ordering) -> bool {
    match path.copy() {
        Ok(copy) => copy.cmp(other) == order,
        Err(_) => false,
    }
}

// Whether the path of these names stands so to the path of the others.
fn stands<'s>(alloc: Global, names: &[&'s str], others: &[&'s str], order: Ordering) -> bool {
    let mut path = Path::new(alloc);
    let mut other = Path::new(alloc);
    are_pushed(&mut path, names)
        && are_pushed(&mut other, others)
        && copy_stands(&path, &other, order)
}

// Whether the first names stand before the others, behind them when exchanged, and beside themselves.
fn stands_below<'s>(alloc: Global, names: &[&'s str], others: &[&'s str]) -> bool {
    stands(alloc, names, others, Ordering::Less)
        && stands(alloc, others, names, Ordering::Greater)
        && stands(alloc, names, names, Ordering::Equal)
}

const BELOW: &[(&[&str], &[&str])] = &[
    (&[], &["a"]),
    (&["a"], &["a", "b"]),
    (&["a", "b"], &["a", "é"]),
    (&["a", "é"], &["a-b", "c"]),
    (&["a-b", "c"], &["b"]),
];

#[test]
fn orders_paths_by_names(rt: HostRuntime) {
    for (i, (names, others)) in BELOW.iter().enumerate() {
        check_at(&rt, stands_below(rt.alloc(), names, others), i);
    }
}

// Whether the value is put at the path of these names.
fn is_put(
    map: &mut PathMap<'static, u8>,
    alloc: Global,
    names: &[&'static str],
    value: u8,
) -> bool {
    let mut path = Path::new(alloc);
    are_pushed(&mut path, names) && map.put(&path, value).is_ok()
}

// Whether these are the values, in the order of their paths.
fn are_values(map: &PathMap<'static, u8>, values: &[u8]) -> bool {
    for (i, value) in values.iter().enumerate() {
        let Some((_, found)) = map.at(i) else {
            return false;
        };
        if found != value {
            return false;
        }
    }
    map.len() == values.len() && map.as_slice().len() == values.len()
}

fn holds(map: &PathMap<'static, u8>, alloc: Global, names: &[&'static str], value: u8) -> bool {
    let mut path = Path::new(alloc);
    are_pushed(&mut path, names) && map.get(&path) == Some(&value)
}

// What is put into a map, in this order: the path's names, the value, and then the map's values.
const PUTS: &[(&[&str], u8, &[u8])] = &[
    (&["a-b", "c"], 3, &[3]),
    (&["a", "b"], 1, &[1, 3]),
    (&[], 1, &[1, 1, 3]),
    (&["a", "b"], 2, &[1, 2, 3]),
    (&["m"], 10, &[1, 2, 3, 10]),
    (&["c"], 11, &[1, 2, 3, 11, 10]),
    (&["x"], 12, &[1, 2, 3, 11, 10, 12]),
    (&["b"], 13, &[1, 2, 3, 13, 11, 10, 12]),
    (&["y"], 14, &[1, 2, 3, 13, 11, 10, 12, 14]),
];

fn all_are_put(map: &mut PathMap<'static, u8>, alloc: Global) -> bool {
    for (names, value, values) in PUTS {
        if !is_put(map, alloc, names, *value) || !are_values(map, values) {
            return false;
        }
    }
    true
}

fn holds_eight(map: &PathMap<'static, u8>, alloc: Global) -> bool {
    !map.is_empty() && map.at(8).is_none() && holds(map, alloc, &["a", "b"], 2)
}

fn values_are_kept(alloc: Global) -> bool {
    let mut map = PathMap::new(alloc);
    map.is_empty() && all_are_put(&mut map, alloc) && holds_eight(&map, alloc)
}

#[test]
fn keeps_values_in_path_order(rt: HostRuntime) {
    assert!(rt; values_are_kept(rt.alloc()));
}

// Whether the text is a pointer with names and, where this is said, with steps.
fn has_names(alloc: Global, text: &str, with_steps: bool) -> bool {
    match read_pointer(alloc, &Text::of(text)) {
        Ok(place) => !place.token.is_empty() && place.trail.is_empty() != with_steps,
        Err(_) => false,
    }
}

#[test]
fn tells_whether_there_are_names_and_steps(rt: HostRuntime) {
    assert!(rt; has_names(rt.alloc(), "#/a", false));
    assert!(rt; has_names(rt.alloc(), "#/a/$value/0", true));
    assert!(rt; Path::new(rt.alloc()).is_empty());
}

// The text of a front and so many times the piece.
fn repeated(alloc: Global, front: &str, piece: &str, count: usize) -> Result<String, AllocError> {
    let mut text = String::from_str(alloc, front)?;
    for _step in 0..count {
        text.push_str(piece)?;
    }
    Ok(text)
}

fn long_pointer_is_read(alloc: Global) -> bool {
    let Ok(text) = repeated(alloc, "#/a/$value", "/x~0", 10_000) else {
        return false;
    };
    let Ok(steps) = repeated(alloc, "", "x~\n", 10_000) else {
        return false;
    };
    is_pointer(alloc, text.as_str(), "a\n", steps.as_str(), text.as_str())
}

#[test]
fn reads_a_pointer_of_ten_thousand_steps(rt: HostRuntime) {
    assert!(rt; long_pointer_is_read(rt.alloc()));
}

fn kinds_are_named() -> bool {
    Kind::FontFamily.name() == "fontFamily"
        && matches!(Kind::named("strokeStyle"), Some(Kind::StrokeStyle))
        && Kind::named("string").is_none()
        && Kind::Number.is_simple()
        && !Kind::Shadow.is_simple()
}

#[test]
fn names_kinds(rt: HostRuntime) {
    assert!(rt; kinds_are_named());
    assert!(rt; is_name("a b") && !is_name("$a"));
}
