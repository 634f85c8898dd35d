//! Maps of name_path and tk_io that are lists in the order of their keys, filled with much in some order and read back.

use itoa::Buffer;
use name_path::{Path, PathMap};
use std::alloc::Global;
use tk_io::{Bytes, NoMemory, Outputs, Text};

// The i-th of the numbers below the count, rising or falling.
fn number_at(i: usize, count: usize, falls: bool) -> usize {
    if falls {
        count.saturating_sub(i).saturating_sub(1)
    } else {
        i
    }
}

// A text of six digits for a number below 900,000, so that texts stand in the order of their numbers.
fn digits(alloc: Global, number: usize) -> Result<String, NoMemory> {
    let mut buffer = Buffer::new();
    let text = String::from_str(alloc, buffer.format(number.saturating_add(100_000)))?;
    Ok(text)
}

fn name_of<'s>(alloc: Global, number: usize) -> Result<Text<'s>, NoMemory> {
    match digits(alloc, number) {
        Ok(digits) => Text::from_string(digits),
        Err(NoMemory) => Err(NoMemory),
    }
}

// Whether the names of a group and of a number are put at the end of the path.
fn are_pushed(path: &mut Path<'_>, alloc: Global, number: usize) -> bool {
    match name_of(alloc, number) {
        Ok(name) => path.push(Text::of("group")).is_ok() && path.push(name).is_ok(),
        Err(NoMemory) => false,
    }
}

fn path_is_put(map: &mut PathMap<'_, usize>, alloc: Global, number: usize) -> bool {
    let mut path = Path::new(alloc);
    are_pushed(&mut path, alloc, number) && map.put(&path, number).is_ok()
}

fn path_is_held(map: &PathMap<'_, usize>, alloc: Global, number: usize) -> bool {
    let mut path = Path::new(alloc);
    are_pushed(&mut path, alloc, number) && map.get(&path) == Some(&number)
}

// Whether each path of a map has its number at its place.
fn paths_are_held(map: &PathMap<'_, usize>, alloc: Global) -> bool {
    for (place, entry) in map.as_slice().iter().enumerate() {
        if entry.1 != place || !path_is_held(map, alloc, place) {
            return false;
        }
    }
    true
}

// Whether a map of so many paths, put in rising or falling order, has each of them at its place.
fn paths_stand(alloc: Global, count: usize, falls: bool) -> bool {
    let mut map = PathMap::new(alloc);
    for i in 0..count {
        if !path_is_put(&mut map, alloc, number_at(i, count, falls)) {
            return false;
        }
    }
    map.len() == count && paths_are_held(&map, alloc)
}

#[test]
fn many_paths_stand_in_their_order(rt: HostRuntime) {
    assert!(rt; paths_stand(rt.alloc(), 300_000, false));
    assert!(rt; paths_stand(rt.alloc(), 5_000, true));
}

fn output_is_put(outputs: &mut Outputs, alloc: Global, number: usize) -> bool {
    let Ok(text) = digits(alloc, number) else {
        return false;
    };
    let mut body = Bytes::new(alloc);
    body.append(text.as_bytes()).is_ok() && outputs.insert(text.as_str(), body).is_ok()
}

// Whether the path at a place is that of its number, with the body that was put there.
fn output_is_held(outputs: &Outputs, alloc: Global, number: usize) -> bool {
    let Ok(text) = digits(alloc, number) else {
        return false;
    };
    let body = text.as_bytes();
    outputs.at(number) == Some((text.as_str(), body)) && outputs.get(text.as_str()) == Some(body)
}

fn outputs_are_held(outputs: &Outputs, alloc: Global) -> bool {
    for place in 0..outputs.len() {
        if !output_is_held(outputs, alloc, place) {
            return false;
        }
    }
    true
}

// Whether so many outputs, put in rising or falling order, stand each at its place.
fn outputs_stand(alloc: Global, count: usize, falls: bool) -> bool {
    let mut outputs = Outputs::new(alloc);
    for i in 0..count {
        if !output_is_put(&mut outputs, alloc, number_at(i, count, falls)) {
            return false;
        }
    }
    outputs.len() == count && outputs_are_held(&outputs, alloc)
}

#[test]
fn many_outputs_stand_in_their_order(rt: HostRuntime) {
    assert!(rt; outputs_stand(rt.alloc(), 300_000, false));
    assert!(rt; outputs_stand(rt.alloc(), 5_000, true));
}
