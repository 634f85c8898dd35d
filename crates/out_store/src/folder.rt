//! A folder as a store: the edge at which a file system is trusted.

ghost use Rattle.std.specs.Prelude.{◌≡◌, ◌≤◌, None};
ghost use Rattle.tk_io.specs.Causes.{following};

use crate::stop::StoreStop;
use crate::store::Store;
use std::fs::File;
use std::io::{ErrorKind, Read, Write};
use std::marker::Model;
use std::{fs, io};
use tk_io::{Bytes, NoMemory};

/// A folder whose files are what is held, each under its path below the folder. It tells nothing of its content, and counts
/// each error of the system as a fault.
///
/// A write goes to the file itself, in folders that are made where they lack, and is answered after the file and its
/// folder were synced; so is a removal. Below the folder nothing but folders and files is touched: a path that leads
/// through a symbolic link, or to one, or to anything else that is no file, is a fault. A file is read no further than
/// the length that it has when it is opened.
///
/// Where a folder `.tokc` stands in the folder, the outputs stand right in the folder, and `.tokc` has the slots and
/// gates; a file is then written under a new name there and renamed, so that who reads it sees the old bytes or the new
/// ones, whole.
#[derive(Drop)]
pub struct DirStore<'r> {
    rt: &'r HostRuntime,
    root: &'r str,
    faults: u64,
}

impl<'r> Model for DirStore<'r> {
    ghost use Rattle.std.specs.Prelude.{ℕ};

    ghost Value = { ℕ };

    ghost view = { λ s. s.faults };
}

impl<'r> DirStore<'r> {
    /// The folder at this path, or the one where the program runs where the path is empty. No file is touched.
    pub fn new(rt: &'r HostRuntime, root: &'r str) -> DirStore<'r>
        ensures { result ≡ 0 }
    {
        DirStore {
            rt,
            root,
            faults: 0,
        }
    }

    // Counts a fault.
    fn count(&mut self)
        ensures next { self.new ≡ following self.old }
        ensures later { self.old ≤ self.new }
    {
        self.faults = self.faults.saturating_add(1);
    }
}

impl<'r> Store for DirStore<'r> {
    ghost held = { λ _. None };

    ghost faults = { λ s. s };

    fn read(&mut self, path: &str) -> Result<Option<Bytes>, StoreStop> {
        match read_file(self.rt, self.root, path) {
            Ok(found) => Ok(found),
            Err(StoreStop::NoMemory) => Err(StoreStop::NoMemory),
            Err(StoreStop::Failed) => {
                self.count();
                Err(StoreStop::Failed)
            }
        }
    }

    fn write(&mut self, path: &str, bytes: &[u8]) -> Result<(), StoreStop> {
        match write_file(self.rt, self.root, path, bytes) {
            Ok(()) => Ok(()),
            Err(StoreStop::NoMemory) => Err(StoreStop::NoMemory),
            Err(StoreStop::Failed) => {
                self.count();
                Err(StoreStop::Failed)
            }
        }
    }

    fn remove(&mut self, path: &str) -> Result<(), StoreStop> {
        match remove_file(self.rt, self.root, path) {
            Ok(()) => Ok(()),
            Err(StoreStop::NoMemory) => Err(StoreStop::NoMemory),
            Err(StoreStop::Failed) => {
                self.count();
                Err(StoreStop::Failed)
            }
        }
    }
}

/// The folder in a folder of outputs that has their slots and gates, and the name of a file that is being written there.
const LISTS: &str = ".tokc";

const NEW: &str = "new";

// Where a folder has what is held.
#[derive(Clone, Copy, PartialEq, Eq)]
enum Layout {
    // Under its path, `out/..` or `meta/..`.
    Apart,
    // Outputs right in the folder, slots and gates in `.tokc`.
    Within,
}

// What stands at a place.
#[derive(Clone, Copy, PartialEq, Eq)]
enum Standing {
    Nothing,
    Folder,
    File,
}

// What stands at the place; anything but a folder or a file is a fault.
fn what_stands(rt: &HostRuntime, place: &str) -> Result<Standing, StoreStop> {
    match fs::symlink_metadata(rt, place) {
        Ok(found) if found.is_dir() => Ok(Standing::Folder),
        Ok(found) if found.is_file() => Ok(Standing::File),
        Ok(_) => Err(StoreStop::Failed),
        Err(error) if error.kind() == ErrorKind::NotFound => Ok(Standing::Nothing),
        Err(_) => Err(StoreStop::Failed),
    }
}

// Whether the path stays below the folder that it begins in.
fn stays_below(path: &str) -> bool {
    for name in path.split('/') {
        if name.is_empty() || name == "." || name == ".." {
            return false;
        }
    }
    true
}

// Adds a name to the place.
fn enter(place: &mut String, name: &str) -> Result<(), NoMemory> {
    if !place.is_empty() {
        place.push_str("/")?;
    }
    place.push_str(name)?;
    Ok(())
}

// Where the folder has what is held.
fn layout_of(rt: &HostRuntime, root: &str) -> Result<Layout, StoreStop> {
    let mut place = String::from_str(rt.alloc(), root)?;
    enter(&mut place, LISTS)?;
    match what_stands(rt, place.as_str())? {
        Standing::Folder => Ok(Layout::Within),
        Standing::Nothing | Standing::File => Ok(Layout::Apart),
    }
}

// The path below the folder of what is held under this one.
fn path_below(rt: &HostRuntime, layout: Layout, path: &str) -> Result<String, NoMemory> {
    if layout == Layout::Apart {
        return Ok(String::from_str(rt.alloc(), path)?);
    }
    if let Some(output) = path.strip_prefix("out/") {
        return Ok(String::from_str(rt.alloc(), output)?);
    }
    let mut below = String::from_str(rt.alloc(), LISTS)?;
    enter(&mut below, path.strip_prefix("meta/").unwrap_or(path))?;
    Ok(below)
}

// An error of the system is a failed call.
fn or_failed<T>(answer: io::Result<T>) -> Result<T, StoreStop> {
    match answer {
        Ok(value) => Ok(value),
        Err(_) => Err(StoreStop::Failed),
    }
}

// Makes what was put into the folder, and taken out of it, stay.
fn sync_folder(rt: &HostRuntime, place: &str) -> Result<(), StoreStop> {
    let folder = or_failed(File::open(rt, place))?;
    or_failed(folder.sync_all())
}

// The same of the folder that the place is in.
fn sync_around(rt: &HostRuntime, place: &str) -> Result<(), StoreStop> {
    match place.rsplit_once('/') {
        Some((folder, _)) => sync_folder(rt, folder),
        None => sync_folder(rt, "."),
    }
}

// Whether the folder stands; where it lacks it is made, if it may be.
fn has_folder(rt: &HostRuntime, place: &str, makes: bool) -> Result<bool, StoreStop> {
    match what_stands(rt, place)? {
        Standing::Folder => Ok(true),
        Standing::File => Err(StoreStop::Failed),
        Standing::Nothing => {
            if makes {
                or_failed(fs::create_dir(rt, place))?;
                sync_around(rt, place)?;
            }
            Ok(makes)
        }
    }
}

// The place of the path's file, behind folders that are looked at one by one; none where one of them lacks.
fn lead(
    rt: &HostRuntime,
    root: &str,
    layout: Layout,
    path: &str,
    makes: bool,
) -> Result<Option<String>, StoreStop> {
    let below = path_below(rt, layout, path)?;
    if !stays_below(below.as_str()) {
        return Err(StoreStop::Failed);
    }
    let mut place = String::from_str(rt.alloc(), root)?;
    for name in below.as_str().split('/') {
        if place.len() > root.len() && !has_folder(rt, place.as_str(), makes)? {
            return Ok(None);
        }
        enter(&mut place, name)?;
    }
    Ok(Some(place))
}

// The bytes of the file, no further than its length.
fn read_whole(rt: &HostRuntime, place: &str) -> Result<Bytes, StoreStop> {
    let mut file = or_failed(File::open(rt, place))?;
    let found = or_failed(file.metadata())?;
    let mut bytes = Bytes::new(rt.alloc());
    let mut buf = [0u8; 4096];
    let mut left = found.len();
    while left > 0 {
        let want = left.min(4096) as usize;
        match file.read(&mut buf[..want]) {
            Ok(0) => return Ok(bytes),
            Ok(n) => {
                bytes.append(&buf[..n])?;
                left -= n as u64;
            }
            Err(_) => return Err(StoreStop::Failed),
        }
    }
    Ok(bytes)
}

fn read_file(rt: &HostRuntime, root: &str, path: &str) -> Result<Option<Bytes>, StoreStop> {
    let layout = layout_of(rt, root)?;
    let Some(place) = lead(rt, root, layout, path, false)? else {
        return Ok(None);
    };
    match what_stands(rt, place.as_str())? {
        Standing::File => Ok(Some(read_whole(rt, place.as_str())?)),
        Standing::Folder => Err(StoreStop::Failed),
        Standing::Nothing => Ok(None),
    }
}

// Writes the bytes to the file, and makes them stay.
fn write_whole(rt: &HostRuntime, place: &str, bytes: &[u8]) -> Result<(), StoreStop> {
    let mut file = or_failed(File::create(rt, place))?;
    or_failed(file.write_all(bytes))?;
    or_failed(file.sync_all())
}

// The same by a file in `.tokc`, which is renamed when it is whole.
fn write_renamed(rt: &HostRuntime, root: &str, place: &str, bytes: &[u8]) -> Result<(), StoreStop> {
    let mut new = String::from_str(rt.alloc(), root)?;
    enter(&mut new, LISTS)?;
    enter(&mut new, NEW)?;
    if what_stands(rt, new.as_str())? == Standing::Folder {
        return Err(StoreStop::Failed);
    }
    write_whole(rt, new.as_str(), bytes)?;
    or_failed(fs::rename(rt, new.as_str(), place))
}

fn write_file(rt: &HostRuntime, root: &str, path: &str, bytes: &[u8]) -> Result<(), StoreStop> {
    if !root.is_empty() {
        or_failed(fs::create_dir_all(rt, root))?;
    }
    let layout = layout_of(rt, root)?;
    let Some(place) = lead(rt, root, layout, path, true)? else {
        return Err(StoreStop::Failed);
    };
    if what_stands(rt, place.as_str())? == Standing::Folder {
        return Err(StoreStop::Failed);
    }
    match layout {
        Layout::Apart => write_whole(rt, place.as_str(), bytes)?,
        Layout::Within => write_renamed(rt, root, place.as_str(), bytes)?,
    }
    sync_around(rt, place.as_str())
}

fn remove_file(rt: &HostRuntime, root: &str, path: &str) -> Result<(), StoreStop> {
    let layout = layout_of(rt, root)?;
    let Some(place) = lead(rt, root, layout, path, false)? else {
        return Ok(());
    };
    match what_stands(rt, place.as_str())? {
        Standing::File => {
            or_failed(fs::remove_file(rt, place.as_str()))?;
            sync_around(rt, place.as_str())
        }
        Standing::Folder => Err(StoreStop::Failed),
        Standing::Nothing => Ok(()),
    }
}
