//! A store in memory whose calls fail where they are told to.

ghost use Rattle.std.specs.Prelude.{◌≡◌, ◌⊎◌, ◌==◌, ◌↔◌, Some, IsErrOf, IsErr, IfOk, OnOk, OnErr};
ghost use Rattle.std.specs.Prelude.{if◌then◌else◌};
ghost use Rattle.std.specs.FinMap as map;
ghost use Rattle.std.specs.Option.{option_map};
ghost use Rattle.tk_io.specs.Causes.{following};
ghost use Rattle.out_store.specs.Effects.{Elsewhere, IsCaused, IsTakenOrKept};
ghost use Rattle.out_store.specs.Memory.{IsCalled, IsCounted, MustFail};

use crate::stop::StoreStop;
use crate::store::Store;
use std::alloc::Global;
use std::marker::Model;
use tk_io::{Bytes, NoMemory, TextMap};

/// A store in memory. Its calls are numbered from 1, and those whose number is listed fail.
#[derive(Drop)]
pub struct MemStore<'a> {
    alloc: Global,
    held: TextMap<Bytes>,
    fails: &'a [u64],
    torn: &'a [u8],
    drops: bool,
    calls: u64,
    faults: u64,
}

impl<'a> Model for MemStore<'a> {
    ghost use Rattle.out_store.specs.Memory.{StoreInMemory, coded_store};

    ghost Value = { StoreInMemory };

    ghost coded = { coded_store };

    ghost view = { λ s. record {
      held = s.held;
      fails = s.fails.now;
      torn = s.torn.now;
      drops = s.drops;
      calls = s.calls;
      faults = s.faults;
    } };
}

// A copy of the bytes.
fn copied(alloc: Global, bytes: &[u8]) -> Result<Bytes, NoMemory>
    ensures { IfOk result (λ copy. copy ≡ bytes.now) }
{
    let mut copy = Bytes::new(alloc);
    copy.append(bytes)?;
    Ok(copy)
}

// Puts a copy of the bytes under the path.
fn put_copy(
    alloc: Global,
    held: &mut TextMap<Bytes>,
    path: &str,
    bytes: &[u8],
) -> Result<(), NoMemory>
    ensures ok { OnOk result (held.new ≡ map.insert held.old path.now bytes.now) }
    ensures err { OnErr result (held.new ≡ held.old) }
{
    let copy = copied(alloc, bytes)?;
    held.put(path, copy)
}

// What a write that fails leaves: these bytes, or no path where memory runs out.
fn leave(alloc: Global, held: &mut TextMap<Bytes>, path: &str, torn: &[u8])
    ensures { (held.new ≡ map.insert held.old path.now torn.now)
        ⊎ (held.new ≡ map.remove held.old path.now) }
{
    if put_copy(alloc, held, path, torn).is_err() {
        held.del(path);
    }
}

impl<'a> MemStore<'a> {
    /// A store that holds nothing. The calls whose numbers stand in `fails` fail; a write that does leaves `torn` (or no
    /// path where memory runs out), and a remove that does takes the path away where `drops` is true.
    pub fn new(alloc: Global, fails: &'a [u64], torn: &'a [u8], drops: bool) -> MemStore<'a>
        ensures { result ≡ record {
          held = map.empty;
          fails = fails.entry.now;
          torn = torn.entry.now;
          drops = drops;
          calls = 0;
          faults = 0;
        } }
    {
        MemStore {
            alloc,
            held: TextMap::new(alloc),
            fails,
            torn,
            drops,
            calls: 0,
            faults: 0,
        }
    }

    /// The bytes under the path, or none where it is not held.
    pub fn get(&self, path: &str) -> Option<&[u8]>
        ensures { option_map (λ b. b.now) result ≡ map.get self.now.held path.now }
    {
        match self.held.get(path) {
            Some(bytes) => Some(bytes.as_slice()),
            None => None,
        }
    }

    /// How many paths are held.
    pub fn len(&self) -> usize
        ensures { result ≡ map.len self.now.held }
    {
        self.held.len()
    }

    /// Whether none are.
    pub fn is_empty(&self) -> bool
        ensures { result ≡ (map.len self.now.held == 0) }
    {
        self.held.is_empty()
    }

    // Counts a call, and a fault where its number is listed, and says whether it fails.
    fn fails_now(&mut self) -> bool
        ensures { IsCounted self.old self.new result }
    {
        self.calls = self.calls.saturating_add(1);
        let fails = self.fails.contains(&self.calls);
        if fails {
            self.faults = self.faults.saturating_add(1);
        }
        fails
    }
}

impl<'a> Store for MemStore<'a> {
    ghost held = { λ s. Some s.held };

    ghost faults = { λ s. s.faults };

    /// Fails exactly where the call's number is listed.
    fn read(&mut self, path: &str) -> Result<Option<Bytes>, StoreStop>
        ensures found { IfOk result (λ found. found ≡ map.get self.old.held path.now) }
        ensures same { Some self.new.held ≡ Some self.old.held }
        ensures cause { IsCaused self.old.faults self.new.faults result }
        ensures call { IsCalled self.old self.new }
        ensures failed { IsErrOf result StoreStop.Failed ↔ MustFail self.old }
        ensures once { IsErrOf result StoreStop.Failed
            → self.new.faults ≡ following self.old.faults }
    {
        if self.fails_now() {
            return Err(StoreStop::Failed);
        }
        match self.held.get(path) {
            Some(bytes) => Ok(Some(copied(self.alloc, bytes.as_slice())?)),
            None => Ok(None),
        }
    }

    /// Fails exactly where the call's number is listed, and leaves `torn` then, or no path. Where memory runs out no path
    /// is left.
    fn write(&mut self, path: &str, bytes: &[u8]) -> Result<(), StoreStop>
        ensures written { OnOk result (self.new.held ≡ map.insert self.old.held path.now bytes.now) }
        ensures torn { OnErr result (Elsewhere path.now self.old.held self.new.held) }
        ensures cause { IsCaused self.old.faults self.new.faults result }
        ensures call { IsCalled self.old self.new }
        ensures failed { IsErrOf result StoreStop.Failed ↔ MustFail self.old }
        ensures once { IsErrOf result StoreStop.Failed
            → self.new.faults ≡ following self.old.faults }
        ensures left { IsErrOf result StoreStop.Failed
            → (self.new.held ≡ map.insert self.old.held path.now self.old.torn)
            ⊎ (self.new.held ≡ map.remove self.old.held path.now) }
        ensures refused { IsErrOf result StoreStop.NoMemory
            → self.new.held ≡ map.remove self.old.held path.now }
    {
        if self.fails_now() {
            leave(self.alloc, &mut self.held, path, self.torn);
            return Err(StoreStop::Failed);
        }
        match put_copy(self.alloc, &mut self.held, path, bytes) {
            Ok(()) => Ok(()),
            Err(_) => {
                self.held.del(path);
                Err(StoreStop::NoMemory)
            }
        }
    }

    /// Fails exactly where the call's number is listed, and takes the path away then where `drops` is true.
    fn remove(&mut self, path: &str) -> Result<(), StoreStop>
        ensures removed { OnOk result (self.new.held ≡ map.remove self.old.held path.now) }
        ensures kept { OnErr result (IsTakenOrKept path.now self.old.held self.new.held) }
        ensures cause { IsCaused self.old.faults self.new.faults result }
        ensures call { IsCalled self.old self.new }
        ensures failed { IsErr result ↔ MustFail self.old }
        ensures once { OnErr result (self.new.faults ≡ following self.old.faults) }
        ensures left { OnErr result (self.new.held ≡ if self.old.drops
            then map.remove self.old.held path.now else self.old.held) }
    {
        let fails = self.fails_now();
        if fails && !self.drops {
            return Err(StoreStop::Failed);
        }
        self.held.del(path);
        if fails {
            return Err(StoreStop::Failed);
        }
        Ok(())
    }
}
