//! A finite map under owned texts, the pattern of every map whose values contracts see whole.

ghost use Rattle.std.specs.Prelude.{◌≡◌, ◌==◌, List, ℕ, T, OnOk, OnErr};
ghost use Rattle.std.specs.FinMap as map;
ghost use Rattle.std.specs.FinMap.{is_sorted};
ghost use Rattle.std.specs.List.{slice_get};
ghost use Rattle.std.specs.Option.{option_copied, option_map};
ghost use Rattle.std.specs.String.{string_bytes};
ghost use Rattle.tk_io.specs.Entries.{PutsEntry, RemovesEntry};
ghost use Rattle.tk_io.specs.Order.{text_cmp};
ghost use Rattle.tk_io.specs.Search.{IsKeyPlace};
ghost use Rattle.tk_io.specs.View.{entries_view};

use crate::NoMemory;
use std::alloc::Global;
use std::cmp::Ordering;
use std::marker::Model;

/// Values under texts, seen as a finite map whose keys are in byte order. It is a list in that order: an entry whose key
/// is the greatest is appended, and others make room by moving those after them.
#[derive(Debug, Drop)]
pub struct TextMap<V> {
    entries: Vec<(String, V)>,
}

impl<V> Model for TextMap<V> {
    ghost use Rattle.std.specs.Prelude.{T};
    ghost use Rattle.std.specs.FinMap as map;
    ghost use Rattle.std.specs.FinMap.{is_sorted};
    ghost use Rattle.std.specs.Coded.{coded_list, coded_ℕ};
    ghost use Rattle.std.specs.String.{string_bytes};
    ghost use Rattle.tk_io.specs.Order.{text_cmp};
    ghost use Rattle.tk_io.specs.View.{entries_view};

    ghost Value = { map.FinMap text_cmp V };

    ghost coded = { map.code (coded_list coded_ℕ) V.code };

    ghost view = { λ m. map.from_sorted (entries_view string_bytes (λ v. v) m.entries.items) };

    ghost invariant = { λ m. T
        (is_sorted text_cmp (entries_view string_bytes (λ v. v) m.entries.items)) };
}

// Where the key stands among entries whose keys rise, or where it belongs.
fn place_of<V>(entries: &[(String, V)], key: &str) -> Result<usize, usize>
    requires { T (is_sorted text_cmp (entries_view string_bytes (λ v. v) entries.now)) }
    ensures { IsKeyPlace (λ e. text_cmp (string_bytes e.0) key.now) entries.now result }
{
    let Some(last) = entries.last() else {
        return Err(0);
    };
    if last.0.as_str().cmp(key).is_lt() {
        return Err(entries.len());
    }
    entries.binary_search_by(
        |entry: &(String, V)| -> Ordering
            ensures { result ≡ text_cmp (string_bytes entry.now.0) key.entry.now }
        { entry.0.as_str().cmp(key) },
    )
}

// The i-th entry, counted from 0.
fn entry_at<V>(entries: &[(String, V)], i: usize) -> Option<&(String, V)>
    ensures { option_copied result ≡ slice_get entries.now i }
{
    entries.get(i)
}

impl<V> TextMap<V> {
    /// No entry.
    pub fn new(alloc: Global) -> TextMap<V>
        ensures { result ≡ map.empty }
    {
        TextMap {
            entries: Vec::new(alloc),
        }
    }

    /// How many entries there are.
    pub fn len(&self) -> usize
        ensures { result ≡ map.len self.now }
    {
        self.entries.as_slice().len()
    }

    /// Whether there are none.
    pub fn is_empty(&self) -> bool
        ensures { result ≡ (map.len self.now == 0) }
    {
        self.len() == 0
    }

    /// The value under the key, or none where the key is not there.
    pub fn get(&self, key: &str) -> Option<&V>
        ensures { option_copied result ≡ map.get self.now key.now }
    {
        let entries = self.entries.as_slice();
        match place_of(entries, key) {
            Ok(i) => Some(&entries[i].1),
            Err(_) => None,
        }
    }

    /// The i-th entry in byte order of keys, counted from 0; none where i is not below the length.
    pub fn at(&self, i: usize) -> Option<(&str, &V)>
        ensures { option_map {U = List ℕ × V}
            (λ e. (e.0.now, e.1.now)) result ≡ slice_get (map.entries self.now) i }
    {
        match entry_at(self.entries.as_slice(), i) {
            Some((key, value)) => Some((key.as_str(), value)),
            None => None,
        }
    }

    /// All entries in byte order of keys.
    pub fn entries(&self) -> &[(String, V)]
        ensures { entries_view string_bytes (λ v. v) result.now ≡ map.entries self.now }
    {
        self.entries.as_slice()
    }
}

impl<V: Drop> TextMap<V> {
    /// Adds the entry under a copy of the key, or replaces the value of the key. Where memory runs out the value is
    /// dropped and the map stays.
    pub fn put(&mut self, key: &str, value: V) -> Result<(), NoMemory>
        ensures ok { OnOk result (self.new ≡ map.insert self.old key.now value) }
        // What stands at each key afterwards.
        ensures at { OnOk result (PutsEntry self.old self.new key.now value) }
        ensures err { OnErr result (self.new ≡ self.old) }
    {
        match place_of(self.entries.as_slice(), key) {
            Ok(i) => {
                self.entries[i].1 = value;
                Ok(())
            }
            Err(i) => {
                let key = String::from_str(*self.entries.allocator(), key)?;
                self.entries.insert(i, (key, value))?;
                Ok(())
            }
        }
    }

    /// Takes the key's entry away. Where the key is not there nothing changes.
    pub fn del(&mut self, key: &str)
        ensures gone { self.new ≡ map.remove self.old key.now }
        // What stands at each key afterwards.
        ensures at { RemovesEntry self.old self.new key.now }
    {
        match place_of(self.entries.as_slice(), key) {
            Ok(i) => {
                let _ = self.entries.remove(i);
            }
            Err(_) => {}
        }
    }
}
