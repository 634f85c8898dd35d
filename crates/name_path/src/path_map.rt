//! A finite map under paths.

ghost use Rattle.std.specs.Prelude.{◌≡◌, ◌==◌, List, ℕ, T, OnOk, OnErr};
ghost use Rattle.std.specs.FinMap as map;
ghost use Rattle.std.specs.FinMap.{is_sorted};
ghost use Rattle.std.specs.List.{slice_get};
ghost use Rattle.std.specs.Option.{option_copied, option_map};
ghost use Rattle.tk_io.specs.Entries.{PutsEntry};
ghost use Rattle.tk_io.specs.Order.{names_cmp};
ghost use Rattle.tk_io.specs.Search.{IsKeyPlace};
ghost use Rattle.tk_io.specs.View.{entries_view};

use crate::Path;
use std::alloc::Global;
use std::cmp::Ordering;
use std::marker::Model;
use tk_io::NoMemory;

/// Values under paths, seen as a finite map whose keys are in path order. It is a list in that order: an entry whose path
/// is the greatest is appended, and others make room by moving those after them.
#[derive(Debug, Drop)]
pub struct PathMap<'s, V> {
    entries: Vec<(Path<'s>, V)>,
}

impl<'s, V> Model for PathMap<'s, V> {
    ghost use Rattle.std.specs.Prelude.{T};
    ghost use Rattle.std.specs.FinMap as map;
    ghost use Rattle.std.specs.FinMap.{is_sorted};
    ghost use Rattle.std.specs.Coded.{coded_list, coded_ℕ};
    ghost use Rattle.tk_io.specs.Order.{names_cmp};
    ghost use Rattle.tk_io.specs.View.{entries_view};

    ghost Value = { map.FinMap names_cmp V };

    ghost coded = { map.code (coded_list (coded_list coded_ℕ)) V.code };

    ghost view = { λ m. map.from_sorted (entries_view (λ k. k) (λ v. v) m.entries.items) };

    ghost invariant = { λ m.
        T (is_sorted names_cmp (entries_view (λ k. k) (λ v. v) m.entries.items)) };
}

// Where the path stands among entries whose paths rise, or where it belongs.
fn place_of<'s, V>(entries: &[(Path<'s>, V)], path: &Path<'s>) -> Result<usize, usize>
    requires { T (is_sorted names_cmp (entries_view (λ k. k) (λ v. v) entries.now)) }
    ensures { IsKeyPlace (λ e. names_cmp e.0 path.now) entries.now result }
{
    let Some(last) = entries.last() else {
        return Err(0);
    };
    if last.0.cmp(path).is_lt() {
        return Err(entries.len());
    }
    place_by_halves(entries, path)
}

// The place of a path among entries in order, or where it would stand.
fn place_by_halves<'s, V>(entries: &[(Path<'s>, V)], path: &Path<'s>) -> Result<usize, usize>
    requires { T (is_sorted names_cmp (entries_view (λ k. k) (λ v. v) entries.now)) }
    ensures { IsKeyPlace (λ e. names_cmp e.0 path.now) entries.now result }
{
    let mut low = 0;
    let mut high = entries.len();
    while low < high {
        let middle = low + (high - low) / 2;
        match entries[middle].0.cmp(path) {
            Ordering::Less => low = middle + 1,
            Ordering::Greater => high = middle,
            Ordering::Equal => return Ok(middle),
        }
    }
    Err(low)
}

// The i-th entry, counted from 0.
fn entry_at<'a, 's, V>(entries: &'a [(Path<'s>, V)], i: usize) -> Option<&'a (Path<'s>, V)>
    ensures { option_copied result ≡ slice_get entries.entry.now i }
{
    entries.get(i)
}

impl<'s, V> PathMap<'s, V> {
    /// No entry.
    pub fn new(alloc: Global) -> PathMap<'s, V>
        ensures { result ≡ map.empty }
    {
        PathMap {
            entries: Vec::new(alloc),
        }
    }

    /// How many entries there are.
    pub fn len(&self) -> usize
        ensures { result ≡ map.len self.now }
    {
        self.entries.as_slice().len()
    }

    /// Whether there are none.
    pub fn is_empty(&self) -> bool
        ensures { result ≡ (map.len self.now == 0) }
    {
        self.len() == 0
    }

    /// The value under the path, or none where the path is not there.
    pub fn get(&self, path: &Path<'s>) -> Option<&V>
        ensures { option_copied result ≡ map.get self.now path.now }
    {
        let entries = self.entries.as_slice();
        match place_of(entries, path) {
            Ok(i) => Some(&entries[i].1),
            Err(_) => None,
        }
    }

    /// The entries, in path order.
    pub fn as_slice(&self) -> &[(Path<'s>, V)]
        ensures { entries_view (λ k. k) (λ v. v) result.now ≡ map.entries self.now }
    {
        self.entries.as_slice()
    }

    /// The i-th entry in path order, counted from 0; none where i is not below the length.
    pub fn at(&self, i: usize) -> Option<(&Path<'s>, &V)>
        ensures { option_map {U = List (List ℕ) × V}
            (λ e. (e.0.now, e.1.now)) result ≡ slice_get (map.entries self.now) i }
    {
        match entry_at(self.entries.as_slice(), i) {
            Some((path, value)) => Some((path, value)),
            None => None,
        }
    }
}

impl<'s, V: Drop> PathMap<'s, V> {
    /// Adds the entry under a copy of the path, or replaces the value of the path. Where memory runs out the value is
    /// dropped and the map stays.
    pub fn put(&mut self, path: &Path<'s>, value: V) -> Result<(), NoMemory>
        ensures ok { OnOk result (self.new ≡ map.insert self.old path.now value) }
        // What stands at each path afterwards.
        ensures at { OnOk result (PutsEntry self.old self.new path.now value) }
        ensures err { OnErr result (self.new ≡ self.old) }
    {
        match place_of(self.entries.as_slice(), path) {
            Ok(i) => {
                self.entries[i].1 = value;
                Ok(())
            }
            Err(i) => {
                let path = path.copy()?;
                self.entries.insert(i, (path, value))?;
                Ok(())
            }
        }
    }
}
