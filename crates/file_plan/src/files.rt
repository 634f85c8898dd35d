//! Files by their paths.

ghost use Rattle.std.specs.Prelude.{◌≡◌, List, ℕ, Some, None, IfOk, OnOk, OnErr, cond};
ghost use Rattle.std.specs.BTreeMap.{is_at};
ghost use Rattle.std.specs.FinMap as map;
ghost use Rattle.std.specs.List.{slice_get};
ghost use Rattle.std.specs.Option.{option_map};
ghost use Rattle.tk_io.specs.Order.{text_cmp};

use std::alloc::Global;
use std::collections::BTreeMap;
use std::marker::Model;
use tk_io::NoMemory;

/// The texts of files, seen as a finite map from path to text. Paths and texts are borrowed.
#[derive(Debug, Drop)]
pub struct Files<'s> {
    texts: BTreeMap<&'s str, &'s str>,
}

impl<'s> Model for Files<'s> {
    ghost use Rattle.std.specs.Prelude.{List, ℕ};
    ghost use Rattle.std.specs.FinMap as map;
    ghost use Rattle.std.specs.Coded.{coded_list, coded_ℕ};
    ghost use Rattle.tk_io.specs.Order.{text_cmp};
    ghost use Rattle.tk_io.specs.View.{entries_view};

    ghost Value = { map.FinMap text_cmp (List ℕ) };

    ghost coded = { map.code (coded_list coded_ℕ) (coded_list coded_ℕ) };

    ghost view = { λ f. map.from_entries
        (entries_view (λ path. path.now) (λ text. text.now) f.texts.entries) };
}

impl<'s> Files<'s> {
    /// No file.
    pub fn new(alloc: Global) -> Files<'s>
        ensures { result ≡ map.empty }
    {
        Files {
            texts: BTreeMap::new(alloc),
        }
    }

    /// How many files there are.
    pub fn len(&self) -> usize
        ensures { result ≡ map.len self.now }
    {
        self.texts.len()
    }

    /// The text of the file at the path, or none where there is no such file.
    pub fn get(&self, path: &str) -> Option<&'s str>
        ensures { option_map (λ t. t.now) result ≡ map.get self.now path.now }
    {
        self.texts.get(path).copied()
    }

    /// The file at the path, by its path and its text as they are kept; none where there is no such file.
    pub fn entry(&self, path: &str) -> Option<(&'s str, &'s str)>
        ensures { option_map {U = List ℕ × List ℕ} (λ e. (e.0.now, e.1.now)) result
            ≡ option_map (λ text. (path.now, text)) (map.get self.now path.now) }
    {
        match self.texts.get_key_value(path) {
            Some((kept, text)) => Some((kept, text)),
            None => None,
        }
    }

    /// The i-th file in byte order of paths, counted from 0; none where i is not below the length.
    pub fn at(&self, i: usize) -> Option<(&'s str, &'s str)>
        ensures { option_map (λ e. (e.0.now, e.1.now)) result ≡ slice_get (map.entries self.now) i }
    {
        match self.texts.iter().nth(i) {
            Some((path, text)) => Some((path, text)),
            None => None,
        }
    }

    /// Adds the file, or replaces its text. Where memory runs out nothing changes.
    pub fn put(&mut self, path: &'s str, text: &'s str) -> Result<(), NoMemory>
        ensures ok { OnOk result (self.new ≡ map.insert self.old path.entry.now text.entry.now) }
        // What stands at each path afterwards.
        ensures at { OnOk result ((q : List ℕ) → map.get self.new q
            ≡ cond (is_at (text_cmp path.entry.now) q) (Some text.entry.now) (map.get self.old q)) }
        ensures err { OnErr result (self.new ≡ self.old) }
    {
        self.texts.insert(path, text)?;
        Ok(())
    }

    /// Takes the file away. Where there is no such file nothing changes.
    pub fn del(&mut self, path: &str)
        ensures gone { self.new ≡ map.remove self.old path.now }
        // What stands at each path afterwards.
        ensures at { (q : List ℕ)
            → map.get self.new q ≡ cond (is_at (text_cmp path.now) q) None (map.get self.old q) }
    {
        let _ = self.texts.remove(path);
    }

    /// The same files once more: paths and texts are borrowed as they are here. The only error is out of memory.
    pub fn copy(&self) -> Result<Files<'s>, NoMemory>
        ensures { IfOk result (λ files. files ≡ self.now) }
    {
        let texts = self.texts.clone()?;
        Ok(Files { texts })
    }
}
