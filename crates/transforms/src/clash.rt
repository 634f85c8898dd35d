//! Names that more than one token has.

ghost use Rattle.std.specs.Prelude.{◌≡◌, IfOk, OnOk, OnErr, map};
ghost use Rattle.std.specs.FinMap as finite;
ghost use Rattle.std.specs.Option.{option_copied};
ghost use Rattle.transforms.specs.Clash.{first_taken, with_names, Leaves};
ghost use Rattle.transforms.specs.inner.Elsewhere.{PutsName, SameElsewhere, RemovesName};
ghost use Rattle.transforms.specs.inner.Elsewhere.{RemovesNames};

use name_path::Path;
use std::alloc::Global;
use std::collections::BTreeMap;
use std::marker::Model;
use tk_io::NoMemory;

/// The names that tokens have on one platform, seen as a finite map from each name to the path of its token.
#[derive(Debug, Drop)]
pub struct Clash<'s> {
    alloc: Global,
    paths: BTreeMap<Vec<u8>, Path<'s>>,
}

impl<'s> Model for Clash<'s> {
    ghost use Rattle.std.specs.Prelude.{List, ℕ};
    ghost use Rattle.std.specs.FinMap as map;
    ghost use Rattle.std.specs.Coded.{coded_list, coded_ℕ};
    ghost use Rattle.tk_io.specs.Order.{text_cmp};
    ghost use Rattle.tk_io.specs.View.{entries_view};

    ghost Value = { map.FinMap text_cmp (List (List ℕ)) };

    ghost coded = { map.code (coded_list coded_ℕ) (coded_list (coded_list coded_ℕ)) };

    ghost view = { λ c. map.from_entries
        (entries_view (λ name. name.items) (λ path. path) c.paths.entries) };
}

impl<'s> Clash<'s> {
    /// No names.
    pub fn new(alloc: Global) -> Clash<'s>
        ensures { result ≡ finite.empty }
    {
        Clash {
            alloc,
            paths: BTreeMap::new(alloc),
        }
    }

    /// Adds the names of the token at the path. Where one of them is there, the answer is the path under which the first of
    /// these was added, and nothing is added. Where memory runs out nothing is added.
    pub fn add(&mut self, path: &Path<'s>, names: &[&[u8]]) -> Result<Option<Path<'s>>, NoMemory>
        ensures answer { IfOk result (λ answer. answer
            ≡ first_taken self.old (map (λ name. name.now) names.now)) }
        ensures leaves { IfOk result
            (Leaves self.old (map (λ name. name.now) names.now) path.now self.new) }
        ensures err { OnErr result (self.new ≡ self.old) }
    {
        if let Some(other) = self.first_taken(names) {
            let other = other.copy()?;
            return Ok(Some(other));
        }
        match self.put_all(path, names) {
            Ok(()) => Ok(None),
            Err(fault) => {
                self.remove_all(names);
                Err(fault)
            }
        }
    }

    fn get(&self, name: &[u8]) -> Option<&Path<'s>>
        ensures { option_copied result ≡ finite.get self.now name.now }
    {
        self.paths.get(name)
    }

    fn first_taken(&self, names: &[&[u8]]) -> Option<&Path<'s>>
        ensures { option_copied result ≡ first_taken self.now (map (λ name. name.now) names.now) }
    {
        for name in names {
            if let Some(path) = self.get(name) {
                return Some(path);
            }
        }
        None
    }

    fn put(&mut self, name: &[u8], path: &Path<'s>) -> Result<(), NoMemory>
        ensures ok { OnOk result (self.new ≡ finite.insert self.old name.now path.now) }
        ensures at { OnOk result (PutsName self.old self.new name.now path.now) }
        ensures err { OnErr result (self.new ≡ self.old) }
    {
        let mut key = Vec::new(self.alloc);
        key.extend_from_slice(name)?;
        let path = path.copy()?;
        self.paths.insert(key, path)?;
        Ok(())
    }

    /// Adds the names one after another. Where memory runs out some of them may be there.
    fn put_all(&mut self, path: &Path<'s>, names: &[&[u8]]) -> Result<(), NoMemory>
        ensures ok { OnOk result (self.new
            ≡ with_names self.old (map (λ name. name.now) names.now) path.now) }
        ensures err { OnErr result
            (SameElsewhere self.old self.new (map (λ name. name.now) names.now)) }
    {
        for name in names {
            self.put(name, path)?;
        }
        Ok(())
    }

    fn remove(&mut self, name: &[u8])
        ensures { RemovesName self.old self.new name.now }
    {
        let _ = self.paths.remove(name);
    }

    fn remove_all(&mut self, names: &[&[u8]])
        ensures { RemovesNames self.old self.new (map (λ name. name.now) names.now) }
    {
        for name in names {
            self.remove(name);
        }
    }
}
