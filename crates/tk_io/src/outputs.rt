//! The outputs of a build.

ghost use Rattle.std.specs.Prelude.{◌≡◌, ◌==◌, OnOk, OnErr};
ghost use Rattle.std.specs.FinMap as map;
ghost use Rattle.std.specs.List.{slice_get};
ghost use Rattle.std.specs.Option.{option_map};
ghost use Rattle.std.specs.String.{string_bytes};
ghost use Rattle.tk_io.specs.Entries.{PutsEntry};
ghost use Rattle.tk_io.specs.View.{entries_view};

use crate::{Body, Bytes, NoMemory, TextMap};
use std::alloc::Global;
use std::marker::Model;

/// The bytes of each output file, seen as a finite map from path to bytes.
#[derive(Debug, Drop)]
pub struct Outputs {
    bodies: TextMap<Body>,
}

impl Model for Outputs {
    ghost use Rattle.std.specs.Prelude.{List, ℕ};
    ghost use Rattle.std.specs.FinMap as map;
    ghost use Rattle.std.specs.Coded.{coded_list, coded_ℕ};
    ghost use Rattle.tk_io.specs.Order.{text_cmp};

    ghost Value = { map.FinMap text_cmp (List ℕ) };

    ghost coded = { map.code (coded_list coded_ℕ) (coded_list coded_ℕ) };

    ghost view = { λ o. o.bodies };
}

impl Outputs {
    /// No output.
    pub fn new(alloc: Global) -> Outputs
        ensures { result ≡ map.empty }
    {
        Outputs {
            bodies: TextMap::new(alloc),
        }
    }

    /// How many outputs there are.
    pub fn len(&self) -> usize
        ensures { result ≡ map.len self.now }
    {
        self.bodies.len()
    }

    /// Whether there are none.
    pub fn is_empty(&self) -> bool
        ensures { result ≡ (map.len self.now == 0) }
    {
        self.bodies.is_empty()
    }

    /// The bytes of the output at the path, or none where there is no such output.
    pub fn get(&self, path: &str) -> Option<&[u8]>
        ensures { option_map (λ b. b.now) result ≡ map.get self.now path.now }
    {
        match self.bodies.get(path) {
            Some(body) => Some(body.as_slice()),
            None => None,
        }
    }

    /// The i-th output in byte order of paths, counted from 0; none where i is not below the length.
    pub fn at(&self, i: usize) -> Option<(&str, &[u8])>
        ensures { option_map (λ e. (e.0.now, e.1.now)) result ≡ slice_get (map.entries self.now) i }
    {
        match self.bodies.at(i) {
            Some((path, body)) => Some((path, body.as_slice())),
            None => None,
        }
    }

    /// All outputs in byte order of paths.
    pub fn entries(&self) -> &[(String, Body)]
        ensures { entries_view string_bytes (λ body. body) result.now ≡ map.entries self.now }
    {
        self.bodies.entries()
    }

    /// Adds the output, or replaces the bytes of its path. Where memory runs out the body is dropped and the outputs stay.
    pub fn insert(&mut self, path: &str, body: Bytes) -> Result<(), NoMemory>
        ensures ok { OnOk result (self.new ≡ map.insert self.old path.now body) }
        // What stands at each path afterwards.
        ensures at { OnOk result (PutsEntry self.old self.new path.now body) }
        ensures err { OnErr result (self.new ≡ self.old) }
    {
        let body = Body::new(body)?;
        self.insert_shared(path, body)
    }

    /// The same with bytes that may be held elsewhere too. They are not copied.
    pub fn insert_shared(&mut self, path: &str, body: Body) -> Result<(), NoMemory>
        ensures ok { OnOk result (self.new ≡ map.insert self.old path.now body) }
        // What stands at each path afterwards.
        ensures at { OnOk result (PutsEntry self.old self.new path.now body) }
        ensures err { OnErr result (self.new ≡ self.old) }
    {
        self.bodies.put(path, body)
    }
}
