//! Numbers under texts: what pointers name.

ghost use Rattle.std.specs.Prelude.{◌≡◌, IfOk, OnOk, ◌∷◌, []};
ghost use Rattle.std.specs.FinMap as map;
ghost use Rattle.name_path.specs.Reference.{pointer_text};
ghost use Rattle.resolver_doc.specs.inner.Pointers.{AddsFirst};

use name_path::{Path, print_group};
use std::alloc::Global;
use std::collections::BTreeMap;
use std::marker::Model;
use tk_io::{Bytes, NoMemory, Text};

/// Numbers under texts, seen as a finite map.
#[derive(Drop)]
pub(crate) struct Pointers {
    alloc: Global,
    numbers: BTreeMap<Vec<u8>, usize>,
}

impl Model for Pointers {
    ghost use Rattle.std.specs.Prelude.{ℕ};
    ghost use Rattle.std.specs.FinMap as map;
    ghost use Rattle.std.specs.Coded.{coded_list, coded_ℕ};
    ghost use Rattle.tk_io.specs.Order.{text_cmp};
    ghost use Rattle.tk_io.specs.View.{entries_view};

    ghost Value = { map.FinMap text_cmp ℕ };

    ghost coded = { map.code (coded_list coded_ℕ) coded_ℕ };

    ghost view = { λ p. map.from_entries
        (entries_view (λ text. text.items) (λ number. number) p.numbers.entries) };
}

impl Pointers {
    /// No text.
    pub(crate) fn new(alloc: Global) -> Pointers
        ensures { result ≡ map.empty }
    {
        Pointers {
            alloc,
            numbers: BTreeMap::new(alloc),
        }
    }

    /// The number under the text.
    pub(crate) fn get(&self, text: &[u8]) -> Option<usize>
        ensures { result ≡ map.get self.now text.now }
    {
        self.numbers.get(text).copied()
    }

    // Puts the number under the text, and answers the one that stood there.
    fn put(&mut self, text: &[u8], number: usize) -> Result<Option<usize>, NoMemory>
        ensures new { OnOk result (self.new ≡ map.insert self.old text.now number) }
        ensures old { IfOk result (λ earlier. earlier ≡ map.get self.old text.now) }
    {
        let mut key = Vec::new(self.alloc);
        key.extend_from_slice(text)?;
        Ok(self.numbers.insert(key, number)?)
    }

    /// Puts the number under the text, unless one stands there: that one is put back, which is rare, so that a text is
    /// looked for once.
    pub(crate) fn put_first(&mut self, text: &[u8], number: usize) -> Result<(), NoMemory>
        ensures { OnOk result (AddsFirst self.old self.new text.now number) }
    {
        if let Some(earlier) = self.put(text, number)? {
            let _ = self.put(text, earlier)?;
        }
        Ok(())
    }
}

/// The pointer to a member of a section of the document.
pub(crate) fn pointer<'t>(alloc: Global, section: &'t str, name: &'t str) -> Result<Bytes, NoMemory>
    ensures { IfOk result (λ text. text ≡ pointer_text (section.now ∷ name.now ∷ [])) }
{
    let mut path = Path::new(alloc);
    path.push(Text::of(section))?;
    path.push(Text::of(name))?;
    let mut out = Bytes::new(alloc);
    print_group(&path, &mut out)?;
    Ok(out)
}
