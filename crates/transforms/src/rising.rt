//! Names that rise.

ghost use Rattle.std.specs.Prelude.{◌≡◌, ◌++◌, ◌∷◌, [], true, List, ℕ, Some, option_map, if◌then◌else◌};
ghost use Rattle.transforms.specs.Rising.{stands_behind, RiseTo};

use crate::apart::rises;
use std::marker::Model;

/// The last of names that rise: each stands behind the one before it, in the order in which what is put between the names
/// of groups comes first. Names that rise are apart.
#[derive(Debug, Drop)]
pub struct Rising<'a> {
    last: Option<&'a [u8]>,
}

impl<'a> Model for Rising<'a> {
    ghost use Rattle.std.specs.Prelude.{Option, List, ℕ, option_map};

    ghost Value = { Option (List ℕ) };

    ghost view = { λ r. option_map (λ name. name.now) r.last };
}

// Whether the name stands behind the last one, where there is one.
fn is_behind(last: Option<&[u8]>, name: &[u8]) -> bool
    ensures { result ≡ stands_behind (option_map (λ l. l.now) last.entry) name.now }
{
    match last {
        Some(last) => rises(last, name),
        None => true,
    }
}

impl<'a> Rising<'a> {
    /// Of no names.
    pub fn new() -> Rising<'a>
        ensures { RiseTo [] result }
    {
        Rising { last: None }
    }

    /// Whether the name stands behind the last one, where there is one. It takes its place then, and is passed over else.
    pub fn add(&mut self, name: &'a [u8]) -> bool
        ensures answer { result ≡ stands_behind self.old name.now }
        ensures last { self.new
            ≡ (if stands_behind self.old name.now then Some name.now else self.old) }
        // So that names which rose do so with it.
        ensures names { (names : List (List ℕ)) → RiseTo names self.old → result ≡ true
            → RiseTo (names ++ name.now ∷ []) self.new }
    {
        if !is_behind(self.last, name) {
            return false;
        }
        self.last = Some(name);
        true
    }
}
