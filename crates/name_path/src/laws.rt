//! Laws of the spellings: each text spells at most one path or place.

ghost use Rattle.std.specs.Prelude.{◌≡◌, ℕ, List};
ghost use Rattle.name_path.specs.Names.{IsTokenPath};
ghost use Rattle.name_path.specs.Reference.{place_text, SpellsPath, SpellsPlace, SpellsGroup};
ghost use Rattle.name_path.specs.declared.place.Place.{Place};

/// A text is a curly alias of one path.
pub fn one_path()
    ensures { (text : List ℕ) (path other : List (List ℕ)) → SpellsPath text path
        → SpellsPath text other → path ≡ other }
{}

/// A text is a pointer to one place.
pub fn one_place()
    ensures { (text : List ℕ) (place other : Place) → SpellsPlace text place
        → SpellsPlace text other → place ≡ other }
{}

/// A text names one group.
pub fn one_group()
    ensures { (text : List ℕ) (path other : List (List ℕ)) → SpellsGroup text path
        → SpellsGroup text other → path ≡ other }
{}

/// What is printed of a place is a pointer to that place alone.
pub fn place_reads_back()
    ensures reads { (place : Place) → IsTokenPath place.token
        → SpellsPlace (place_text place) place }
    ensures alone { (place other : Place) → IsTokenPath place.token
        → SpellsPlace (place_text place) other → place ≡ other }
{}
