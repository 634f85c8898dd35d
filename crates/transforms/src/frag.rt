//! The names that tokens declare.

ghost use Rattle.std.specs.Prelude.{◌≡◌, [], ◌∷◌, ◌++◌, Decides, OnOk, OnErr};
ghost use Rattle.transforms.specs.Frag.{AddsSome};

use crate::Texts;
use std::fmt;
use std::marker::Model;
use tk_io::{Bytes, NoMemory, Sequence};

/// Names in memory.
#[derive(Drop)]
enum Held<'a> {
    No,
    /// Most tokens have one name, which was made for them and is lent.
    One(&'a [u8]),
    Several(Sequence<Bytes>),
}

/// The names that a token declares on a platform, seen as their list.
#[derive(Drop)]
pub struct Names<'a> {
    held: Held<'a>,
}

impl fmt::Debug for Names<'_> {
    fn fmt<W: fmt::Write>(&self, f: &mut fmt::Formatter<W>) -> fmt::Result {
        f.write_str("Names")
    }
}

impl<'a> Model for Names<'a> {
    ghost use Rattle.std.specs.Prelude.{List, ℕ};
    ghost use Rattle.transforms.specs.inner.Held.{listed};

    ghost Value = { List (List ℕ) };

    ghost view = { λ names. listed names.held };
}

// Adds all names at the end. Where memory runs out some of them were added.
fn push_each(texts: &mut Texts, names: &[Bytes]) -> Result<(), NoMemory>
    ensures ok { OnOk result (texts.new ≡ texts.old ++ names.now) }
    ensures err { OnErr result (AddsSome texts.old names.now texts.new) }
{
    for name in names {
        texts.push(name.as_slice())?;
    }
    Ok(())
}

fn are_same(names: &[Bytes], others: &[Bytes]) -> bool
    ensures { Decides result (names.now ≡ others.now) }
{
    if names.len() != others.len() {
        return false;
    }
    for (name, other) in names.iter().zip(others) {
        if name.as_slice() != other.as_slice() {
            return false;
        }
    }
    true
}

// Whether the names are this one alone.
fn are_one(names: &[Bytes], name: &[u8]) -> bool
    ensures { Decides result (names.now ≡ name.now ∷ []) }
{
    match names {
        [only] => only.as_slice() == name,
        _ => false,
    }
}

impl<'a> Names<'a> {
    /// No name, as of a token that is omitted.
    pub fn none() -> Names<'a>
        ensures { result ≡ [] }
    {
        Names { held: Held::No }
    }

    /// One name.
    pub fn one(name: &'a [u8]) -> Names<'a>
        ensures { result ≡ name.now ∷ [] }
    {
        Names {
            held: Held::One(name),
        }
    }

    /// The names of a token that declares several.
    pub fn several(names: Sequence<Bytes>) -> Names<'a>
        ensures { result ≡ names }
    {
        Names {
            held: Held::Several(names),
        }
    }

    /// Adds the names at the end of texts, in order. Where memory runs out the first few of them were added.
    pub fn push_to(&self, texts: &mut Texts) -> Result<(), NoMemory>
        ensures ok { OnOk result (texts.new ≡ texts.old ++ self.now) }
        ensures err { OnErr result (AddsSome texts.old self.now texts.new) }
    {
        match &self.held {
            Held::No => Ok(()),
            Held::One(name) => texts.push(name),
            Held::Several(names) => push_each(texts, names.as_slice()),
        }
    }

    /// Whether both are the same names.
    pub fn is_same(&self, other: &Names<'_>) -> bool
        ensures { Decides result (self.now ≡ other.now) }
    {
        match (&self.held, &other.held) {
            (Held::No, Held::No) => true,
            (Held::No, Held::Several(names)) => names.is_empty(),
            (Held::Several(names), Held::No) => names.is_empty(),
            (Held::One(name), Held::One(same)) => name == same,
            (Held::One(name), Held::Several(names)) => are_one(names.as_slice(), name),
            (Held::Several(names), Held::One(name)) => are_one(names.as_slice(), name),
            (Held::Several(names), Held::Several(others)) => {
                are_same(names.as_slice(), others.as_slice())
            }
            (Held::No | Held::One(_), _) => false,
        }
    }
}
