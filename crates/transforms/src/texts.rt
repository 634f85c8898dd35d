//! Texts end to end in one buffer.

ghost use Rattle.std.specs.Prelude.{◌≡◌, ◌+◌, ◌-◌, ◌^◌, ◌≤◌, ◌<◌, [], ◌∷◌, ◌++◌, All, IfOk, OnOk, OnErr, IfSome, length, map};
ghost use Rattle.std.specs.Prelude.{option_map, slice_range};
ghost use Rattle.std.specs.List.{slice_get};
ghost use Rattle.smallvec.specs.SmallVec.{HasRoomFor};
ghost use Rattle.transforms.specs.inner.Ends.{texts_from, start_from, AreEnds};

use smallvec::SmallVec;
use std::alloc::Global;
use std::marker::Model;
use tk_io::NoMemory;

/// Texts end to end in one buffer, seen as their list.
#[derive(Debug, Drop)]
pub struct Texts {
    bytes: Vec<u8>,
    /// Where each text ends, which is where the next one starts. Most lists have no more than six.
    ends: SmallVec<u32, 6>,
}

impl Model for Texts {
    ghost use Rattle.std.specs.Prelude.{List, ℕ, length};
    ghost use Rattle.smallvec.specs.SmallVec.{HasRoomFor};
    ghost use Rattle.transforms.specs.inner.Ends.{texts_from, AreEnds};

    ghost Value = { List (List ℕ) };

    ghost view = { λ t. texts_from 0 t.ends.items t.bytes.items };

    ghost invariant = { λ t. AreEnds 0 t.ends.items (length t.bytes.items) };
}

// Where a text of this length ends behind others; none from 4 GiB on.
fn end_behind(start: usize, len: usize) -> Option<u32>
    ensures end { IfSome result (λ end. end ≡ start + len) }
    ensures small { IfSome result (λ end. end < 2 ^ 32) }
{
    let end = start.checked_add(len)?;
    if end > 0xffff_ffff {
        return None;
    }
    Some(end as u32)
}

// Where the i-th text starts: where the one before it ends.
fn start_of(ends: &[u32], i: usize) -> usize
    ensures { result ≡ start_from 0 ends.now i }
{
    if i == 0 {
        return 0;
    }
    match ends.get(i - 1) {
        Some(end) => *end as usize,
        None => 0,
    }
}

// The bytes from one place to another.
fn between(bytes: &[u8], start: usize, end: usize) -> &[u8]
    requires order { start ≤ end }
    requires fits { end ≤ length bytes.now }
    ensures { result.now ≡ slice_range bytes.now start end }
{
    &bytes[start..end]
}

fn text_at<'t>(bytes: &'t [u8], ends: &[u32], i: usize) -> Option<&'t [u8]>
    requires { AreEnds 0 ends.now (length bytes.now) }
    ensures { option_map (λ text. text.now) result ≡ slice_get (texts_from 0 ends.now bytes.now) i }
{
    match ends.get(i) {
        Some(end) => Some(between(bytes, start_of(ends, i), *end as usize)),
        None => None,
    }
}

// Adds where texts end that were moved from one place to another. There is room for them.
fn push_moved(ends: &mut SmallVec<u32, 6>, others: &[u32], from: usize, to: usize)
    requires room { HasRoomFor ends.old (length others.now) }
    requires within { All (λ end. (from ≤ end) × (end - from + to < 2 ^ 32)) others.now }
    ensures { ends.new.items ≡ ends.old.items ++ map (λ end. end - from + to) others.now }
{
    for end in others {
        ends.push_reserved((*end as usize - from + to) as u32);
    }
}

impl Texts {
    /// No texts.
    pub fn new(alloc: Global) -> Texts
        ensures { result ≡ [] }
    {
        Texts {
            bytes: Vec::new(alloc),
            ends: SmallVec::new(alloc),
        }
    }

    /// No texts are left. The buffer stays for others.
    pub fn clear(&mut self)
        ensures { self.new ≡ [] }
    {
        self.bytes.clear();
        self.ends.clear();
    }

    /// The same texts in a buffer that has room for no more.
    pub fn copy(&self, alloc: Global) -> Result<Texts, NoMemory>
        ensures { IfOk result (λ texts. texts ≡ self.now) }
    {
        let mut bytes = Vec::with_capacity(alloc, self.bytes.len())?;
        bytes.extend_from_slice(self.bytes.as_slice())?;
        let ends = SmallVec::from_slice(alloc, self.ends.as_slice())?;
        Ok(Texts { bytes, ends })
    }

    /// Adds the text at the end. Where memory runs out nothing changes; all texts have less than 4 GiB.
    pub fn push(&mut self, text: &[u8]) -> Result<(), NoMemory>
        ensures ok { OnOk result (self.new ≡ self.old ++ text.now ∷ []) }
        ensures err { OnErr result (self.new ≡ self.old) }
    {
        let Some(end) = end_behind(self.bytes.len(), text.len()) else {
            return Err(NoMemory);
        };
        self.ends.reserve(1)?;
        self.bytes.extend_from_slice(text)?;
        self.ends.push_reserved(end);
        Ok(())
    }

    /// Adds those of other texts that stand from one place on and before another, counted from 0, at the end. Where memory
    /// runs out nothing changes; all texts have less than 4 GiB.
    pub fn append(&mut self, others: &Texts, start: usize, end: usize) -> Result<(), NoMemory>
        ensures ok { OnOk result (self.new ≡ self.old ++ slice_range others.now start end) }
        ensures err { OnErr result (self.new ≡ self.old) }
    {
        let ends = others.ends.as_slice();
        let end = end.min(ends.len());
        if end <= start {
            return Ok(());
        }
        let from = start_of(ends, start);
        let to = self.bytes.len();
        let moved = between(others.bytes.as_slice(), from, start_of(ends, end));
        let Some(_last) = end_behind(to, moved.len()) else {
            return Err(NoMemory);
        };
        self.ends.reserve(end - start)?;
        self.bytes.extend_from_slice(moved)?;
        push_moved(&mut self.ends, &ends[start..end], from, to);
        Ok(())
    }

    /// How many texts there are.
    pub fn len(&self) -> usize
        ensures { result ≡ length self.now }
    {
        self.ends.len()
    }

    /// The i-th text, counted from 0; none where i is not below the length.
    pub fn at(&self, i: usize) -> Option<&[u8]>
        ensures { option_map (λ text. text.now) result ≡ slice_get self.now i }
    {
        text_at(self.bytes.as_slice(), self.ends.as_slice(), i)
    }
}
