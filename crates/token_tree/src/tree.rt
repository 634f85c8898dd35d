//! Groups and their members.

ghost use Rattle.std.specs.Prelude.{◌≡◌, ◌==◌, IfOk, OnOk, OnErr, map as map_list};
ghost use Rattle.std.specs.FinMap as map;
ghost use Rattle.std.specs.FinMap.{insert};
ghost use Rattle.std.specs.List.{slice_get};
ghost use Rattle.std.specs.Option.{option_map};
ghost use Rattle.token_tree.specs.MembersView.{entries_of};
ghost use Rattle.tk_io.specs.Entries.{PutsEntry};
ghost use Rattle.token_tree.specs.View.{child_view, entry_view, extends_view};
ghost use Rattle.token_tree.specs.View.{group_view, member_view};
ghost use Rattle.token_tree.specs.inner.Lists.{NamesApart};

use crate::definition::TokenDef;
use crate::entries::{list_of_one, place, put_shared, sort_members};
use crate::mark::Mark;
use name_path::{Kind, Path};
use std::alloc::Global;
use std::fmt;
use std::marker::Model;
use std::rc::Rc;
use tk_io::{NoMemory, Text};

/// A group: what it says of itself, and its members.
#[derive(Drop)]
#[cycle(group)]
pub struct Group<'s> {
    /// `$type`, where given.
    pub kind: Option<Kind>,
    /// `$deprecated`, where given.
    pub deprecated: Option<Mark<'s>>,
    /// `$extends`, where given.
    pub extends: Option<Extends<'s>>,
    pub members: Members<'s>,
}

/// The group that a group extends.
#[derive(Drop)]
pub struct Extends<'s> {
    /// Its path, which is empty for the root.
    pub target: Path<'s>,
    /// The name of the file where it is said.
    pub file: &'s str,
    /// The byte offset of the string that names it.
    pub start: usize,
    /// The byte offset after that string.
    pub end: usize,
}

/// The members of a group, seen as a finite map from name to token or group, in byte order of
/// names. Copies share them.
#[derive(Drop)]
#[cycle(group)]
pub struct Members<'s> {
    alloc: Global,
    // In ascending order of names, no two of which are equal; none where there is no member.
    entries: Option<Rc<Vec<Member<'s>>>>,
}

/// A member of a group under its name.
#[derive(Drop)]
#[cycle(group)]
pub struct Member<'s> {
    pub name: Text<'s>,
    pub child: Child<'s>,
}

/// A token or a group. Trees share both.
#[derive(Drop)]
#[cycle(group)]
pub enum Child<'s> {
    Token(Rc<TokenDef<'s>>),
    Group(Rc<Group<'s>>),
}

impl<'s> fmt::Debug for Group<'s> {
    fn fmt<W: fmt::Write>(&self, f: &mut fmt::Formatter<W>) -> fmt::Result {
        f.write_str("Group")
    }
}

impl<'s> fmt::Debug for Extends<'s> {
    fn fmt<W: fmt::Write>(&self, f: &mut fmt::Formatter<W>) -> fmt::Result {
        f.write_str("Extends")
    }
}

impl<'s> fmt::Debug for Members<'s> {
    fn fmt<W: fmt::Write>(&self, f: &mut fmt::Formatter<W>) -> fmt::Result {
        f.write_str("Members")
    }
}

impl<'s> fmt::Debug for Member<'s> {
    fn fmt<W: fmt::Write>(&self, f: &mut fmt::Formatter<W>) -> fmt::Result {
        f.write_str("Member")
    }
}

impl<'s> fmt::Debug for Child<'s> {
    fn fmt<W: fmt::Write>(&self, f: &mut fmt::Formatter<W>) -> fmt::Result {
        f.write_str("Child")
    }
}

impl<'s> Model for Members<'s> {
    ghost use Rattle.token_tree.specs.Tree.{Named};
    ghost use Rattle.token_tree.specs.TreeCodes.{coded_named};

    ghost Value = { Named };

    ghost coded = { coded_named };

    ghost use Rattle.std.specs.Prelude.{T};
    ghost use Rattle.std.specs.FinMap.{is_sorted};
    ghost use Rattle.tk_io.specs.Order.{text_cmp};
    ghost use Rattle.token_tree.specs.MembersView.{kept_named, kept_entries};

    ghost view = { kept_named };

    ghost invariant = { λ m. T (is_sorted text_cmp (kept_entries m)) };

    ghost use Rattle.token_tree.specs.Sizes.{named_size};

    ghost size = { named_size };

    ghost use Rattle.token_tree.specs.Falls.{falls};

    ghost size_decreases = { falls };
}

impl<'s> Members<'s> {
    /// No member.
    pub fn new(alloc: Global) -> Members<'s>
        ensures { result ≡ map.empty }
    {
        Members {
            alloc,
            entries: None,
        }
    }

    /// The members of a list, no two of which have one name.
    pub(crate) fn from_list(alloc: Global, list: Vec<Member<'s>>) -> Result<Members<'s>, NoMemory>
        requires { NamesApart list.items }
        ensures { IfOk result (λ ms. ms ≡ map.from_entries (entries_of list.entry.items)) }
    {
        if list.is_empty() {
            return Ok(Members::new(alloc));
        }
        let mut list = list;
        sort_members(&mut list)?;
        let shared = Rc::new(alloc, list)?;
        Ok(Members {
            alloc,
            entries: Some(shared),
        })
    }

    /// The members in byte order of names.
    pub fn as_slice(&self) -> &[Member<'s>]
        ensures { map_list member_view result.now ≡ map.entries self.now }
    {
        match &self.entries {
            Some(shared) => shared.as_slice(),
            None => Default::default(),
        }
    }

    /// How many members there are.
    pub fn len(&self) -> usize
        ensures { result ≡ map.len self.now }
    {
        self.as_slice().len()
    }

    /// Whether there is no member.
    pub fn is_empty(&self) -> bool
        ensures { result ≡ (map.len self.now == 0) }
    {
        self.as_slice().is_empty()
    }

    /// The member of this name, or none where there is no such member.
    pub fn get(&self, name: &Text<'s>) -> Option<&Child<'s>>
        ensures { option_map (λ c. child_view c.now) result ≡ map.get self.now name.now }
    {
        let list = self.as_slice();
        match place(list, name) {
            Ok(i) => Some(&list[i].child),
            Err(_) => None,
        }
    }

    /// The i-th member in byte order of names, counted from 0; none where i is not below the
    /// length.
    pub fn at(&self, i: usize) -> Option<(&Text<'s>, &Child<'s>)>
        ensures { option_map entry_view result ≡ slice_get (map.entries self.now) i }
    {
        match self.as_slice().get(i) {
            Some(member) => Some((&member.name, &member.child)),
            None => None,
        }
    }

    /// The same members, which both share.
    pub fn copy(&self) -> Result<Members<'s>, NoMemory>
        ensures { IfOk result (λ m. m ≡ self.now) }
    {
        match &self.entries {
            Some(shared) => Ok(Members {
                alloc: self.alloc,
                entries: Some(shared.clone()?),
            }),
            None => Ok(Members {
                alloc: self.alloc,
                entries: None,
            }),
        }
    }

    /// Adds the member under a copy of the name, or replaces the member of the name. Where memory
    /// runs out the child is dropped and the members stay. Other copies of the members stay as
    /// well.
    pub fn put(&mut self, name: &Text<'s>, child: Child<'s>) -> Result<(), NoMemory>
        ensures ok { OnOk result (self.new ≡ insert self.old name.now (child_view child.entry)) }
        // What stands at each name afterwards.
        ensures at { OnOk result (PutsEntry self.old self.new name.now (child_view child.entry)) }
        ensures err { OnErr result (self.new ≡ self.old) }
    {
        match &mut self.entries {
            Some(shared) => put_shared(self.alloc, shared, name, child),
            None => {
                self.entries = Some(list_of_one(self.alloc, name, child)?);
                Ok(())
            }
        }
    }
}

impl<'s> Extends<'s> {
    /// The same target, said at the same place.
    pub fn copy(&self) -> Result<Extends<'s>, NoMemory>
        ensures { IfOk result (λ e. extends_view e ≡ extends_view self.now) }
    {
        let target = self.target.copy()?;
        Ok(Extends {
            target,
            file: self.file,
            start: self.start,
            end: self.end,
        })
    }
}

impl<'s> Group<'s> {
    /// The same group, which shares its members.
    pub fn copy(&self) -> Result<Group<'s>, NoMemory>
        ensures { IfOk result (λ g. group_view g ≡ group_view self.now) }
    {
        let members = self.members.copy()?;
        let deprecated = match &self.deprecated {
            Some(mark) => Some(mark.copy()?),
            None => None,
        };
        let extends = match &self.extends {
            Some(extends) => Some(extends.copy()?),
            None => None,
        };
        Ok(Group {
            kind: self.kind,
            deprecated,
            extends,
            members,
        })
    }
}

impl<'s> Child<'s> {
    /// The same token or group, which both share.
    pub fn copy(&self) -> Result<Child<'s>, NoMemory>
        ensures { IfOk result (λ c. child_view c ≡ child_view self.now) }
    {
        match self {
            Child::Token(def) => Ok(Child::Token(def.clone()?)),
            Child::Group(group) => Ok(Child::Group(group.clone()?)),
        }
    }
}

impl<'s> Member<'s> {
    /// The same member, which shares what it holds.
    pub fn copy(&self) -> Result<Member<'s>, NoMemory>
        ensures { IfOk result (λ m. member_view m ≡ member_view self.now) }
    {
        let name = self.name.copy()?;
        let child = self.child.copy()?;
        Ok(Member { name, child })
    }
}
