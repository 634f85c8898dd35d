//! Lists of members in the order of their names.

ghost use Rattle.std.specs.Prelude.{◌≡◌, [], T, IfOk, IfErr, OnOk, OnErr};
ghost use Rattle.std.specs.FinMap.{is_sorted};
ghost use Rattle.tk_io.specs.Order.{text_cmp};
ghost use Rattle.token_tree.specs.MembersView.{entries_of};
ghost use Rattle.token_tree.specs.inner.Lists.{IsPlaceOf, IsGapFor, NamesApart};
ghost use Rattle.token_tree.specs.inner.Outcomes.{AreOneMap, IsPushed, IsChildPut};

use crate::tree::{Child, Member};
use std::alloc::Global;
use std::cmp::Ordering;
use std::rc::Rc;
use tk_io::{NoMemory, Text};

/// Where the name stands in the list, or else where it belongs.
pub(crate) fn place<'s>(list: &[Member<'s>], name: &Text<'s>) -> Result<usize, usize>
    requires { T (is_sorted text_cmp (entries_of list.now)) }
    ensures found { IfOk result (IsPlaceOf list.now name.now) }
    ensures absent { IfErr result (IsGapFor list.now name.now) }
{
    let mut low = 0;
    let mut high = list.len();
    while low < high {
        let middle = low + (high - low) / 2;
        match list[middle].name.cmp(name) {
            Ordering::Less => low = middle + 1,
            Ordering::Equal => return Ok(middle),
            Ordering::Greater => high = middle,
        }
    }
    Err(low)
}

// The same, looked for at the end first, since most names come in order.
fn place_from_end<'s>(list: &[Member<'s>], name: &Text<'s>) -> Result<usize, usize>
    requires { T (is_sorted text_cmp (entries_of list.now)) }
    ensures found { IfOk result (IsPlaceOf list.now name.now) }
    ensures absent { IfErr result (IsGapFor list.now name.now) }
{
    if let Some(last) = list.last() {
        if let Ordering::Less = last.name.cmp(name) {
            return Err(list.len());
        }
    }
    place(list, name)
}

// Puts the child under a copy of the name in its place, or replaces the child of the name. Where
// memory runs out the list stays.
fn put_child<'s>(
    list: &mut Vec<Member<'s>>,
    name: &Text<'s>,
    child: Child<'s>,
) -> Result<(), NoMemory>
    requires { T (is_sorted text_cmp (entries_of list.old.items)) }
    ensures ok { OnOk result (IsChildPut name.now child.entry list.old.items list.new.items) }
    ensures err { OnErr result (list.new.items ≡ list.old.items) }
{
    match place_from_end(list.as_slice(), name) {
        Ok(i) => list[i].child = child,
        Err(i) => {
            let name = name.copy()?;
            list.insert(i, Member { name, child })?;
        }
    }
    Ok(())
}

/// A list of one member: the child under a copy of the name.
pub(crate) fn list_of_one<'s>(
    alloc: Global,
    name: &Text<'s>,
    child: Child<'s>,
) -> Result<Rc<Vec<Member<'s>>>, NoMemory>
    ensures { IfOk result (λ list. IsChildPut name.now child.entry [] list.value.items) }
{
    let mut list = Vec::new(alloc);
    let name = name.copy()?;
    list.push(Member { name, child })?;
    Ok(Rc::new(alloc, list)?)
}

/// Puts the child into a list that may be shared, as into one that is not; who shares it keeps the
/// list as it was.
pub(crate) fn put_shared<'s>(
    alloc: Global,
    shared: &mut Rc<Vec<Member<'s>>>,
    name: &Text<'s>,
    child: Child<'s>,
) -> Result<(), NoMemory>
    requires { T (is_sorted text_cmp (entries_of shared.old.value.items)) }
    ensures ok { OnOk result
        (IsChildPut name.now child.entry shared.old.value.items shared.new.value.items) }
    ensures err { OnErr result (shared.new.value.items ≡ shared.old.value.items) }
{
    if let Some(list) = Rc::get_mut(shared) {
        return put_child(list, name, child);
    }
    let mut list = copy_list(alloc, shared.as_slice())?;
    put_child(&mut list, name, child)?;
    *shared = Rc::new(alloc, list)?;
    Ok(())
}

/// Sorts members by their names, no two of which are equal.
pub(crate) fn sort_members<'s>(list: &mut Vec<Member<'s>>) -> Result<(), NoMemory>
    requires { NamesApart list.old.items }
    ensures sorted { OnOk result (T (is_sorted text_cmp (entries_of list.new.items))) }
    ensures same { OnOk result (AreOneMap list.new.items list.old.items) }
{
    list.sort_by(|left, right| left.name.cmp(&right.name))?;
    Ok(())
}

/// Appends the member, where there is one.
pub(crate) fn push_some<'s>(
    list: &mut Vec<Member<'s>>,
    member: Option<Member<'s>>,
) -> Result<(), NoMemory>
    ensures { OnOk result (IsPushed member.entry list.old.items list.new.items) }
{
    let Some(member) = member else {
        return Ok(());
    };
    list.push(member)?;
    Ok(())
}

// A list of the same members, which shares what they hold.
fn copy_list<'s>(alloc: Global, list: &[Member<'s>]) -> Result<Vec<Member<'s>>, NoMemory>
    ensures { IfOk result (λ copies. entries_of copies.items ≡ entries_of list.now) }
{
    let mut copies = Vec::with_capacity(alloc, list.len())?;
    for member in list {
        copies.push(member.copy()?)?;
    }
    Ok(copies)
}
