//! From a group to the flat tree of its tokens.

ghost use Rattle.std.specs.Prelude.{◌≡◌, IfOk, OnOk};
ghost use Rattle.token_tree.specs.View.{group_view};
ghost use Rattle.group_inherit.specs.Flattening.{flat_of};
ghost use Rattle.group_inherit.specs.inner.Outcomes.{ChildPut, GroupPut, TokenPut};

use crate::copying::copy_mark;
use crate::entry::Entry;
use crate::flat_tree::Flat;
use name_path::{Kind, Path};
use std::alloc::Global;
use std::rc::Rc;
use tk_io::{NoMemory, Text};
use token_tree::{Child, Group, Mark, TokenDef};

// What the nearest groups that have a `$type` or a `$deprecated` say.
#[derive(Clone, Copy)]
struct Nearest<'a, 's> {
    kind: Option<Kind>,
    mark: Option<&'a Mark<'s>>,
}

/// The tokens of an expanded group by their paths, with room for so many. The group has few levels, so recursion follows them.
pub(crate) fn flat_of<'s>(
    alloc: Global,
    group: &Group<'s>,
    room: usize,
) -> Result<Flat<'s>, NoMemory>
    ensures { IfOk result (λ f. f ≡ flat_of (group_view group.now)) }
{
    let mut flat = Flat::with_room(alloc, room);
    let mut names = Vec::new(alloc);
    let above = Nearest {
        kind: None,
        mark: None,
    };
    put_group(alloc, &mut names, &above, group, &mut flat)?;
    Ok(flat)
}

// Adds the tokens of the group to which the names lead. Members are met in byte order of names, and so the tokens in
// path order.
#[cycle(put)]
fn put_group<'s>(
    alloc: Global,
    names: &mut Vec<Text<'s>>,
    above: &Nearest<'_, 's>,
    group: &Group<'s>,
    flat: &mut Flat<'s>,
) -> Result<(), NoMemory>
    ensures names { OnOk result (names.new.items ≡ names.old.items) }
    ensures flat { OnOk result (GroupPut names.old.items above.now group.now flat.old flat.new) }
{
    let nearest = Nearest {
        kind: group.kind.or(above.kind),
        mark: group.deprecated.as_ref().or(above.mark),
    };
    for member in group.members.as_slice() {
        names.push(member.name.copy()?)?;
        put_child(alloc, names, &nearest, &member.child, flat)?;
        let _ = names.pop();
    }
    Ok(())
}

// Adds the token, or the tokens of the group, to which the names lead.
#[cycle(put)]
fn put_child<'s>(
    alloc: Global,
    names: &mut Vec<Text<'s>>,
    nearest: &Nearest<'_, 's>,
    child: &Child<'s>,
    flat: &mut Flat<'s>,
) -> Result<(), NoMemory>
    ensures names { OnOk result (names.new.items ≡ names.old.items) }
    ensures flat { OnOk result (ChildPut names.old.items nearest.now child.now flat.old flat.new) }
{
    match child {
        Child::Token(def) => put_token(alloc, names.as_slice(), nearest, def, flat),
        Child::Group(group) => put_group(alloc, names, nearest, group, flat),
    }
}

fn put_token<'s>(
    alloc: Global,
    names: &[Text<'s>],
    nearest: &Nearest<'_, 's>,
    def: &Rc<TokenDef<'s>>,
    flat: &mut Flat<'s>,
) -> Result<(), NoMemory>
    ensures { OnOk result (TokenPut names.now nearest.now def.now.value flat.old flat.new) }
{
    let path = path_of(alloc, names)?;
    let def = def.clone()?;
    let group_mark = copy_mark(nearest.mark)?;
    flat.insert(
        path,
        Entry {
            def,
            group_kind: nearest.kind,
            group_mark,
        },
    )
}

// The path of these names, which are copied.
fn path_of<'s>(alloc: Global, names: &[Text<'s>]) -> Result<Path<'s>, NoMemory>
    ensures { IfOk result (λ p. p ≡ names.now) }
{
    let mut path = Path::new(alloc);
    for name in names {
        path.push(name.copy()?)?;
    }
    Ok(path)
}
