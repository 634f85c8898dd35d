//! Reading groups.

ghost use Rattle.std.specs.Prelude.{◌≡◌, ℕ, List, [], OnOk, IfOk, IfErr, option_map};
ghost use Rattle.json_span.specs.Tree.{Entry};
ghost use Rattle.json_span.specs.View.{ref_view, field_view, fields_view};
ghost use Rattle.token_tree.specs.Answer.{TellsFirst, IsObjectOf};
ghost use Rattle.token_tree.specs.Promise.{StandsIn};
ghost use Rattle.token_tree.specs.Shape.{reserved_breaks};
ghost use Rattle.token_tree.specs.inner.Listed.{AreListed};
ghost use Rattle.token_tree.specs.inner.Outcomes.{EachStands, NamesDiffer};
ghost use Rattle.token_tree.specs.inner.Outcomes.{AreChildren, IsChildIn, IsChildOf};
ghost use Rattle.token_tree.specs.inner.Outcomes.{IsExtendsOf, IsGroupOf, IsGroupAsChild};
ghost use Rattle.token_tree.specs.inner.Outcomes.{entries_breaks, member_breaks, IsChildName};
ghost use Rattle.token_tree.specs.inner.Outcomes.{breaks_under, rule_under};

use crate::entries::push_some;
use crate::fault::{Rule, ShapeFault};
use crate::listed_members::ListedMembers;
use crate::properties::{has_group_form, is_name, is_reserved, is_word, target_in};
use crate::token::{read_token, said_deprecated, said_kind};
use crate::tree::{Child, Extends, Group, Member, Members};
use json_span::{Field, Fields, NodeRef};
use std::alloc::Global;
use std::rc::Rc;
use tk_io::{NoMemory, Text};

fn extends_of<'s>(
    alloc: Global,
    file: &'s str,
    found: Option<NodeRef<'_, 's>>,
) -> Result<Option<Extends<'s>>, NoMemory>
    ensures { IfOk result (IsExtendsOf file.entry.now (option_map ref_view found.entry)) }
{
    let Some(node) = found else {
        return Ok(None);
    };
    let Some(target) = target_in(alloc, node)? else {
        return Ok(None);
    };
    Ok(Some(Extends {
        target,
        file,
        start: node.start(),
        end: node.end(),
    }))
}

// A property, or a member that is passed over.
fn check_reserved(alloc: Global, name: &str, field: Field<'_, '_>) -> Result<(), ShapeFault>
    requires { name.now ≡ (field_view field).name }
    ensures ok { OnOk result (reserved_breaks (field_view field.entry) ≡ []) }
    ensures broken { IfErr result (TellsFirst (reserved_breaks (field_view field.entry))) }
{
    let node = field.value();
    if !has_group_form(alloc, name, node)? {
        return Err(ShapeFault::Broken(Rule::Property, node.start(), node.end()));
    }
    Ok(())
}

// The member's name, where it is a child. A property has its form then.
fn child_name<'s>(alloc: Global, field: Field<'_, 's>) -> Result<Option<Text<'s>>, ShapeFault>
    ensures ok { IfOk result (IsChildName (field_view field.entry)) }
    ensures broken { IfErr result (TellsFirst (member_breaks (field_view field.entry))) }
{
    let name = field.name(alloc)?;
    if is_word(name.as_str(), "$root") {
        return Ok(Some(name));
    }
    if is_reserved(name.as_str()) {
        check_reserved(alloc, name.as_str(), field)?;
        return Ok(None);
    }
    if !is_name(name.as_str()) {
        return Err(ShapeFault::Broken(Rule::Name, field.start(), field.end()));
    }
    Ok(Some(name))
}

// The rule that a member of this name breaks where it is no object.
fn rule_under(name: &str) -> Rule
    ensures { result ≡ rule_under name.now }
{
    if is_word(name, "$root") {
        return Rule::RootToken;
    }
    Rule::Member
}

// The group of an object: what its listed members say, and its children.
fn group_with<'s>(
    alloc: Global,
    file: &'s str,
    listed: &ListedMembers<'_, 's>,
    members: Members<'s>,
) -> Result<Group<'s>, NoMemory>
    ensures { IfOk result (λ g. (text : List ℕ) (es : List Entry) → AreListed listed.now es
        → AreChildren file.entry.now text es members.entry → IsGroupOf file.entry.now text es g) }
{
    let kind = said_kind(alloc, listed.kind)?;
    let deprecated = said_deprecated(alloc, listed.deprecated)?;
    let extends = extends_of(alloc, file, listed.extends)?;
    Ok(Group {
        kind,
        deprecated,
        extends,
        members,
    })
}

// The same as a child.
fn child_with<'s>(
    alloc: Global,
    file: &'s str,
    listed: &ListedMembers<'_, 's>,
    members: Members<'s>,
) -> Result<Child<'s>, NoMemory>
    ensures { IfOk result (λ c. (text : List ℕ) (es : List Entry) → AreListed listed.now es
        → AreChildren file.entry.now text es members.entry
        → IsGroupAsChild file.entry.now text es c) }
{
    let group = group_with(alloc, file, listed, members)?;
    let shared = Rc::new(alloc, group)?;
    Ok(Child::Group(shared))
}

// The children among the members, sorted once all are read.
#[cycle(group)]
fn read_members<'s>(
    alloc: Global,
    file: &'s str,
    text: &'s str,
    fields: &Fields<'_, 's>,
) -> Result<Members<'s>, ShapeFault>
    requires stands { EachStands text.now (fields_view fields.now) }
    requires differ { NamesDiffer (fields_view fields.now) }
    ensures sound { OnOk result (entries_breaks (fields_view fields.now) ≡ []) }
    ensures ok { IfOk result (AreChildren file.entry.now text.entry.now (fields_view fields.now)) }
    ensures broken { IfErr result (TellsFirst (entries_breaks (fields_view fields.now))) }
{
    let mut list = Vec::with_capacity(alloc, fields.len())?;
    for field in *fields {
        let member = read_member(alloc, file, text, field)?;
        push_some(&mut list, member)?;
    }
    let members = Members::from_list(alloc, list)?;
    Ok(members)
}

// The member, where it is a child.
#[cycle(group)]
fn read_member<'s>(
    alloc: Global,
    file: &'s str,
    text: &'s str,
    field: Field<'_, 's>,
) -> Result<Option<Member<'s>>, ShapeFault>
    requires { StandsIn text.now (field_view field).value }
    ensures sound { OnOk result (member_breaks (field_view field.entry) ≡ []) }
    ensures ok { IfOk result (IsChildIn file.entry.now text.entry.now (field_view field.entry)) }
    ensures broken { IfErr result (TellsFirst (member_breaks (field_view field.entry))) }
{
    let Some(name) = child_name(alloc, field)? else {
        return Ok(None);
    };
    let child = read_child(alloc, file, text, name.as_str(), field.value())?;
    Ok(Some(Member { name, child }))
}

// A token or a group; under `$root` a token alone, which stands for its group.
#[cycle(group)]
fn read_child<'s>(
    alloc: Global,
    file: &'s str,
    text: &'s str,
    name: &str,
    node: NodeRef<'_, 's>,
) -> Result<Child<'s>, ShapeFault>
    requires { StandsIn text.now (ref_view node) }
    ensures sound { OnOk result (breaks_under name.now (ref_view node.entry) ≡ []) }
    ensures ok { IfOk result (IsChildOf file.entry.now text.entry.now (ref_view node.entry)) }
    ensures broken { IfErr result (TellsFirst (breaks_under name.now (ref_view node.entry))) }
{
    let Some(fields) = node.as_object() else {
        return Err(ShapeFault::Broken(rule_under(name), node.start(), node.end()));
    };
    let listed = ListedMembers::among(alloc, text, &fields)?;
    read_object(alloc, file, text, name, node, &fields, &listed)
}

// The same of an object that has these members.
#[cycle(group)]
fn read_object<'s>(
    alloc: Global,
    file: &'s str,
    text: &'s str,
    name: &str,
    node: NodeRef<'_, 's>,
    fields: &Fields<'_, 's>,
    listed: &ListedMembers<'_, 's>,
) -> Result<Child<'s>, ShapeFault>
    requires stands { StandsIn text.now (ref_view node) }
    requires members { IsObjectOf (ref_view node) (fields_view fields.now) }
    requires listed { AreListed listed.now (fields_view fields.now) }
    ensures sound { OnOk result (breaks_under name.now (ref_view node.entry) ≡ []) }
    ensures ok { IfOk result (IsChildOf file.entry.now text.entry.now (ref_view node.entry)) }
    ensures broken { IfErr result (TellsFirst (breaks_under name.now (ref_view node.entry))) }
{
    if listed.are_token() {
        let def = read_token(alloc, file, text, node, fields, listed)?;
        return Ok(Child::Token(def));
    }
    if is_word(name, "$root") {
        return Err(ShapeFault::Broken(Rule::RootToken, node.start(), node.end()));
    }
    let members = read_members(alloc, file, text, fields)?;
    let child = child_with(alloc, file, listed, members)?;
    Ok(child)
}

/// The group of an object that has these members.
pub(crate) fn read_group<'s>(
    alloc: Global,
    file: &'s str,
    text: &'s str,
    fields: &Fields<'_, 's>,
    listed: &ListedMembers<'_, 's>,
) -> Result<Group<'s>, ShapeFault>
    requires stands { EachStands text.now (fields_view fields.now) }
    requires differ { NamesDiffer (fields_view fields.now) }
    requires listed { AreListed listed.now (fields_view fields.now) }
    ensures sound { OnOk result (entries_breaks (fields_view fields.now) ≡ []) }
    ensures ok { IfOk result (IsGroupOf file.entry.now text.entry.now (fields_view fields.now)) }
    ensures broken { IfErr result (TellsFirst (entries_breaks (fields_view fields.now))) }
{
    let members = read_members(alloc, file, text, fields)?;
    let group = group_with(alloc, file, listed, members)?;
    Ok(group)
}
