//! Reading the definition of a token.

ghost use Rattle.std.specs.Prelude.{◌≡◌, [], true, OnOk, IfOk, IfErr, codes, option_map};
ghost use Rattle.json_span.specs.Tree.{string_in, tree_of};
ghost use Rattle.json_span.specs.View.{node_view, ref_view, field_view, fields_view};
ghost use Rattle.token_tree.specs.Answer.{TellsFirst, IsObjectOf};
ghost use Rattle.token_tree.specs.Promise.{StandsIn};
ghost use Rattle.token_tree.specs.Shape.{are_token, has, is_object, kind_in, mark_in, slice_of};
ghost use Rattle.token_tree.specs.Shape.{token_breaks, token_member_breaks};
ghost use Rattle.token_tree.specs.inner.Listed.{AreListed, said_in, value_among};
ghost use Rattle.token_tree.specs.inner.Outcomes.{IsObjectIn, def_at, slice_view};

use crate::definition::TokenDef;
use crate::fault::{Rule, ShapeFault};
use crate::listed_members::ListedMembers;
use crate::mark::Mark;
use crate::properties::{has_token_form, is_reserved, kind_in, mark_in};
use json_span::{Field, Fields, Node, NodeRef};
use name_path::Kind;
use std::alloc::Global;
use std::rc::Rc;
use tk_io::{NoMemory, Text};

// Looks for the first break of a member of a token.
fn check_member(alloc: Global, valued: bool, field: Field<'_, '_>) -> Result<(), ShapeFault>
    ensures ok { OnOk result (token_member_breaks valued (field_view field.entry) ≡ []) }
    ensures broken { IfErr result
        (TellsFirst (token_member_breaks valued (field_view field.entry))) }
{
    let name = field.name(alloc)?;
    let node = field.value();
    if !is_reserved(name.as_str()) {
        return Err(ShapeFault::Broken(Rule::TokenChild, field.start(), field.end()));
    }
    if !has_token_form(alloc, valued, name.as_str(), node)? {
        return Err(ShapeFault::Broken(Rule::Property, node.start(), node.end()));
    }
    Ok(())
}

// Looks for the first break of a token, whose members these are.
fn check_token(alloc: Global, fields: &Fields<'_, '_>, valued: bool) -> Result<(), ShapeFault>
    requires { valued ≡ has (codes "$value") (fields_view fields.now) }
    ensures ok { OnOk result (token_breaks (fields_view fields.now) ≡ []) }
    ensures broken { IfErr result (TellsFirst (token_breaks (fields_view fields.now))) }
{
    for field in *fields {
        check_member(alloc, valued, field)?;
    }
    Ok(())
}

/// What a `$type` says that was found or not.
pub(crate) fn said_kind(
    alloc: Global,
    found: Option<NodeRef<'_, '_>>,
) -> Result<Option<Kind>, NoMemory>
    ensures { IfOk result (λ k. k ≡ said_in kind_in found.entry) }
{
    match found {
        Some(node) => kind_in(alloc, node),
        None => Ok(None),
    }
}

/// What a `$deprecated` says that was found or not.
pub(crate) fn said_deprecated<'s>(
    alloc: Global,
    found: Option<NodeRef<'_, 's>>,
) -> Result<Option<Mark<'s>>, NoMemory>
    ensures { IfOk result (λ m. m ≡ said_in mark_in found.entry) }
{
    match found {
        Some(node) => mark_in(alloc, node),
        None => Ok(None),
    }
}

fn said_description<'s>(
    alloc: Global,
    found: Option<NodeRef<'_, 's>>,
) -> Result<Option<Text<'s>>, NoMemory>
    ensures { IfOk result (λ d. d ≡ said_in string_in found.entry) }
{
    match found {
        Some(node) => node.as_text(alloc),
        None => Ok(None),
    }
}

// The slice of an object.
fn slice_of<'s>(text: &'s str, node: NodeRef<'_, '_>) -> &'s str
    requires stands { StandsIn text.now (ref_view node) }
    requires object { is_object (tree_of (ref_view node)) ≡ true }
    ensures { result.now ≡ slice_of text.entry.now (ref_view node.entry) }
{
    &text[node.start()..node.end()]
}

fn extensions_of<'s>(text: &'s str, found: Option<NodeRef<'_, '_>>) -> Option<&'s str>
    requires { IsObjectIn text.now (option_map ref_view found) }
    ensures { slice_view result
        ≡ option_map (slice_of text.entry.now) (option_map ref_view found.entry) }
{
    let node = found?;
    Some(slice_of(text, node))
}

// What the token's `$ref` or else its `$value` holds.
fn token_value<'s>(
    node: NodeRef<'_, 's>,
    listed: &ListedMembers<'_, 's>,
) -> Result<Node<'s>, NoMemory>
    ensures { IfOk result (λ n. node_view n ≡ value_among listed.now (ref_view node.entry)) }
{
    if let Some(value) = listed.reference {
        return value.node();
    }
    if let Some(value) = listed.value {
        return value.node();
    }
    node.node()
}

/// The definition of a token, whose object is `node` and has these members.
pub(crate) fn read_token<'s>(
    alloc: Global,
    file: &'s str,
    text: &'s str,
    node: NodeRef<'_, 's>,
    fields: &Fields<'_, 's>,
    listed: &ListedMembers<'_, 's>,
) -> Result<Rc<TokenDef<'s>>, ShapeFault>
    requires stands { StandsIn text.now (ref_view node) }
    requires members { IsObjectOf (ref_view node) (fields_view fields.now) }
    requires listed { AreListed listed.now (fields_view fields.now) }
    requires token { are_token (fields_view fields.now) ≡ true }
    ensures sound { OnOk result (token_breaks (fields_view fields.now) ≡ []) }
    ensures ok { IfOk result (λ def. def.value ≡ def_at file.entry.now text.entry.now node.entry) }
    ensures broken { IfErr result (TellsFirst (token_breaks (fields_view fields.now))) }
{
    check_token(alloc, fields, listed.value.is_some())?;
    let value = token_value(node, listed)?;
    let kind = said_kind(alloc, listed.kind)?;
    let description = said_description(alloc, listed.description)?;
    let deprecated = said_deprecated(alloc, listed.deprecated)?;
    let def = TokenDef {
        file,
        source: slice_of(text, node),
        start: node.start(),
        end: node.end(),
        value,
        by_ref: listed.reference.is_some(),
        kind,
        description,
        extensions: extensions_of(text, listed.extensions),
        deprecated,
    };
    let shared = Rc::new(alloc, def)?;
    Ok(shared)
}
