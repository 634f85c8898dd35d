//! The properties that a token or a group may have: what they mean, and whether they have their
//! form.

ghost use Rattle.std.specs.Prelude.{◌≡◌, IfOk};
ghost use Rattle.std.specs.Str.{bytes_eq};
ghost use Rattle.json_span.specs.View.{json_view};
ghost use Rattle.token_tree.specs.Texts.{is_reserved, is_name};
ghost use Rattle.token_tree.specs.Shape.{has_form, has_group_form, has_token_form};
ghost use Rattle.token_tree.specs.Shape.{is_mark, is_text, kind_in, mark_in, target_in};

use crate::mark::Mark;
use json_span::{NodeRef, ValueType};
use name_path::{Kind, Path, RefStop, read_group};
use std::alloc::Global;
use tk_io::{NoMemory, is_same};

/// Whether the name is this word.
pub(crate) fn is_word(name: &str, word: &str) -> bool
    ensures { result ≡ bytes_eq name.now word.now }
{
    is_same(name, word)
}

/// Whether a name begins with `$`.
pub(crate) fn is_reserved(name: &str) -> bool
    ensures { result ≡ is_reserved name.now }
{
    match name.as_bytes().first() {
        Some(byte) => *byte == b'$',
        None => false,
    }
}

/// Whether a token or a group can have this name.
pub(crate) fn is_name(name: &str) -> bool
    ensures { result ≡ is_name name.now }
{
    name_path::is_name(name)
}

pub(crate) fn kind_in(alloc: Global, node: NodeRef<'_, '_>) -> Result<Option<Kind>, NoMemory>
    ensures { IfOk result (λ k. k ≡ kind_in (json_view node.entry)) }
{
    let Some(text) = node.as_text(alloc)? else {
        return Ok(None);
    };
    Ok(Kind::named(text.as_str()))
}

fn is_text(node: NodeRef<'_, '_>) -> bool
    ensures { result ≡ is_text (json_view node.entry) }
{
    match node.value_type() {
        ValueType::String => true,
        ValueType::Boolean => false,
        ValueType::Null => false,
        ValueType::Number => false,
        ValueType::Array => false,
        ValueType::Object => false,
    }
}

// Whether a value is one that `$deprecated` can have: true, false or a text.
fn is_mark(node: NodeRef<'_, '_>) -> bool
    ensures { result ≡ is_mark (json_view node.entry) }
{
    match node.value_type() {
        ValueType::Boolean => true,
        ValueType::String => true,
        ValueType::Null => false,
        ValueType::Number => false,
        ValueType::Array => false,
        ValueType::Object => false,
    }
}

pub(crate) fn mark_in<'s>(
    alloc: Global,
    node: NodeRef<'_, 's>,
) -> Result<Option<Mark<'s>>, NoMemory>
    ensures { IfOk result (λ m. m ≡ mark_in (json_view node.entry)) }
{
    match node.as_bool() {
        Some(true) => return Ok(Some(Mark::Yes)),
        Some(false) => return Ok(Some(Mark::No)),
        None => {}
    }
    let Some(text) = node.as_text(alloc)? else {
        return Ok(None);
    };
    Ok(Some(Mark::Because(text)))
}

/// The path of the group that the value names, where it names one.
pub(crate) fn target_in<'s>(
    alloc: Global,
    node: NodeRef<'_, 's>,
) -> Result<Option<Path<'s>>, NoMemory>
    ensures { IfOk result (λ t. t ≡ target_in (json_view node.entry)) }
{
    let Some(text) = node.as_text(alloc)? else {
        return Ok(None);
    };
    match read_group(alloc, &text) {
        Ok(path) => Ok(Some(path)),
        Err(RefStop::BadRef) => Ok(None),
        Err(RefStop::NoMemory) => Err(NoMemory),
    }
}

// Whether the value of a property has the form that a property of this name needs.
fn has_form(alloc: Global, name: &str, node: NodeRef<'_, '_>) -> Result<bool, NoMemory>
    ensures { IfOk result (λ b. b ≡ has_form name.now (json_view node.entry)) }
{
    if is_word(name, "$type") {
        let kind = kind_in(alloc, node)?;
        return Ok(kind.is_some());
    }
    if is_word(name, "$description") {
        return Ok(is_text(node));
    }
    if is_word(name, "$extensions") {
        return Ok(node.as_object().is_some());
    }
    if is_word(name, "$deprecated") {
        return Ok(is_mark(node));
    }
    Ok(true)
}

/// Whether a member of a group has its form.
pub(crate) fn has_group_form(
    alloc: Global,
    name: &str,
    node: NodeRef<'_, '_>,
) -> Result<bool, NoMemory>
    ensures { IfOk result (λ b. b ≡ has_group_form name.now (json_view node.entry)) }
{
    if is_word(name, "$extends") {
        let target = target_in(alloc, node)?;
        return Ok(target.is_some());
    }
    has_form(alloc, name, node)
}

/// Whether a member of a token has its form; `valued` says whether the token has a `$value`.
pub(crate) fn has_token_form(
    alloc: Global,
    valued: bool,
    name: &str,
    node: NodeRef<'_, '_>,
) -> Result<bool, NoMemory>
    ensures { IfOk result (λ b. b ≡ has_token_form valued name.now (json_view node.entry)) }
{
    if is_word(name, "$ref") {
        return Ok(is_text(node) && !valued);
    }
    has_form(alloc, name, node)
}
