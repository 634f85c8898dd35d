//! Sources as they are written, and the references among them that name nothing.

ghost use Rattle.std.specs.Prelude.{◌≡◌, ◌≢◌, ◌∷◌, ℕ, List, IfOk, OnOk, MatchOption, option_map};
ghost use Rattle.tk_io.specs.Characters.{full_stop, solidus};
ghost use Rattle.json_span.specs.View.{ref_view};
ghost use Rattle.resolver_doc.specs.Break.{with_breaks};
ghost use Rattle.resolver_doc.specs.Document.{text_at, set_number, without_dots, set_or_file};
ghost use Rattle.resolver_doc.specs.Document.{source_of, listed_sources};
ghost use Rattle.resolver_doc.specs.Naming.{named_breaks_by, source_breaks, sources_breaks, of_each};
ghost use Rattle.resolver_doc.specs.View.{source_view, sources_view};
ghost use Rattle.resolver_doc.specs.inner.Known.{known_sets};

use crate::known::Known;
use crate::members::{member, text_at};
use crate::rule::{Break, PlanRule, at_value};
use crate::written::{Written, WrittenSource};
use edit_script::is_path;
use json_span::NodeRef;
use std::alloc::Global;
use tk_io::{NoMemory, Text};

// What stands behind a `./` at the beginning of a path.
fn behind_dot(text: &str) -> Option<&str>
    ensures { MatchOption result
        ((rest : List ℕ) → text.now ≢ full_stop ∷ (solidus ∷ rest))
        (λ rest. text.now ≡ full_stop ∷ (solidus ∷ rest.now)) }
{
    let Some(rest) = text.strip_prefix('.') else {
        return None;
    };
    rest.strip_prefix('/')
}

// The text without its leading `./`, as often as that stands there.
fn without_dots(text: &str) -> &str
    ensures { result.now ≡ without_dots text.now }
{
    let mut rest = text;
    while let Some(behind) = behind_dot(rest) {
        rest = behind;
    }
    rest
}

// The name of the file that a text names.
fn file_name<'s>(alloc: Global, text: Text<'s>) -> Result<Text<'s>, NoMemory>
    ensures { IfOk result (λ name. name ≡ without_dots text.entry) }
{
    let name = without_dots(text.as_str());
    if name == text.as_str() {
        return Ok(text);
    }
    Text::owned(alloc, name)
}

// Takes in the break of a source's reference with this text, which is a pointer to the set of the number, if to one.
fn check_named(
    string: NodeRef<'_, '_>,
    text: &str,
    number: Option<usize>,
    first: &mut Option<Break>,
)
    requires { text.now ≡ text_at (ref_view string) }
    ensures { first.new ≡ with_breaks first.old (named_breaks_by (ref_view string.entry) number) }
{
    if text.as_bytes().starts_with(b"#/modifiers/") {
        at_value(PlanRule::ModifierInSet, string, first);
        return;
    }
    if number.is_some() || is_path(without_dots(text)) {
        return;
    }
    at_value(PlanRule::Reference, string, first);
}

// What the text of the string names, which is a pointer to the set of the number, if to one.
fn set_or_file<'a, 's>(
    alloc: Global,
    known: &Known<'a, 's>,
    string: NodeRef<'a, 's>,
    text: Text<'s>,
    number: Option<usize>,
) -> Result<WrittenSource<'a, 's>, NoMemory>
    requires { text ≡ text_at (ref_view string) }
    ensures { IfOk result (λ source. source_view source
        ≡ set_or_file (known_sets known.now) (ref_view string.entry) number) }
{
    match number {
        Some(number) => Ok(WrittenSource::SetRef(known.set_name(alloc, number)?, number)),
        None => Ok(WrittenSource::File(file_name(alloc, text)?, string.start(), string.end())),
    }
}

// The source that a reference names: a set, or else a file.
fn named<'a, 's>(
    alloc: Global,
    known: &Known<'a, 's>,
    string: NodeRef<'a, 's>,
    first: &mut Option<Break>,
) -> Result<WrittenSource<'a, 's>, NoMemory>
    ensures source { IfOk result
        (λ source. source_view source ≡ set_or_file (known_sets known.now) (ref_view string.entry)
        (set_number (known_sets known.now) (text_at (ref_view string.entry)))) }
    ensures breaks { OnOk result (first.new ≡ with_breaks first.old
        (named_breaks_by (ref_view string.entry)
        (set_number (known_sets known.now) (text_at (ref_view string.entry))))) }
{
    let text = text_at(alloc, string)?;
    let number = known.set_number(&text);
    check_named(string, text.as_str(), number, first);
    set_or_file(alloc, known, string, text, number)
}

/// The source that is written there. A break of its reference is taken in.
pub(crate) fn source<'a, 's>(
    alloc: Global,
    known: &Known<'a, 's>,
    node: NodeRef<'a, 's>,
    first: &mut Option<Break>,
) -> Result<WrittenSource<'a, 's>, NoMemory>
    ensures source { IfOk result
        (λ source. source_view source ≡ source_of (known_sets known.now) (ref_view node.entry)) }
    ensures breaks { OnOk result (first.new
        ≡ with_breaks first.old (source_breaks (known_sets known.now) (ref_view node.entry))) }
{
    match member(node, "$ref") {
        Some(string) => named(alloc, known, string, first),
        None => Ok(WrittenSource::Inline(node)),
    }
}

/// The sources of a list, where there is one. Breaks of their references are taken in.
pub(crate) fn sources<'a, 's>(
    alloc: Global,
    known: &Known<'a, 's>,
    list: Option<NodeRef<'a, 's>>,
    first: &mut Option<Break>,
) -> Result<Written<'a, 's>, NoMemory>
    ensures sources { IfOk result (λ sources. sources_view sources
        ≡ listed_sources (known_sets known.now) (option_map ref_view list.entry)) }
    ensures breaks { OnOk result (first.new ≡ with_breaks first.old
        (of_each (sources_breaks (known_sets known.now)) (option_map ref_view list.entry))) }
{
    let mut written = Written::new(alloc);
    let Some(node) = list else {
        return Ok(written);
    };
    let Some(items) = node.as_array() else {
        return Ok(written);
    };
    for item in items {
        written.push(source(alloc, known, item, first)?)?;
    }
    Ok(written)
}
