//! Names of modifiers and contexts that no selector can hold.

ghost use Rattle.std.specs.Prelude.{◌≡◌, option_map, slice_get, map};
ghost use Rattle.resolver_doc.specs.View.{item_view, order_view, sets_view};
ghost use Rattle.std.specs.List.{list_all};
ghost use Rattle.std.specs.Prelude.{filter, not};
ghost use Rattle.transforms.specs.Quoted.{is_printable};
ghost use Rattle.theme_css.specs.Themes.{bad_names_in, first_bad, in_modifier, is_modifier};

use resolver_doc::{Item, SetDef};
use transforms::is_printable;

fn in_modifier(byte: u8) -> bool
    ensures { result ≡ in_modifier byte }
{
    byte.is_ascii_lowercase() || byte.is_ascii_digit() || byte == b'-'
}

// Whether all bytes are lower-case letters, digits or `-`.
fn are_in_modifier(name: &[u8]) -> bool
    ensures { result ≡ list_all in_modifier name.now }
{
    for byte in name {
        if !in_modifier(*byte) {
            return false;
        }
    }
    true
}

// Whether a selector can hold the name of a modifier.
fn is_modifier(name: &str) -> bool
    ensures { result ≡ is_modifier name.now }
{
    match name.as_bytes().first() {
        Some(first) => first.is_ascii_lowercase() && are_in_modifier(name.as_bytes()),
        None => false,
    }
}

// The first of the contexts whose name can't be printed.
fn bad_context<'p>(contexts: &'p [SetDef<'_, '_>]) -> Option<&'p str>
    ensures { option_map (λ name. name.now) result
        ≡ slice_get (filter (λ c. not (is_printable c))
        (map (λ c. c.name) (sets_view contexts.entry.now))) 0 }
{
    for context in contexts {
        if !is_printable(context.name.as_str()) {
            return Some(context.name.as_str());
        }
    }
    None
}

// The first bad name of an item.
fn bad_name_in<'p>(item: &'p Item<'_, '_>) -> Option<&'p str>
    ensures { option_map (λ name. name.now) result
        ≡ slice_get (bad_names_in (item_view item.entry.now)) 0 }
{
    match item {
        Item::Set(_) => None,
        Item::Modifier(name, contexts, _) => {
            if is_modifier(name.as_str()) {
                bad_context(contexts.as_slice())
            } else {
                Some(name.as_str())
            }
        }
    }
}

/// The first name that no selector can hold: modifiers in order, and after each its contexts.
pub(crate) fn first_bad<'p>(order: &'p [Item<'_, '_>]) -> Option<&'p str>
    ensures { option_map (λ name. name.now) result ≡ first_bad (order_view order.entry.now) }
{
    for item in order {
        if let Some(name) = bad_name_in(item) {
            return Some(name);
        }
    }
    None
}
