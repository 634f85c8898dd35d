//! Links that stand at parts.

ghost use Rattle.std.specs.Prelude.{◌≡◌, map, option_map};
ghost use Rattle.css_out.specs.Links.{same_trail, is_kind, link_for, item_link};

use name_path::{Kind, Link, Path};
use tk_io::Text;

// Whether a link stands at these steps of the value.
fn is_same(trail: &[Text<'_>], steps: &[&str]) -> bool
    ensures { result ≡ same_trail trail.now (map (λ s. s.now) steps.now) }
{
    let Some((first, others)) = trail.split_first() else {
        return steps.is_empty();
    };
    let Some((step, more)) = steps.split_first() else {
        return false;
    };
    first.as_str() == *step && is_same(others, more)
}

// Whether the token that a link leads to is known to be of this kind.
fn is_kind(kind: Option<Kind>, wanted: Kind) -> bool
    ensures { result ≡ is_kind kind wanted }
{
    match kind {
        Some(kind) => kind.name() == wanted.name(),
        None => false,
    }
}

/// The token to which the first link of the kind at the trail leads.
pub(crate) fn link_for<'l, 's>(
    links: &'l [Link<'s>],
    trail: &[&str],
    kind: Kind,
) -> Option<&'l Path<'s>>
    ensures { option_map (λ p. p.now) result
        ≡ link_for links.now (map (λ s. s.now) trail.now) kind }
{
    for link in links {
        if is_kind(link.kind, kind) && is_same(link.trail.as_slice(), trail) {
            return Some(&link.target);
        }
    }
    None
}

/// The same at a member of an item. The only item of a shadow may be written without a list.
pub(crate) fn item_link<'l, 's>(
    links: &'l [Link<'s>],
    is_only: bool,
    index: &str,
    name: &str,
    kind: Kind,
) -> Option<&'l Path<'s>>
    ensures { option_map (λ p. p.now) result ≡ item_link links.now is_only index.now name.now kind }
{
    if is_only {
        if let Some(target) = link_for(links, &[name], kind) {
            return Some(target);
        }
    }
    link_for(links, &[index, name], kind)
}
