//! Contexts that are chosen for modifiers: the attributes of a page, and those that a block asks for.

ghost use Rattle.std.specs.Prelude.{◌≡◌};
ghost use Rattle.std.specs.List.{list_all};
ghost use Rattle.theme_css.specs.Cascade.{is_among, is_same};
ghost use Rattle.theme_css.specs.inner.Views.{choice_view, choices_view};

/// A modifier, and the context that is chosen for it.
#[derive(Clone, Copy)]
pub(crate) struct Choice<'p> {
    pub(crate) modifier: &'p str,
    pub(crate) context: &'p str,
}

// Whether the choices are one.
fn is_same(one: &Choice<'_>, other: &Choice<'_>) -> bool
    ensures { result ≡ is_same (choice_view one.now) (choice_view other.now) }
{
    if one.modifier == other.modifier {
        return one.context == other.context;
    }
    false
}

// Whether the choice is one of these.
fn is_among(page: &[Choice<'_>], choice: &Choice<'_>) -> bool
    ensures { result ≡ is_among (choices_view page.now) (choice_view choice.now) }
{
    for each in page {
        if is_same(each, choice) {
            return true;
        }
    }
    false
}

/// Whether all of them are among the attributes of the page.
pub(crate) fn are_among(page: &[Choice<'_>], asked: &[Choice<'_>]) -> bool
    ensures { result
        ≡ list_all (is_among (choices_view page.now)) (choices_view asked.now) }
{
    for choice in asked {
        if !is_among(page, choice) {
            return false;
        }
    }
    true
}
