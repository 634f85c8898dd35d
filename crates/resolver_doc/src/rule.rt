//! The rules of resolver documents, and the first of several that are broken.

ghost use Rattle.std.specs.Prelude.{◌≡◌};
ghost use Rattle.json_span.specs.View.{ref_view, field_view};
ghost use Rattle.resolver_doc.specs.Break.{rule_number, is_before, earlier, with_breaks, at_value};
ghost use Rattle.resolver_doc.specs.Break.{at_name};

use json_span::{Field, NodeRef};

/// A rule that a resolver document breaks.
#[derive(Clone, Copy, Debug, PartialEq, Eq)]
pub enum PlanRule {
    /// `version` is missing or another value than `2025.10`.
    Version,
    /// A form is not met.
    Shape,
    /// A reference names no set, no modifier and no possible file.
    Reference,
    /// A reference of a source names a modifier.
    ModifierInSet,
    /// A modifier has no context.
    Contexts,
    /// `default` is no context's name.
    Default,
    /// An item has the name of an earlier one.
    Duplicate,
    /// A set comes back to itself by its references.
    Cycle,
}

/// A rule that is broken, and the byte offsets of the beginning and the end of its span.
#[derive(Clone, Copy, Debug, PartialEq, Eq)]
pub struct Break {
    pub rule: PlanRule,
    pub start: usize,
    pub end: usize,
}

impl PlanRule {
    /// The rule's place among the rules: of two breaks that start at one place the one of the lower number is told.
    pub fn number(self) -> u8
        ensures { result ≡ rule_number self }
    {
        match self {
            PlanRule::Version => 1,
            PlanRule::Shape => 2,
            PlanRule::Reference => 3,
            PlanRule::ModifierInSet => 4,
            PlanRule::Contexts => 5,
            PlanRule::Default => 6,
            PlanRule::Duplicate => 7,
            PlanRule::Cycle => 8,
        }
    }
}

// Whether a break is told before another one: it starts first, or it starts there too and its rule comes first.
fn is_before(new: Break, old: Break) -> bool
    ensures { result ≡ is_before new old }
{
    new.start < old.start || (new.start == old.start && new.rule.number() < old.rule.number())
}

/// The first of the break so far and the new one.
pub(crate) fn take(first: &mut Option<Break>, new: Break)
    ensures { first.new ≡ earlier first.old new }
{
    match *first {
        None => *first = Some(new),
        Some(old) => {
            if is_before(new, old) {
                *first = Some(new);
            }
        }
    }
}

/// A break at the value.
pub(crate) fn at_value(rule: PlanRule, node: NodeRef<'_, '_>, first: &mut Option<Break>)
    ensures { first.new ≡ with_breaks first.old (at_value rule (ref_view node.entry)) }
{
    let start = node.start();
    let end = node.end();
    take(first, Break { rule, start, end });
}

/// A break at the member's name.
pub(crate) fn at_name(rule: PlanRule, field: Field<'_, '_>, first: &mut Option<Break>)
    ensures { first.new ≡ with_breaks first.old (at_name rule (field_view field.entry)) }
{
    let start = field.start();
    let end = field.end();
    take(first, Break { rule, start, end });
}
