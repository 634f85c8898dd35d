//! The rules, and their names in refusals.

ghost use Rattle.std.specs.Prelude.{◌≡◌};
ghost use Rattle.refusals.specs.Refusal.{shape_rule_name, ref_rule_name, cell_rule_name, plan_rule_name, rule_name};

use alias_ref::RefRule;
use resolver_doc::PlanRule;
use std::fmt;
use type_rules::ValueRule;

/// A rule that a token can break.
#[derive(Clone, Copy, Debug, PartialEq, Eq)]
pub enum CellRule {
    /// A rule of references, or that a kind is missing.
    Ref(RefRule),
    /// A rule of values.
    Value(ValueRule),
}

/// The rules that files can break, in the order in which they are looked at.
#[derive(Clone, Copy, PartialEq, Eq)]
pub enum Rule {
    /// `tokc.toml` is no TOML text.
    ConfigToml,
    /// `tokc.toml` has another key, or a value of another form.
    ConfigKey,
    /// `tokens.json` is not there.
    FileMissing,
    /// The text is no JSON text (RFC 8259).
    JsonSyntax,
    /// Two members of one object have equal names.
    JsonDuplicate,
    /// More than 64 brackets are open at once.
    JsonDepth,
    /// The resolver document breaks a rule (Resolver Module 2025.10).
    Plan(PlanRule),
    /// There are more than 64 permutations.
    PlanPermutations,
    /// A permutation has more than 1,024 sources.
    PlanSources,
    /// The file is no tree of groups and tokens (Format Module 2025.10).
    Shape(token_tree::Rule),
    /// A group extends a group that is not there.
    ExtendsTarget,
    /// A group extends itself, by way of others.
    ExtendsCycle,
    /// The groups have more than 16,384 members with those that they inherit.
    ExtendsCount,
    /// The tree is more than 64 levels high with what its groups inherit.
    ExtendsHeight,
    /// A token has no value.
    Token(CellRule),
    /// Two tokens have one name on a platform.
    NameClash,
}

impl fmt::Debug for Rule {
    fn fmt<W: fmt::Write>(&self, f: &mut fmt::Formatter<W>) -> fmt::Result {
        f.write_str("Rule")
    }
}

fn shape_rule_name(rule: token_tree::Rule) -> &'static [u8]
    ensures { result.now ≡ shape_rule_name rule }
{
    match rule {
        token_tree::Rule::Root => b"shape-root",
        token_tree::Rule::Name => b"shape-name",
        token_tree::Rule::Member => b"shape-member",
        token_tree::Rule::Property => b"shape-property",
        token_tree::Rule::TokenChild => b"shape-token-child",
        token_tree::Rule::RootToken => b"shape-root-token",
    }
}

fn ref_rule_name(rule: RefRule) -> &'static [u8]
    ensures { result.now ≡ ref_rule_name rule }
{
    match rule {
        RefRule::RefSyntax => b"alias-syntax",
        RefRule::RefTarget => b"alias-target",
        RefRule::Cycle => b"alias-cycle",
        RefRule::Deep => b"alias-depth",
        RefRule::Big => b"alias-size",
        RefRule::NoType => b"type-missing",
    }
}

fn cell_rule_name(rule: CellRule) -> &'static [u8]
    ensures { result.now ≡ cell_rule_name rule }
{
    match rule {
        CellRule::Ref(broken) => ref_rule_name(broken),
        CellRule::Value(broken) => broken.name().as_bytes(),
    }
}

fn plan_rule_name(rule: PlanRule) -> &'static [u8]
    ensures { result.now ≡ plan_rule_name rule }
{
    match rule {
        PlanRule::Version => b"plan-version",
        PlanRule::Shape => b"plan-shape",
        PlanRule::Reference => b"plan-reference",
        PlanRule::ModifierInSet => b"plan-modifier-in-set",
        PlanRule::Contexts => b"plan-contexts",
        PlanRule::Default => b"plan-default",
        PlanRule::Duplicate => b"plan-duplicate",
        PlanRule::Cycle => b"plan-cycle",
    }
}

impl Rule {
    /// The rule as a refusal spells it.
    pub fn name(self) -> &'static [u8]
        ensures { result.now ≡ rule_name self }
    {
        match self {
            Rule::ConfigToml => b"config-toml",
            Rule::ConfigKey => b"config-key",
            Rule::FileMissing => b"file-missing",
            Rule::JsonSyntax => b"json-syntax",
            Rule::JsonDuplicate => b"json-duplicate",
            Rule::JsonDepth => b"json-depth",
            Rule::Plan(broken) => plan_rule_name(broken),
            Rule::PlanPermutations => b"plan-permutations",
            Rule::PlanSources => b"plan-sources",
            Rule::Shape(broken) => shape_rule_name(broken),
            Rule::ExtendsTarget => b"extends-target",
            Rule::ExtendsCycle => b"extends-cycle",
            Rule::ExtendsCount => b"extends-count",
            Rule::ExtendsHeight => b"extends-height",
            Rule::Token(broken) => cell_rule_name(broken),
            Rule::NameClash => b"name-clash",
        }
    }
}
