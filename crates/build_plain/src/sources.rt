//! Where the sources of permutations are named.

ghost use Rattle.std.specs.Prelude.{◌≡◌};
ghost use Rattle.std.specs.Str.{IsUtf8};
ghost use Rattle.file_plan.specs.View.{plan_sources_view};
ghost use Rattle.source_trees.specs.View.{home_view};
ghost use Rattle.build_plain.specs.Breaks.{home_of, first_file, source_rule};
ghost use Rattle.build_plain.specs.Names.{HaveUtf8Resolver};

use file_plan::{Files, PlanSource};
use refusals::{Rule, file_text};
use source_trees::{Home, SourceFault};

const TOKENS: &str = "tokens.json";

/// The resolver document, by which permutations are planned.
pub(crate) const RESOLVER: &str = "resolver.json";

/// The file that names the sources: the resolver document, or without one the token file itself.
pub fn home_of<'s>(files: &Files<'s>) -> Home<'s>
    ensures { home_view result ≡ home_of files.now }
{
    match files.get(RESOLVER) {
        Some(text) => Home {
            file: RESOLVER,
            text,
        },
        None => Home {
            file: TOKENS,
            text: file_text(files, TOKENS),
        },
    }
}

// A text is UTF-8.
fn is_utf8(_text: &str)
    ensures { IsUtf8 _text.now }
{}

/// The resolver document is UTF-8, as each text is.
pub fn resolver_is_utf8(files: &Files<'_>)
    ensures { HaveUtf8Resolver files.now }
{
    if let Some(text) = files.get(RESOLVER) {
        is_utf8(text);
    }
}

/// The file of the first source.
pub fn first_file<'a, 's>(home: &'a Home<'s>, sources: &'a [PlanSource<'s>]) -> &'a str
    ensures { result.now ≡ first_file (home_view home.now) (plan_sources_view sources.now) }
{
    match sources.first() {
        Some(PlanSource::File(name, _, _)) => name.as_str(),
        Some(PlanSource::Inline(_)) => home.file,
        None => home.file,
    }
}

/// The rule that a source breaks.
pub(crate) fn source_rule(fault: SourceFault) -> Rule
    ensures { result ≡ source_rule fault }
{
    match fault {
        SourceFault::Missing => Rule::FileMissing,
        SourceFault::Syntax => Rule::JsonSyntax,
        SourceFault::Duplicate => Rule::JsonDuplicate,
        SourceFault::Depth => Rule::JsonDepth,
        SourceFault::Shape(rule) => Rule::Shape(rule),
    }
}
