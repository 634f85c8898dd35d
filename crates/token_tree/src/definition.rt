//! Definitions of tokens.

use crate::mark::Mark;
use json_span::Node;
use name_path::Kind;
use std::fmt;
use std::marker::Model;
use tk_io::Text;

/// A token as it is written in a file. It is seen as plain data, and it is always what its `source`
/// shows: that is the text of an object without a flaw, which is a token and breaks no rule.
#[derive(Drop)]
pub struct TokenDef<'s> {
    /// The name of the file.
    pub file: &'s str,
    /// The token's object, as it is spelled.
    pub source: &'s str,
    /// The byte offset of `source` in the file's text.
    pub start: usize,
    /// The byte offset after it.
    pub end: usize,
    /// What stands under `$value`, or under `$ref`.
    pub value: Node<'s>,
    /// Whether it is what stands under `$ref`.
    pub by_ref: bool,
    /// `$type`, where given.
    pub kind: Option<Kind>,
    /// `$description`, where given.
    pub description: Option<Text<'s>>,
    /// The object under `$extensions` as it is spelled, where given.
    pub extensions: Option<&'s str>,
    /// `$deprecated`, where given.
    pub deprecated: Option<Mark<'s>>,
}

impl<'s> Model for TokenDef<'s> {
    ghost use Rattle.token_tree.specs.Tree.{Definition};
    ghost use Rattle.token_tree.specs.Codes.{coded_definition};
    ghost use Rattle.token_tree.specs.Promise.{IsDefinition};

    ghost Value = { Definition };

    ghost coded = { coded_definition };

    ghost use Rattle.token_tree.specs.DefinitionView.{definition_view};

    ghost view = { definition_view };

    ghost invariant = { λ d. IsDefinition (definition_view d) };
}

impl<'s> fmt::Debug for TokenDef<'s> {
    fn fmt<W: fmt::Write>(&self, f: &mut fmt::Formatter<W>) -> fmt::Result {
        f.write_str("TokenDef")
    }
}

impl<'s> TokenDef<'s> {
    ghost use Rattle.token_tree.specs.Promise.{IsDefinition};

    /// What every definition keeps.
    pub fn keeps(&self)
        ensures { IsDefinition self.now }
    {
        let _ = &self.start;
    }
}
