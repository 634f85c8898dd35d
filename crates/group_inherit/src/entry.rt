//! The tokens of a flat tree.

use name_path::Kind;
use std::fmt;
use std::marker::Model;
use std::rc::Rc;
use token_tree::{Mark, TokenDef};

/// A token of a flat tree, seen as plain data.
#[derive(Drop)]
pub struct Entry<'s> {
    /// What stands at the token's path. Trees share their definitions.
    pub def: Rc<TokenDef<'s>>,
    /// The `$type` of the nearest group upwards that has one.
    pub group_kind: Option<Kind>,
    /// The `$deprecated` of the nearest group upwards that has one.
    pub group_mark: Option<Mark<'s>>,
}

impl<'s> Model for Entry<'s> {
    ghost use Rattle.group_inherit.specs.Flattening.{Flattened};
    ghost use Rattle.group_inherit.specs.Codes.{coded_flattened};

    ghost Value = { Flattened };

    ghost coded = { coded_flattened };

    ghost use Rattle.group_inherit.specs.View.{entry_view};

    ghost view = { entry_view };
}

impl<'s> fmt::Debug for Entry<'s> {
    fn fmt<W: fmt::Write>(&self, f: &mut fmt::Formatter<W>) -> fmt::Result {
        f.write_str("Entry")
    }
}
