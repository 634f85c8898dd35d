//! What is known of the tokens that a token names.

ghost use Rattle.std.specs.Prelude.{List};
ghost use Rattle.group_inherit.specs.Flattening.{TokenAt};
ghost use Rattle.tree_changes.specs.Named.{NamesAs};
ghost use Rattle.tree_changes.specs.declared.named.Named.TheVariants as known;

/// What is known of the tokens that a token names. It is kept with a tree, so that the references of a token that stands as it
/// stood need not be read again.
#[derive(Clone, Copy, Debug)]
pub enum Named {
    /// Nothing is known.
    Unknown,
    /// It names no other.
    Nothing,
    /// It names the token at this place of its tree, in path order, once, and no other.
    One(u32),
}

impl Named {
    /// The token at this place, where so large a place can be kept.
    pub(crate) fn one(place: usize) -> Named
        ensures { (tokens : List TokenAt) (token : TokenAt)
            → NamesAs tokens token (known.One place) → NamesAs tokens token result }
    {
        if place > 0xffff_ffff {
            return Named::Unknown;
        }
        Named::One(place as u32)
    }
}
