//! What every token of a flat tree keeps.

ghost use Rattle.alias_ref.specs.Unchanged.{AreDefinitions};

use group_inherit::Flat;

/// Each token of a flat tree is what its source shows.
pub fn definitions_stand(flat: &Flat<'_>)
    ensures { AreDefinitions flat.now }
{
    for token in flat.as_slice() {
        token.1.def.keeps();
    }
}
