//! A law of the definitions alone: a function that does nothing and is called for what it ensures.

ghost use Rattle.store_cli.specs.Fitting.{OutputsFit};

use build_plain::{outputs_denote, permutation_names};

/// The outputs of files whose resolver document is UTF-8 stand at paths that a store can hold: the names of permutations
/// are letters, digits, `_`, `-`, `%`, `=` and `+`.
pub fn outputs_fit()
    ensures { OutputsFit }
{
    outputs_denote();
    permutation_names();
}
