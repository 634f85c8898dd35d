//! What the sources of a permutation come to: the trees of files, each of which is read once, and one tree that is merged
//! of all sources, or the first rule that a source breaks (Format Module 2025.10 and Resolver Module 2025.10, in this
//! project's profile).
#![tactic(auto)]

mod front;
mod laws;
mod laying;
mod merge;
mod reading;
mod shape;
mod shapes;
mod source;

pub use front::{Front, alike};
pub use laws::{
    each_merge, extension_rule_laws, merged_by_content, merged_tokens, one_merge, shape_rule_laws,
    shapes_known,
};
pub use laying::{Merged, merged_behind, merged_sources};
pub use merge::{Merge, Merges, merge_of};
pub use reading::read_named;
pub use shape::{FileShape, Shapes};
pub use shapes::{shapes_of, shapes_since};
pub use source::{Home, SourceBreak, SourceFault};
