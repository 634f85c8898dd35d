//! What changed from one flat tree to another: which tokens stand as they stood, and which are reached from a change by
//! references.
#![tactic(auto)]

mod definitions;
mod index;
mod keeping;
mod laws;
mod links;
mod named;
mod places;
mod settling;
mod unchanged;

pub use definitions::definitions_stand;
pub use keeping::kept_places;
pub use laws::reached_laws;
pub use named::Named;
pub use unchanged::unchanged_places;
