//! The plan of files: which sources make which permutation (Design Tokens Resolver Module 2025.10, in this project's profile),
//! or the first rule that the resolver document breaks.
#![tactic(auto)]

mod files;
mod keeping;
mod laws;
mod loading;
mod plan;
mod refusal;
mod source;
mod tree;

pub use files::Files;
pub use laws::{each_plan, file_plan_laws, in_use_laws, refusal_laws};
pub use loading::LoadStop;
pub use plan::plan_of;
pub use refusal::PlanRefusal;
pub use source::{Plan, PlanPerm, PlanSource, PlanSources};
pub use tree::{Tree, Trees, read_tree};
