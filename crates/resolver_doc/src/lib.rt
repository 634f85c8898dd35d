//! Resolver documents (Design Tokens Resolver Module 2025.10, in this project's profile): what a document says of sets,
//! modifiers and their order, or the first rule that it breaks.
#![tactic(auto)]

mod document;
mod fault;
mod form;
mod graph;
mod items;
mod known;
mod laws;
mod members;
mod pointers;
mod reading;
mod repeats;
mod resolver;
mod rings;
mod rule;
mod sources;
mod written;

pub use document::form_break;
pub use fault::PlanFault;
pub use laws::{break_laws, each_document_answers, naming_laws, plan_laws, rule_laws, told_laws};
pub use reading::read_resolver;
pub use resolver::Resolver;
pub use rule::{Break, PlanRule};
pub use written::{Contexts, Item, Order, SetDef, Sets, Written, WrittenSource};
