//! JSON texts as trees with spans (RFC 8259).
#![tactic(auto)]

mod alternative;
mod build;
mod bytes;
mod copying;
mod escape;
mod fields;
mod flaw;
mod items;
mod laws;
mod names;
mod node;
mod node_ref;
mod plain;
mod reader;
mod scan;
mod skip;
mod stop;
mod string;
mod table;
mod text;
mod value_type;
mod written;

pub use fields::{Field, Fields};
pub use items::Items;
pub use laws::{joined_laws, json_laws, plain_laws, spelling_laws};
pub use node::Node;
pub use node_ref::NodeRef;
pub use plain::{Plain, PlainField, PlainFields, PlainItems};
pub use reader::{JsonFault, read};
pub use value_type::ValueType;
pub use written::{write_string, write_string_bytes, write_string_inside};
