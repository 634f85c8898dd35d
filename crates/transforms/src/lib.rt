//! What platforms are given of tokens: the configuration that a text says, names on each platform, lengths in pixels, texts
//! between quotes, and sheets that are put together from fragments.
//!
//! A name is spelled character by character, so that it is a name of the platform's language whatever the path holds. Two
//! paths may have one name: `Clash` finds the first that has it. A sheet is written in one buffer, fragment by fragment.
#![tactic(auto)]

mod apart;
mod clash;
mod config;
mod extent;
mod frag;
mod hexadecimal;
mod laws;
mod name;
mod platform;
mod quoted;
mod rising;
mod scaling;
mod sheet;
mod texts;

pub use apart::are_apart;
pub use clash::Clash;
pub use config::{Config, ConfigFault, read_config};
pub use extent::Extent;
pub use frag::Names;
pub use hexadecimal::hex8;
pub use laws::{clash_laws, config_laws, name_laws, sheet_laws, spelling_laws};
pub use name::{name_for, name_with_ending, write_name};
pub use platform::Platform;
pub use quoted::{append_escaped, is_printable};
pub use rising::Rising;
pub use scaling::scale_rem;
pub use sheet::{Frame, Sheet};
pub use texts::Texts;
