//! A store of outputs that is exact after any faults: what a store promises of each call, the four steps that bring it to
//! given outputs, a store in memory whose calls fail where they are told to, and the folder as a store.
#![tactic(auto)]

mod bringing;
mod folder;
mod gates;
mod laws;
mod listed;
mod manifest;
mod memory;
mod output_path;
mod slot;
mod stop;
mod store;
mod syncing;

pub use folder::DirStore;
pub use laws::store_laws;
pub use memory::MemStore;
pub use output_path::is_output_path;
pub use slot::Slot;
pub use stop::{StoreStop, SyncStop};
pub use store::Store;
pub use syncing::sync;
