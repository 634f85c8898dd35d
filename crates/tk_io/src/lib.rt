//! What every crate of tokc stands on: sources and sinks that count their faults, texts and bytes, lists and maps that
//! contracts see as lists and finite maps, and counted steps.
#![tactic(auto)]

mod body;
mod bytes;
mod clean;
mod comparing;
mod faults;
mod memory;
mod outputs;
mod search;
mod sequence;
mod sink;
mod source;
mod steps;
mod streams;
mod text;
mod text_map;

pub use body::Body;
pub use bytes::Bytes;
pub use clean::{CleanSource, NullSink};
pub use comparing::is_same;
pub use faults::{Failed, NoMemory};
pub use memory::{MemSink, MemSource};
pub use outputs::Outputs;
pub use search::is_in;
pub use sequence::Sequence;
pub use sink::{Sink, write_all};
pub use source::{ReadStop, Source, read_all};
pub use steps::Steps;
pub use streams::{StdSink, StdSource};
pub use text::{Text, behind};
pub use text_map::TextMap;
