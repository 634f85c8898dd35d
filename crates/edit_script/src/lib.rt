//! Scripts of events on files, the changes from one commit's outputs to the next, and the records that tell them.
#![tactic(auto)]

mod change;
mod counts;
mod cut;
mod event;
mod event_line;
mod file_laws;
mod fitting;
mod laws;
mod line;
mod merging;
mod number;
mod outcome;
mod path;
mod record_line;
mod script;
mod version;

pub use change::{Change, Changes};
pub use counts::stats_line;
pub use event::{Event, Events};
pub use file_laws::{
    counted_commits, first_texts, fitting_events, made_lengths, one_map, one_more_event,
    one_more_outcome, one_unfit, present_texts, up_to_commit, whole_events,
};
pub use fitting::{effect, made_length};
pub use laws::{
    carried_lines, delta_applies, deltas_apply, one_delta, one_more_delta, one_reading, one_stop,
    pieces_are_whole, script_is_text, second_version, spellings_apart, stream_parts,
};
pub use line::{Line, write_line};
pub use merging::delta;
pub use outcome::Outcome;
pub use path::is_path;
pub use record_line::write_change;
pub use script::{ScriptStop, read_script};
pub use version::Version;
