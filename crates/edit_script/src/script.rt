//! Reading a script.

ghost use Rattle.std.specs.Prelude.{◌≡◌, ℕ, List, ◌++◌, Err, IfOk, MatchOption};
ghost use Rattle.edit_script.specs.Script.{EventData, HasSpelling, IsScript, IsScriptEnd};
ghost use Rattle.edit_script.specs.Script.{event_text, header};
ghost use Rattle.edit_script.specs.View.{event_view};
ghost use Rattle.edit_script.specs.declared.script.ScriptStop.TheVariants.{NoMemory as OutOfMemory};

use crate::cut::cut_at_first;
use crate::event_line::event_of_line;
use crate::{Event, Events, Version};
use std::alloc::Global;
use thiserror::Error;
use tk_io::NoMemory;

/// Why a text gives no events.
#[derive(Debug, Drop, Error)]
pub enum ScriptStop {
    /// The text has no reading. It is refused at this byte, counted from 0: the end of its longest prefix that is a
    /// first line with whole events of its version, or 0 where no version's first line is there.
    #[error("bad script at byte {0}")]
    BadScript(usize),
    /// Memory ran out.
    #[error("out of memory")]
    NoMemory,
}

impl From<NoMemory> for ScriptStop {
    ghost from_gives = { λ _ e. e ≡ OutOfMemory };

    fn from(_: NoMemory) -> ScriptStop {
        ScriptStop::NoMemory
    }
}

/// Reads a script: the line `tokc-script 1` or `tokc-script 2`, and then any number of events, each on lines that end
/// in one byte 0x0A: `put PATH LEN` with exactly LEN bytes of text and one 0x0A after it, `del PATH`, or `commit`;
/// under the second line also `move PATH PATH`, and `patch PATH START END LEN` with exactly LEN bytes of text and one
/// 0x0A after it. PATH is 1 to 200 bytes of segments joined by `/`, each of one or more ASCII letters, digits, `.`,
/// `_` and `-`, and none of them `.` or `..`. START, END and LEN are each `0`, or one to eight digits without a leading
/// zero.
///
/// # Errors
/// `BadScript` exactly where the text is no script; `NoMemory`.
pub fn read_script<'s>(alloc: Global, text: &'s str) -> Result<Events<'s>, ScriptStop>
    ensures ok { IfOk result (λ es. IsScript text.entry.now es) }
    // No events are read only where there are none to read, ..
    ensures none { (at : ℕ) → result ≡ Err (ScriptStop.BadScript at) → (es : List EventData)
        → IsScript text.entry.now es → ⊥ }
    // .. and then at the stop.
    ensures stop { (at : ℕ) → result ≡ Err (ScriptStop.BadScript at)
        → IsScriptEnd text.entry.now at }
{
    let mut events = Events::new(alloc);
    let Some((version, mut rest)) = cut_header(text) else {
        return Err(ScriptStop::BadScript(0));
    };
    while !rest.is_empty() {
        let Some((event, after)) = next_event(version, rest) else {
            return Err(ScriptStop::BadScript(text.len() - rest.len()));
        };
        events.push(event)?;
        rest = after;
    }
    Ok(events)
}

/// The version whose first line the text begins with, and what is left after it; none where it begins with none.
fn cut_header(text: &str) -> Option<(Version, &str)>
    ensures { MatchOption result ((version : Version) → (rest : List ℕ)
        → text.now ≡ header version ++ rest → ⊥)
        (λ p. text.now ≡ header p.0 ++ p.1.now) }
{
    if let Some(rest) = text.strip_prefix("tokc-script 1\n") {
        return Some((Version::First, rest));
    }
    let rest = text.strip_prefix("tokc-script 2\n")?;
    Some((Version::Second, rest))
}

/// The event of this version at the start of the text, and what is left after it; none where none stands there.
fn next_event(version: Version, text: &str) -> Option<(Event<'_>, &str)>
    ensures { MatchOption result ((e : EventData) → (rest : List ℕ) → HasSpelling version e
        → text.now ≡ event_text e ++ rest → ⊥)
        (λ p. (text.now ≡ event_text (event_view p.0) ++ p.1.now)
        × HasSpelling version (event_view p.0)) }
{
    let (line, behind) = cut_at_first(text, '\n')?;
    event_of_line(version, line, behind)
}
