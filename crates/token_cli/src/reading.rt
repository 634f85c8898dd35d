//! Reading the bytes of a script.

ghost use Rattle.std.specs.Prelude.{◌≡◌, ℕ, Err, IfOk};
ghost use Rattle.edit_script.specs.Script.{IsScript, IsScriptStop};

use edit_script::{Events, ScriptStop, read_script};
use std::alloc::Global;

/// The events of a script.
///
/// # Errors
/// `BadScript` exactly where the bytes are no script: at the first byte that is not UTF-8, and in a text at the end of its
/// longest prefix that is a script, or at 0 where none is. `NoMemory`.
pub fn read_events(alloc: Global, script: &[u8]) -> Result<Events<'_>, ScriptStop>
    ensures ok { IfOk result (λ es. IsScript script.now es) }
    ensures bad { (at : ℕ) → result ≡ Err (ScriptStop.BadScript at) → IsScriptStop script.now at }
{
    match simdutf8::compat::from_utf8(script) {
        Ok(text) => read_script(alloc, text),
        Err(error) => Err(ScriptStop::BadScript(error.valid_up_to())),
    }
}
