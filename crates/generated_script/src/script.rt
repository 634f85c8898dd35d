//! Generating a script.

ghost use Rattle.std.specs.Prelude.{◌≡◌, ◌≤◌, IfOk};
ghost use Rattle.generated_script.specs.Script.{script_of};

use crate::events::{add_edits, add_first};
use std::alloc::Global;
use tk_io::{Bytes, NoMemory};

/// The most tokens that a script is generated with.
pub const MOST_TOKENS: u32 = 4_000;

/// The script of the seed and the size, which is 1 to 4,000: puts of `resolver.json`, of `core.json` with as many tokens
/// as the size says, and of four small files that its modifiers name; a commit; and then twenty times a put of
/// `core.json` with one more literal changed, and a commit.
///
/// # Errors
/// `NoMemory`.
pub fn gen_script(alloc: Global, seed: u32, size: u32) -> Result<Bytes, NoMemory>
    requires { (1 ≤ size) × (size ≤ MOST_TOKENS) }
    ensures { IfOk result (λ script. script ≡ script_of seed size) }
{
    let seed = u64::from(seed);
    let size = u64::from(size);
    let mut script = Bytes::new(alloc);
    script.append(b"tokc-script 1\n")?;
    add_first(alloc, &mut script, seed, size)?;
    add_edits(alloc, &mut script, seed, size)?;
    Ok(script)
}
