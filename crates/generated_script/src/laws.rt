//! Laws of the definitions: functions that do nothing and are called for what they ensure.

ghost use Rattle.std.specs.Prelude.{◌≡◌, ◌≤◌, ℕ};
ghost use Rattle.edit_script.specs.Files.{EveryFits, commit_count};
ghost use Rattle.edit_script.specs.Script.{IsScript};
ghost use Rattle.generated_script.specs.Script.{events_of, script_of};
ghost use Rattle.generated_script.specs.declared.script.TheConstants.{MOST_TOKENS};

/// The generated text is a script, whose events are the generated ones; each of them fits, and it has twenty-one commits.
pub fn generated_events()
    ensures script { (seed size : ℕ) → size ≤ MOST_TOKENS
        → IsScript (script_of seed size) (events_of seed size) }
    ensures fits { (seed size : ℕ) → size ≤ MOST_TOKENS → EveryFits (events_of seed size) }
    ensures commits { (seed size : ℕ) → commit_count (events_of seed size) ≡ 21 }
{}
