//! Laws of the definitions: functions that do nothing and are called for what they ensure.

ghost use Rattle.std.specs.Prelude.{◌≡◌, ℕ, List, Option, Some, length};
ghost use Rattle.edit_script.specs.Script.{EventData};
ghost use Rattle.tk_io.specs.FilesData.{FilesData};
ghost use Rattle.edit_script.specs.Delta.{Delta};
ghost use Rattle.command_words.specs.declared.command.Command.{Command};
ghost use Rattle.build_plain.specs.Work.{Work};
ghost use Rattle.token_cli.specs.Headline.{AreCommits, AreWorks};
ghost use Rattle.token_cli.specs.Outcome.{IsStatusFor};
ghost use Rattle.token_cli.specs.declared.status.Status.{Status};

use build_plain::one_build;
use rebuild_core::work_laws;

/// The events of a script decide the outputs at each of its commits, the changes between them and how much is done for
/// them, and so the whole stream and the statistics.
pub fn one_stream()
    ensures held { (es : List EventData) (held others : List FilesData)
        (deltas changes : List Delta)
        → AreCommits es held deltas → AreCommits es others changes → length held ≡ length others
        → held ≡ others }
    ensures deltas { (es : List EventData) (held others : List FilesData)
        (deltas changes : List Delta)
        → AreCommits es held deltas → AreCommits es others changes → length held ≡ length others
        → deltas ≡ changes }
    ensures works { (es : List EventData) (held others : List FilesData) (works counts : List Work)
        → AreWorks es held works → AreWorks es others counts → length held ≡ length others
        → works ≡ counts }
{
    one_build();
    work_laws();
}

/// A command and the bytes that a source has left have one status at most.
pub fn one_status()
    ensures { (command : Option Command) (script : List ℕ) (a b : Status)
        → IsStatusFor command (Some script) a → IsStatusFor command (Some script) b → a ≡ b }
{
    one_build();
}
