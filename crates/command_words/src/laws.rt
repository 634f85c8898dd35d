//! Laws of the definitions: functions that do nothing and are called for what they ensure.

ghost use Rattle.std.specs.Prelude.{◌≡◌, ℕ, List, Some};
ghost use Rattle.command_words.specs.Words.{IsCommand, command_of};
ghost use Rattle.command_words.specs.declared.command.Command.{Command as CommandData};

/// The arguments of a command are those that spell it and no others, so a list of arguments is one
/// command at most.
pub fn words_of_commands()
    ensures read { (words : List (List ℕ)) (c : CommandData) → command_of words ≡ Some c
        → IsCommand words c }
    ensures all { (words : List (List ℕ)) (c : CommandData) → IsCommand words c
        → command_of words ≡ Some c }
{}
