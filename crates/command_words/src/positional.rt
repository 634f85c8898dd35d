//! Which arguments clap is given.

ghost use Rattle.std.specs.Prelude.{◌≡◌, map, string_bytes};
ghost use Rattle.std.specs.List.{list_all};
ghost use Rattle.command_words.specs.inner.ClapWords.{is_known, is_positional, is_ready};

// Whether the argument is not empty and does not begin with a dash.
fn is_positional(word: &String) -> bool
    ensures { result ≡ is_positional (string_bytes word.now) }
{
    match word.as_bytes().first() {
        Some(first) => *first != b'-',
        None => false,
    }
}

fn are_positional(words: &[String]) -> bool
    ensures { result ≡ list_all (λ w. is_positional (string_bytes w)) words.now }
{
    words.iter().all(|word| is_positional(word))
}

// Whether a command has this name.
fn is_known(word: &str) -> bool
    ensures { result ≡ is_known word.now }
{
    word == "build" || word == "replay" || word == "stats" || word == "gen"
}

/// Whether the arguments are handed to clap: a command's name first, after it at most three more,
/// and none of these empty or begun by a dash. No other arguments are a command.
pub(crate) fn is_ready(words: &[String]) -> bool
    ensures { result ≡ is_ready (map string_bytes words.now) }
{
    match words.split_first() {
        None => false,
        Some((first, rest)) => {
            if !is_known(first.as_str()) {
                return false;
            }
            if !are_positional(rest) {
                return false;
            }
            rest.len() <= 3
        }
    }
}
