//! Numbers as the command line spells them.

ghost use Rattle.std.specs.Prelude.{◌≡◌};
ghost use Rattle.command_words.specs.Words.{decimal_within};

use itoa::Buffer;

/// The number from `low` to `high` that the text spells in decimal digits, without sign and without a leading zero but
/// for `0` itself.
pub(crate) fn decimal_within(low: u32, high: u32, text: &str) -> Option<u32>
    ensures { result ≡ decimal_within low high text.now }
{
    match text.parse::<u32>() {
        Ok(n) => {
            if n < low {
                return None;
            }
            if n > high {
                return None;
            }
            let mut buffer = Buffer::new();
            if buffer.format(n) != text {
                return None;
            }
            Some(n)
        }
        Err(_) => None,
    }
}
