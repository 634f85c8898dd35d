//! Laws of the definitions, for the crates above: functions that do nothing and are called for what they ensure.

ghost use Rattle.std.specs.Prelude.{◌≡◌, ◌++◌, ◌<◌, ℕ, List, true, Some, unsigned_abs};
ghost use Rattle.dec_fix.specs.Arithmetic.{IsFromZeroToOne, byte_of, byte_decimal};
ghost use Rattle.dec_fix.specs.Decimal.{Decimal, IsDec, IsExact, IsSameNumber, IsShort};
ghost use Rattle.dec_fix.specs.Following.{ends_number, number_at};
ghost use Rattle.dec_fix.specs.Reading.{number_of};
ghost use Rattle.dec_fix.specs.Spelling.{Spells};
ghost use Rattle.dec_fix.specs.Writing.{spelling};

/// Equal numbers with as few places as they can have are equal values.
pub fn one_value()
    ensures { (d e : Decimal) → IsShort (unsigned_abs d.c) d.s → IsShort (unsigned_abs e.c) e.s
        → IsSameNumber d e → d ≡ e }
{}

/// A text spells one number at most.
pub fn one_number()
    ensures { (text : List ℕ) (d e : Decimal) → IsShort (unsigned_abs d.c) d.s
        → IsShort (unsigned_abs e.c) e.s → Spells text d → Spells text e → d ≡ e }
{}

/// The number that is read of a text is the number within the bounds that the text spells, where there is one.
pub fn read_is_spelled()
    ensures exact { (text : List ℕ) (d : Decimal) → number_of text ≡ Some d → IsExact d }
    ensures spells { (text : List ℕ) (d : Decimal) → number_of text ≡ Some d → Spells text d }
    ensures all { (text : List ℕ) (d : Decimal) → IsExact d → Spells text d
        → number_of text ≡ Some d }
{}

/// What is written of a number is a JSON number that is read as that number again, also before
/// other bytes.
pub fn written_is_read()
    ensures spells { (d : Decimal) → IsDec d → Spells (spelling d) d }
    ensures reads { (d : Decimal) → IsExact d → number_of (spelling d) ≡ Some d }
    ensures front { (d : Decimal) (rest : List ℕ) → IsDec d → ends_number rest ≡ true
        → number_at (spelling d ++ rest) ≡ (d, rest) }
{}

/// Each byte, as a part of 255, is a number that is read, from 0 to 1; its nearest byte is that byte again.
pub fn bytes_are_parts()
    ensures exact { (b : ℕ) → b < 256 → IsExact (byte_decimal b) }
    ensures part { (b : ℕ) → b < 256 → IsFromZeroToOne (byte_decimal b) }
    ensures again { (b : ℕ) → b < 256 → byte_of (byte_decimal b) ≡ b }
{}
