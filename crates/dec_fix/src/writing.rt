//! The spelling of a decimal.

ghost use Rattle.std.specs.Prelude.{◌≡◌, ◌+◌, ◌/◌, ◌%◌, ◌^◌, ◌≤◌, ◌<◌, true, ℕ, List, ◌++◌, length};
ghost use Rattle.std.specs.Prelude.{OnOk, OnErr};
ghost use Rattle.std.specs.Fmt.{decimal};
ghost use Rattle.dec_fix.specs.Decimal.{IsDec, computed_limit, most_computed_places};
ghost use Rattle.dec_fix.specs.Spelling.{Spells};
ghost use Rattle.dec_fix.specs.Reading.{text_decimal};
ghost use Rattle.dec_fix.specs.Following.{number_at, ends_number};
ghost use Rattle.dec_fix.specs.declared.front.TheConstants.{ROOM};
ghost use Rattle.dec_fix.specs.Writing.{last_digits, point_and, spelling, point_spelling};

use crate::decimal::Dec;
use crate::front::Front;
use tk_io::{Bytes, NoMemory};

/// What stands before the last digit of `n`, and that digit. Most numbers are small, and the machine divides those at once.
fn without_last(n: u128) -> (u128, u8)
    ensures rest { result.0 ≡ n / 10 }
    ensures last { result.1 ≡ n % 10 }
{
    if n <= u64::MAX as u128 {
        let small = n as u64;
        return ((small / 10) as u128, (small % 10) as u8);
    }
    (n / 10, (n % 10) as u8)
}

/// Puts the last `k` digits of `n` before the rest, and gives what stands before them.
fn put_last(text: &mut Front, n: u128, k: u8) -> u128
    requires room { length text.old + k ≤ ROOM }
    ensures text { text.new ≡ last_digits k n ++ text.old }
    ensures length { length text.new ≡ length text.old + k }
    ensures rest { result ≡ n / 10 ^ k }
{
    let mut left = n;
    for _ in 0..k {
        let (rest, digit) = without_last(left);
        text.put(b'0' + digit);
        left = rest;
    }
    left
}

/// Puts the digits of `n` before the rest.
fn put_whole(text: &mut Front, n: u128)
    requires room { length text.old ≤ 40 }
    requires small { n < 10 ^ 40 }
    ensures text { text.new ≡ decimal n ++ text.old }
    ensures length { length text.new ≤ length text.old + 40 }
{
    let mut left = n;
    while left >= 10 {
        let (rest, digit) = without_last(left);
        text.put(b'0' + digit);
        left = rest;
    }
    text.put(b'0' + left as u8);
}

/// Puts `n / 10^places` before the rest.
fn put_size(text: &mut Front, n: u128, places: u8)
    requires room { length text.old ≤ 3 }
    requires small { n < computed_limit }
    requires places { places ≤ most_computed_places }
    ensures text { text.new ≡ decimal (n / 10 ^ places) ++ (point_and n places ++ text.old) }
    ensures length { length text.new < ROOM }
{
    if places == 0 {
        put_whole(text, n);
    } else {
        let whole = put_last(text, n, places);
        text.put(b'.');
        put_whole(text, whole);
    }
}

impl Dec {
    /// Puts the number before the rest.
    fn put(&self, text: &mut Front)
        requires { length text.old ≤ 3 }
        ensures text { text.new ≡ spelling self.now ++ text.old }
        ensures is { IsDec self.now }
    {
        let (c, s) = self.parts();
        put_size(text, c.unsigned_abs(), s);
        if c < 0 {
            text.put(b'-');
        }
    }

    /// Appends the number: `-` where it is negative, the whole part, and where it has places a point and these. On
    /// `NoMemory` nothing was appended.
    pub fn write(&self, out: &mut Bytes) -> Result<(), NoMemory>
        ensures ok { OnOk result (out.new ≡ out.old ++ spelling self.now) }
        ensures err { OnErr result (out.new ≡ out.old) }
        ensures spells { Spells (spelling self.now) self.now }
        ensures decimal { text_decimal (spelling self.now) ≡ Some self.now }
        ensures read_again { (rest : List ℕ) → ends_number rest ≡ true
            → number_at (spelling self.now ++ rest) ≡ (self.now, rest) }
        ensures bounds { IsDec self.now }
    {
        let mut text = Front::new();
        self.put(&mut text);
        out.append(text.as_slice())
    }

    /// Appends the number as `write` does, and then `.0` where it has no places. On `NoMemory` nothing was appended.
    pub fn write_point(&self, out: &mut Bytes) -> Result<(), NoMemory>
        ensures ok { OnOk result (out.new ≡ out.old ++ point_spelling self.now) }
        ensures err { OnErr result (out.new ≡ out.old) }
        ensures spells { Spells (point_spelling self.now) self.now }
        ensures decimal { text_decimal (point_spelling self.now) ≡ Some self.now }
        ensures read_again { (rest : List ℕ) → ends_number rest ≡ true
            → number_at (point_spelling self.now ++ rest) ≡ (self.now, rest) }
        ensures bounds { IsDec self.now }
    {
        let mut text = Front::new();
        let (_, s) = self.parts();
        if s == 0 {
            text.put(b'0');
            text.put(b'.');
        }
        self.put(&mut text);
        out.append(text.as_slice())
    }
}
