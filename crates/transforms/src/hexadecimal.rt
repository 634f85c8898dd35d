//! Numbers in hexadecimal digits.

ghost use Rattle.std.specs.Prelude.{◌≡◌, ◌++◌, ◌∷◌, [], ◌<◌, ◌/◌, ◌%◌, OnOk, OnErr};
ghost use Rattle.std.specs.Char.{digit_char, to_ascii_uppercase};
ghost use Rattle.transforms.specs.Hexadecimal.{hex_number, hex_color};

use tk_io::{Bytes, NoMemory};

/// The last digit of `n` over `unit`, in lower case.
fn digit(n: u32, unit: u32) -> u8
    requires { 0 < unit }
    ensures { result ≡ digit_char (n / unit % 16) }
{
    let d = (n / unit % 16) as u8;
    if d < 10 { b'0' + d } else { b'a' - 10 + d }
}

fn upper_digit(d: u8) -> u8
    requires { d < 16 }
    ensures { result ≡ to_ascii_uppercase (digit_char d) }
{
    if d < 10 { b'0' + d } else { b'A' - 10 + d }
}

/// Appends `u` and the number in lower-case hexadecimal, with four digits or as many more as it has. Where memory runs out
/// nothing is appended.
pub(crate) fn append_number(n: u32, out: &mut Bytes) -> Result<(), NoMemory>
    ensures ok { OnOk result (out.new ≡ out.old ++ 117 ∷ hex_number n) }
    ensures err { OnErr result (out.new ≡ out.old) }
{
    let last = [
        digit(n, 0x1000),
        digit(n, 0x100),
        digit(n, 0x10),
        digit(n, 1),
    ];
    if n < 0x1_0000 {
        return out.append(&[b'u', last[0], last[1], last[2], last[3]]);
    }
    let fifth = digit(n, 0x1_0000);
    if n < 0x10_0000 {
        return out.append(&[b'u', fifth, last[0], last[1], last[2], last[3]]);
    }
    out.append(&[
        b'u',
        digit(n, 0x10_0000),
        fifth,
        last[0],
        last[1],
        last[2],
        last[3],
    ])
}

/// The color as `#AARRGGBB`, with upper-case digits.
pub fn hex8(alpha: u8, red: u8, green: u8, blue: u8) -> [u8; 9]
    ensures { result ≡ hex_color (alpha ∷ red ∷ green ∷ blue ∷ []) }
{
    [
        b'#',
        upper_digit(alpha / 16),
        upper_digit(alpha % 16),
        upper_digit(red / 16),
        upper_digit(red % 16),
        upper_digit(green / 16),
        upper_digit(green % 16),
        upper_digit(blue / 16),
        upper_digit(blue % 16),
    ]
}
