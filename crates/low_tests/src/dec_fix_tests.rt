//! Decimals against answers from outside.

mod table;

use crate::checks::{check, check_at};
use dec_fix::{Dec, NotDec};
use std::alloc::{AllocError, Global};
use std::cmp::Ordering;
use tk_io::Bytes;

/// Whether the number is written as the text.
fn writes(alloc: Global, number: &Dec, text: &str) -> bool {
    let mut out = Bytes::new(alloc);
    number.write(&mut out).is_ok() && out.as_slice() == text.as_bytes()
}

/// Whether the number is written as the text, with a point.
fn writes_point(alloc: Global, number: &Dec, text: &str) -> bool {
    let mut out = Bytes::new(alloc);
    number.write_point(&mut out).is_ok() && out.as_slice() == text.as_bytes()
}

/// Whether the text is read and then written so, without a point and with one; `none` where it is refused.
fn is_written(alloc: Global, text: &str, plain: &str, pointed: &str) -> bool {
    match Dec::read(text) {
        Ok(number) => writes(alloc, &number, plain) && writes_point(alloc, &number, pointed),
        Err(NotDec) => plain == "none" && pointed == "none",
    }
}

/// Whether a line of a table holds: a text, what it is written as, and what with a point.
fn line_holds(alloc: Global, line: &str) -> bool {
    let Some((text, answers)) = line.split_once('|') else {
        return false;
    };
    let Some((plain, pointed)) = answers.split_once('|') else {
        return false;
    };
    is_written(alloc, text, plain, pointed)
}

const TABLES: &[&str] = &[
    table::PART_1,
    table::PART_2,
    table::PART_3,
    table::PART_4,
    table::PART_5,
    table::PART_6,
];

#[test]
fn table_holds(rt: HostRuntime) {
    let mut count = 0u32;
    for lines in TABLES {
        for line in lines.lines() {
            check(&rt, line_holds(rt.alloc(), line), line);
            count = count.saturating_add(1);
        }
    }
    assert!(rt; count == 345);
}

/// A number, and it times 16, 100 and 1000, and by 1000.
const PRODUCTS: &[(&str, &str, &str, &str, &str)] = &[
    ("1.5", "24", "150", "1500", "0.0015"),
    ("0.0625", "1", "6.25", "62.5", "0.0000625"),
    ("-200", "-3200", "-20000", "-200000", "-0.2"),
    ("0", "0", "0", "0", "0"),
    (
        "1e-30",
        "0.000000000000000000000000000016",
        "0.0000000000000000000000000001",
        "0.000000000000000000000000001",
        "0.000000000000000000000000000000001",
    ),
    (
        "999999999999999999999999999999",
        "15999999999999999999999999999984",
        "99999999999999999999999999999900",
        "999999999999999999999999999999000",
        "999999999999999999999999999.999",
    ),
];

fn product_holds(alloc: Global, text: &str, times_16: &str, times_100: &str) -> bool {
    match Dec::read(text) {
        Ok(number) => {
            writes(alloc, &number.times_whole(16), times_16)
                && writes(alloc, &number.times_100(), times_100)
        }
        Err(NotDec) => false,
    }
}

fn thousands_hold(alloc: Global, text: &str, times_1000: &str, over_1000: &str) -> bool {
    match Dec::read(text) {
        Ok(number) => {
            writes(alloc, &number.times_1000(), times_1000)
                && writes(alloc, &number.over_1000(), over_1000)
        }
        Err(NotDec) => false,
    }
}

#[test]
fn products_and_quotients(rt: HostRuntime) {
    for (text, times_16, times_100, times_1000, over_1000) in PRODUCTS {
        check(
            &rt,
            product_holds(rt.alloc(), text, times_16, times_100),
            text,
        );
        check(
            &rt,
            thousands_hold(rt.alloc(), text, times_1000, over_1000),
            text,
        );
    }
}

/// The byte of a number from 0 to 1.
fn byte_of(number: &Dec) -> Option<u8> {
    if number.cmp_whole(0) == Ordering::Less {
        return None;
    }
    if number.cmp_whole(1) == Ordering::Greater {
        return None;
    }
    Some(number.to_byte())
}

/// Whether the text has this byte; none where it is no number from 0 to 1.
fn has_byte(text: &str, byte: Option<u8>) -> bool {
    match Dec::read(text) {
        Ok(number) => byte_of(&number) == byte,
        Err(NotDec) => byte.is_none(),
    }
}

const BYTES_OF: &[(&str, Option<u8>)] = &[
    ("0", Some(0)),
    ("1", Some(255)),
    ("0.5", Some(128)),
    ("0.6823529411764706", Some(0xae)),
    ("0.0019607843137254901", Some(0)),
    ("0.0019607843137254902", Some(1)),
    ("0.998039215686274509803921568627", Some(254)),
    ("0.998039215686274509803921568628", Some(255)),
    ("1.00000000000000000000000000001", None),
    ("1.000000000000000000000000000001", None),
    ("-1e-30", None),
];

const PARTS_OF: &[(u8, &str)] = &[
    (0, "0"),
    (1, "0.0039"),
    (51, "0.2"),
    (128, "0.502"),
    (255, "1"),
];

#[test]
fn bytes_and_parts(rt: HostRuntime) {
    for (text, byte) in BYTES_OF {
        check(&rt, has_byte(text, *byte), text);
    }
    for (byte, text) in PARTS_OF {
        check(&rt, writes(rt.alloc(), &Dec::from_byte(*byte), text), text);
    }
    for byte in 0..=255u8 {
        check_at(&rt, Dec::from_byte(byte).to_byte() == byte, byte as usize);
    }
}

const ORDERS: &[(&str, u16, Ordering, Option<i32>)] = &[
    ("1000.0", 1000, Ordering::Equal, Some(1000)),
    ("0.999999999999999999999999999999", 1, Ordering::Less, None),
    ("-1", 0, Ordering::Less, Some(-1)),
    ("65535.5", 65535, Ordering::Greater, None),
    ("2147483647", 65535, Ordering::Greater, Some(2147483647)),
    ("2147483648", 65535, Ordering::Greater, None),
    ("-2147483648", 65535, Ordering::Less, Some(-2147483648)),
    ("-2147483649", 65535, Ordering::Less, None),
];

fn is_ordered(text: &str, other: u16, order: Ordering, whole: Option<i32>) -> bool {
    match Dec::read(text) {
        Ok(number) => number.cmp_whole(other) == order && number.whole_i32() == whole,
        Err(NotDec) => false,
    }
}

#[test]
fn order_and_whole_numbers(rt: HostRuntime) {
    for (text, other, order, whole) in ORDERS {
        check(&rt, is_ordered(text, *other, *order, *whole), text);
    }
    assert!(rt; Dec::read("65535") == Ok(Dec::whole(65535)));
}

/// A front, a thousand times a digit, and a rear.
fn long_text(alloc: Global, front: &str, digit: char, rear: &str) -> Result<String, AllocError> {
    let mut text = String::from_str(alloc, front)?;
    for _ in 0..1000 {
        text.push(digit)?;
    }
    text.push_str(rear)?;
    Ok(text)
}

/// The parts of a long text, and what it is written as, without a point and with one.
const LONG: &[(&str, char, &str, &str, &str)] = &[
    ("1e", '9', "", "none", "none"),
    ("0e-", '9', "", "0", "0.0"),
    ("12e-", '0', "2", "0.12", "0.12"),
];

fn long_is_written(
    alloc: Global,
    front: &str,
    digit: char,
    rear: &str,
    plain: &str,
    pointed: &str,
) -> bool {
    match long_text(alloc, front, digit, rear) {
        Ok(text) => is_written(alloc, text.as_str(), plain, pointed),
        Err(_) => false,
    }
}

#[test]
fn exponents_of_any_length(rt: HostRuntime) {
    for (front, digit, rear, plain, pointed) in LONG {
        check(
            &rt,
            long_is_written(rt.alloc(), front, *digit, rear, plain, pointed),
            front,
        );
    }
}
