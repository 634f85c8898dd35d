//! The scans as loops over single bytes, to be measured beside those of `lane_scan`.

pub(crate) fn first_special(bytes: &[u8]) -> usize {
    for (i, byte) in bytes.iter().enumerate() {
        if *byte == b'"' || *byte == b'\\' || *byte < 0x20 {
            return i;
        }
    }
    bytes.len()
}

pub(crate) fn skip_blank(bytes: &[u8]) -> usize {
    for (i, byte) in bytes.iter().enumerate() {
        if *byte != b' ' && *byte != b'\t' && *byte != b'\n' && *byte != b'\r' {
            return i;
        }
    }
    bytes.len()
}

pub(crate) fn count_newlines(bytes: &[u8]) -> usize {
    let mut total = 0usize;
    for byte in bytes {
        if *byte == b'\n' {
            total = total.wrapping_add(1);
        }
    }
    total
}

pub(crate) fn last_newline(bytes: &[u8]) -> Option<usize> {
    for i in (0..bytes.len()).rev() {
        if bytes[i] == b'\n' {
            return Some(i);
        }
    }
    None
}
