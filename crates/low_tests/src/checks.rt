//! What the tests assert by: one call a row, so that the text of a failure is made in one place.

use std::process::Abort;

/// Asserts that a row holds, and names it by its text where it does not.
pub fn check(rt: &impl Abort, holds: bool, row: &str) {
    assert!(rt; holds, "{row}");
}

/// Asserts that a row holds, and names it by its number where it does not.
pub fn check_at(rt: &impl Abort, holds: bool, row: usize) {
    assert!(rt; holds, "row {row}");
}
