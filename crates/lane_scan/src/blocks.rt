//! One block of 32 bytes as one number: a bit for each byte, the first byte lowest.

ghost use Rattle.std.specs.Prelude.{◌≡◌, ◌+◌, ◌≤◌, ◌==◌, length, take, drop, map, cond, not};
ghost use Rattle.std.specs.Str.{bytes_eq};
ghost use Rattle.lane_scan.specs.Bytes.{is_special, is_blank, is_newline};
ghost use lib.Count.{count_trailing_zeros};
ghost use lib.Lanes.{mask_l};

use std::simd::prelude::*;

/// Bytes in a block.
pub(crate) const BLOCK: usize = 32;

/// Which of the bytes of the block at `at` are special.
pub(crate) fn special_bits(bytes: &[u8], at: usize) -> u64
    requires { at + 32 ≤ length bytes.now }
    ensures { result ≡ mask_l (map is_special (take 32 (drop at bytes.now))) }
{
    let block = u8x32::from_slice(&bytes[at..]);
    let quotes = block.simd_eq(u8x32::splat(b'"')).to_bitmask();
    let backslashes = block.simd_eq(u8x32::splat(b'\\')).to_bitmask();
    let controls = block.simd_lt(u8x32::splat(0x20)).to_bitmask();
    quotes | backslashes | controls
}

/// Which of the bytes of the block at `at` are no blanks.
pub(crate) fn other_bits(bytes: &[u8], at: usize) -> u64
    requires { at + 32 ≤ length bytes.now }
    ensures { result ≡ mask_l (map (λ x. not (is_blank x)) (take 32 (drop at bytes.now))) }
{
    let block = u8x32::from_slice(&bytes[at..]);
    let no_spaces = block.simd_ne(u8x32::splat(b' ')).to_bitmask();
    let no_tabs = block.simd_ne(u8x32::splat(b'\t')).to_bitmask();
    let no_newlines = block.simd_ne(u8x32::splat(b'\n')).to_bitmask();
    let no_returns = block.simd_ne(u8x32::splat(b'\r')).to_bitmask();
    no_spaces & no_tabs & no_newlines & no_returns
}

/// Which of the bytes of the block at `at` are newlines.
pub(crate) fn newline_bits(bytes: &[u8], at: usize) -> u64
    requires { at + 32 ≤ length bytes.now }
    ensures { result ≡ mask_l (map is_newline (take 32 (drop at bytes.now))) }
{
    let block = u8x32::from_slice(&bytes[at..]);
    block.simd_eq(u8x32::splat(b'\n')).to_bitmask()
}

/// Whether the blocks of the two runs at `at` are the same.
pub(crate) fn are_same_blocks(left: &[u8], right: &[u8], at: usize) -> bool
    requires left { at + 32 ≤ length left.now }
    requires right { at + 32 ≤ length right.now }
    ensures { result ≡ bytes_eq (take 32 (drop at left.now)) (take 32 (drop at right.now)) }
{
    let block = u8x32::from_slice(&left[at..]);
    let other = u8x32::from_slice(&right[at..]);
    block.simd_ne(other).to_bitmask() == 0
}

/// How many bytes of a block come before the first one that is marked.
pub(crate) fn before_mark(bits: u64) -> usize
    ensures { result ≡ cond (bits == 0) 32 (count_trailing_zeros 64 bits) }
{
    if bits == 0 {
        BLOCK
    } else {
        bits.trailing_zeros() as usize
    }
}
