//! Hints on numbers of a machine that were written without `0x`, line by line.

use crate::say;
use bl_map::{FRAME_SIZE, MAX_SIZE, MIN_SIZE};
use std::alloc::{AllocError, Allocator};
use std::ops::Range;

/// The number that the decimal digits of a number write as hexadecimal ones, below 2^64.
fn digits_as_hex<A: Allocator>(alloc: A, n: u64) -> Result<Option<u64>, AllocError> {
    let digits = format!(in alloc; "{n}")?;
    Ok(u64::from_str_radix(digits.as_str(), 16).ok())
}

fn is_size(n: u64) -> bool {
    MIN_SIZE <= n && n <= MAX_SIZE && n % FRAME_SIZE == 0
}

fn is_unaligned(n: u64) -> bool {
    n % FRAME_SIZE != 0
}

fn is_pool_bound(size: u64, n: u64) -> bool {
    !is_unaligned(n) && n <= size
}

/// Appends the hint on a size that is a bad one, if there is one.
pub fn say_size_hint<A: Allocator + Copy>(
    out: &mut Vec<u8, A>,
    size: u64,
) -> Result<(), AllocError> {
    match digits_as_hex(*out.allocator(), size)? {
        Some(reading) if is_size(reading) => say!(out, "hint: is 0x{size} meant?\n"),
        _ => Ok(()),
    }
}

/// Appends the hint on one of the two numbers of a pool, if there is one.
fn say_pool_bound_hint<A: Allocator + Copy>(
    out: &mut Vec<u8, A>,
    size: u64,
    n: u64,
) -> Result<(), AllocError> {
    if !is_unaligned(n) {
        return Ok(());
    }
    match digits_as_hex(*out.allocator(), n)? {
        Some(reading) if is_pool_bound(size, reading) => say!(out, "hint: is 0x{n} meant?\n"),
        _ => Ok(()),
    }
}

/// Appends the hints on a pool in a machine of this size.
pub fn say_pool_hints<A: Allocator + Copy>(
    out: &mut Vec<u8, A>,
    size: u64,
    pool: &Range<u64>,
) -> Result<(), AllocError> {
    say_pool_bound_hint(out, size, pool.start)?;
    say_pool_bound_hint(out, size, pool.end)
}
