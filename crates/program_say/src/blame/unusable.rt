//! A byte on which no part may lie.

use crate::lines::say_address;
use bl_map::{FIRST_USABLE, Kind, USABLE_LIMIT};
use std::alloc::{AllocError, Allocator};

/// Why no part may lie on a byte of kind usable.
fn limit_words(size: u64, address: u64) -> &'static str {
    if address < FIRST_USABLE {
        return "in the first frame";
    }
    if size <= address {
        return "at or above the size";
    }
    "in the last frame below 4 GiB"
}

/// Why no part may lie on a byte of this kind.
fn unusable_words(size: u64, address: u64, kind: Option<Kind>) -> &'static str {
    match kind {
        None => "in no region",
        Some(Kind::Usable) => limit_words(size, address),
        Some(kind) => kind.name(),
    }
}

/// Appends the line of a byte that is not usable, of a machine of this size, by its kind.
pub fn say_unusable<A: Allocator + Copy>(
    out: &mut Vec<u8, A>,
    size: u64,
    address: u64,
    kind: Option<Kind>,
) -> Result<(), AllocError> {
    say_address(out, "not usable ", address, " ")?;
    out.extend_from_slice(unusable_words(size, address, kind).as_bytes())?;
    out.extend_from_slice(b"\n")
}

/// Whether a byte of kind usable is usable.
fn is_within_limits(size: u64, address: u64) -> bool {
    FIRST_USABLE <= address && address < size && address < USABLE_LIMIT
}

/// Appends the line of a byte on which no part may lie, of a machine of this size, by its kind: one
/// that is usable is avoided.
pub fn say_unplaceable<A: Allocator + Copy>(
    out: &mut Vec<u8, A>,
    size: u64,
    address: u64,
    kind: Option<Kind>,
) -> Result<(), AllocError> {
    match kind {
        Some(Kind::Usable) => {
            if is_within_limits(size, address) {
                say_address(out, "avoided ", address, "\n")
            } else {
                say_unusable(out, size, address, kind)
            }
        }
        kind => say_unusable(out, size, address, kind),
    }
}
