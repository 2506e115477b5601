//! Names, within a line.

use crate::formatted::say_digits;
use std::alloc::{AllocError, Allocator};

/// Appends a byte of a name, a control character or a backslash by its number.
fn say_byte<A: Allocator + Copy>(out: &mut Vec<u8, A>, byte: u8) -> Result<(), AllocError> {
    if byte < 0x20 || byte == 0x7F || byte == b'\\' {
        out.extend_from_slice(b"\\x")?;
        return say_digits(out, &[byte]);
    }
    out.extend_from_slice(&[byte])
}

/// Appends a name, byte for byte.
pub fn say_name<A: Allocator + Copy>(out: &mut Vec<u8, A>, name: &[u8]) -> Result<(), AllocError> {
    for byte in name {
        say_byte(out, *byte)?;
    }
    Ok(())
}
