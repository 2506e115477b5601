//! Single values of a description.
ghost use Rattle.std.specs.Prelude.{◌≡◌, ◌<◌, ◌^◌, IfOk, IfSome};
ghost use Rattle.toml.specs.View.{view};
ghost use Rattle.program_desc.specs.TomlValues as spec;

use bl_mem::Bytes;
use std::alloc::{AllocError, Allocator};
use toml::Value;

/// The number that a value is, if it is one of 0 or more.
pub fn toml_number(value: &Value) -> Option<u64>
    ensures value { result ≡ spec.toml_number (view value.now) }
    ensures short { IfSome result (λ n. n < 2 ^ 63) }
{
    match value.as_integer() {
        Some(n) if n >= 0 => Some(n as u64),
        _ => None,
    }
}

/// The byte that a value is, if it is a number from 0 to 255.
pub fn toml_byte(value: &Value) -> Option<u8>
    ensures { result ≡ spec.toml_byte (view value.now) }
{
    match toml_number(value) {
        Some(n) if n < 256 => Some(n as u8),
        _ => None,
    }
}

/// The number of 32 bits that a value is, if it is one.
pub fn toml_word(value: &Value) -> Option<u32>
    ensures { result ≡ spec.toml_word (view value.now) }
{
    match toml_number(value) {
        Some(n) if n < 0x1_0000_0000 => Some(n as u32),
        _ => None,
    }
}

/// The index of one of `count` that a value is, if it is one.
pub fn toml_index(value: &Value, count: u32) -> Option<u32>
    ensures { result ≡ spec.toml_index count (view value.now) }
{
    match toml_number(value) {
        Some(n) if n < u64::from(count) => Some(n as u32),
        _ => None,
    }
}

/// The bytes that a value's hexadecimal text stands for, if it is one.
pub fn toml_bytes<A: Allocator>(alloc: A, value: &Value) -> Result<Option<Bytes<A>>, AllocError>
    ensures { IfOk result (λ bytes. bytes ≡ spec.toml_bytes (view value.now)) }
{
    let Some(text) = value.as_str() else {
        return Ok(None);
    };
    match hex::decode(alloc, text) {
        Ok(bytes) => Ok(Some(Bytes::from(bytes))),
        Err(hex::FromHexError::OutOfMemory) => Err(AllocError),
        Err(_) => Ok(None),
    }
}
