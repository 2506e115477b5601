//! What a key of a description holds, and what is allowed there, in words.

use crate::blame::shown_names::say_name;
use crate::say;
use program_desc::Allowed;
use std::alloc::{AllocError, Allocator};
use toml::Value;

/// Appends a text, or how long it is.
fn say_text<A: Allocator + Copy>(out: &mut Vec<u8, A>, text: &str) -> Result<(), AllocError> {
    if text.len() <= 64 {
        out.extend_from_slice(b"\"")?;
        say_name(out, text.as_bytes())?;
        return out.extend_from_slice(b"\"");
    }
    let length = text.len();
    say!(out, "a text of {length} bytes")
}

fn say_array<A: Allocator + Copy>(out: &mut Vec<u8, A>, count: usize) -> Result<(), AllocError> {
    say!(out, "an array of {count}")
}

/// Appends what a value is.
fn say_held<A: Allocator + Copy>(out: &mut Vec<u8, A>, value: &Value) -> Result<(), AllocError> {
    match value {
        Value::String(text) => say_text(out, text.as_str()),
        Value::Integer(n) => say!(out, "{}", *n),
        Value::Float(_) => out.extend_from_slice(b"a float"),
        Value::Boolean(true) => out.extend_from_slice(b"true"),
        Value::Boolean(false) => out.extend_from_slice(b"false"),
        Value::Datetime(_) => out.extend_from_slice(b"a date or a time"),
        Value::Array(items) => say_array(out, items.len()),
        Value::Table(_) => out.extend_from_slice(b"a table"),
    }
}

/// What is allowed, but for how many entries there are.
fn allowed_front(allowed: Allowed) -> &'static str {
    match allowed {
        Allowed::Number => "a number of 0 or more",
        Allowed::Byte => "a number from 0 to 255",
        Allowed::Word => "a number from 0 to 4294967295",
        Allowed::IndexBelow(_) => "the index of an entry, below ",
        Allowed::TwoNumbers => "an array of two numbers",
        Allowed::Indices => "an array of numbers",
        Allowed::OneTable => "a table",
        Allowed::Tables => "an array of tables",
        Allowed::EntryTables => "an array of 1 to 32 tables",
        Allowed::ModuleTables => "an array of at most 64 tables",
        Allowed::AnyText => "a text",
        Allowed::Title => "a text of 1 to 64 printable characters of ASCII",
        Allowed::KindName => "\"usable\", \"reserved\", \"acpi\", \"nvs\" or \"bad\"",
        Allowed::ProtocolName => "\"multiboot2\", \"linux\" or \"linux64\"",
        Allowed::EfiBits => "32 or 64",
        Allowed::SecureBoot => "a number from 0 to 3",
        Allowed::Color => "an array of two numbers from 0 to 255",
        Allowed::HexText => "a text of hexadecimal digits, an even number",
        Allowed::CopyText => "a text of hexadecimal digits, for 1 to 256 bytes",
    }
}

/// Appends what is allowed.
pub fn say_allowed<A: Allocator + Copy>(
    out: &mut Vec<u8, A>,
    allowed: Allowed,
) -> Result<(), AllocError> {
    out.extend_from_slice(allowed_front(allowed).as_bytes())?;
    match allowed {
        Allowed::IndexBelow(count) => say!(out, "{count}"),
        _ => Ok(()),
    }
}

fn say_is<A: Allocator + Copy>(out: &mut Vec<u8, A>, value: &Value) -> Result<(), AllocError> {
    out.extend_from_slice(b" is ")?;
    say_held(out, value)
}

fn say_must_be<A: Allocator + Copy>(
    out: &mut Vec<u8, A>,
    allowed: Allowed,
) -> Result<(), AllocError> {
    out.extend_from_slice(b"; it must be ")?;
    say_allowed(out, allowed)
}

/// Appends that a key is missing, and what must stand there.
pub fn say_missing<A: Allocator + Copy>(
    out: &mut Vec<u8, A>,
    allowed: Allowed,
) -> Result<(), AllocError> {
    out.extend_from_slice(b" is missing; it must be ")?;
    say_allowed(out, allowed)
}

/// Appends what a value is, and what must stand in its place.
pub fn say_instead<A: Allocator + Copy>(
    out: &mut Vec<u8, A>,
    value: &Value,
    allowed: &str,
) -> Result<(), AllocError> {
    say_is(out, value)?;
    say!(out, "; it must be {allowed}")
}

/// Appends what a key's value is, and what is allowed there.
pub fn say_bad_value<A: Allocator + Copy>(
    out: &mut Vec<u8, A>,
    value: &Value,
    allowed: Allowed,
) -> Result<(), AllocError> {
    say_is(out, value)?;
    say_must_be(out, allowed)
}
