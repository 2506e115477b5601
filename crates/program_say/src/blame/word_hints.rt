//! Hints on a word of a description that is misspelt, line by line.

use crate::blame::edit_distance::is_one_edit_away;
use crate::say;
use program_desc::{Allowed, Key, KeyFault, keys_of};
use std::alloc::{AllocError, Allocator};
use toml::Value;

/// Appends the hint on the first of these words that is near to what is held, if one is.
fn say_near<A: Allocator + Copy>(
    out: &mut Vec<u8, A>,
    words: &[&str],
    held: &str,
) -> Result<(), AllocError> {
    match words {
        [] => Ok(()),
        [word, rest @ ..] => {
            if is_one_edit_away(held.as_bytes(), word.as_bytes()) {
                return say!(out, "hint: is {} meant?\n", *word);
            }
            say_near(out, rest, held)
        }
    }
}

/// Appends the hint on the first of these keys that is near to what is held, if one is.
fn say_near_key<A: Allocator + Copy>(
    out: &mut Vec<u8, A>,
    keys: &[Key],
    held: &str,
) -> Result<(), AllocError> {
    match keys {
        [] => Ok(()),
        [key, rest @ ..] => {
            if is_one_edit_away(held.as_bytes(), key.name.as_bytes()) {
                return say!(out, "hint: is {} meant?\n", key.name);
            }
            say_near_key(out, rest, held)
        }
    }
}

/// Appends the hint on a text that is not allowed, if there is one.
fn say_text_hint<A: Allocator + Copy>(
    out: &mut Vec<u8, A>,
    text: &str,
    allowed: Allowed,
) -> Result<(), AllocError> {
    match allowed {
        Allowed::KindName => { say_near(out, &["usable", "reserved", "acpi", "nvs", "bad"], text) }
        Allowed::ProtocolName => say_near(out, &["multiboot2", "linux", "linux64"], text),
        _ => Ok(()),
    }
}

/// Appends the hint on a value that is not allowed, if there is one.
fn say_value_hint<A: Allocator + Copy>(
    out: &mut Vec<u8, A>,
    value: &Value,
    allowed: Allowed,
) -> Result<(), AllocError> {
    match value.as_str() {
        Some(text) => say_text_hint(out, text, allowed),
        None => Ok(()),
    }
}

/// Appends the hint on a bad key, if there is one.
pub fn say_key_hint<A: Allocator + Copy>(
    out: &mut Vec<u8, A>,
    fault: &KeyFault<'_>,
) -> Result<(), AllocError> {
    match *fault {
        KeyFault::Unknown(key, known) => say_near_key(out, keys_of(known), key),
        KeyFault::BadValue(_, value, allowed) => say_value_hint(out, value, allowed),
        _ => Ok(()),
    }
}
