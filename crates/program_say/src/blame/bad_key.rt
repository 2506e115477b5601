//! A bad key of a description, in words.

use crate::blame::key_values::{say_bad_value, say_instead, say_missing};
use crate::blame::shown_names::say_name;
use crate::say;
use program_desc::{BadKey, Key, KeyFault, KeySet, TablePlace, keys_of};
use std::alloc::{AllocError, Allocator};

/// Appends a table's path; that of the whole is empty.
fn say_table<A: Allocator + Copy>(
    out: &mut Vec<u8, A>,
    table: TablePlace,
) -> Result<(), AllocError> {
    match table {
        TablePlace::Description => Ok(()),
        TablePlace::Region(i) => say!(out, "region[{i}]"),
        TablePlace::Firmware => say!(out, "firmware"),
        TablePlace::Screen => say!(out, "firmware.screen"),
        TablePlace::Efi => say!(out, "firmware.efi"),
        TablePlace::Smbios => say!(out, "firmware.smbios"),
        TablePlace::Avoided(i) => say!(out, "avoid[{i}]"),
        TablePlace::File(i) => say!(out, "file[{i}]"),
        TablePlace::Entry(i) => say!(out, "entry[{i}]"),
        TablePlace::Module(i, j) => say!(out, "entry[{i}].module[{j}]"),
    }
}

/// What joins a table's path to its key.
fn dot_words(table: TablePlace) -> &'static str {
    match table {
        TablePlace::Description => "",
        _ => ".",
    }
}

/// Appends a key's path.
fn say_path<A: Allocator + Copy>(
    out: &mut Vec<u8, A>,
    table: TablePlace,
    key: &str,
) -> Result<(), AllocError> {
    say_table(out, table)?;
    out.extend_from_slice(dot_words(table).as_bytes())?;
    say_name(out, key.as_bytes())
}

/// Appends the names of keys, one after the other.
fn say_keys<A: Allocator + Copy>(out: &mut Vec<u8, A>, keys: &[Key]) -> Result<(), AllocError> {
    match keys {
        [] => Ok(()),
        [last] => out.extend_from_slice(last.name.as_bytes()),
        [first, rest @ ..] => {
            say!(out, "{}, ", first.name)?;
            say_keys(out, rest)
        }
    }
}

/// Appends that a key may not be there, and which may.
fn say_unknown<A: Allocator + Copy>(out: &mut Vec<u8, A>, known: KeySet) -> Result<(), AllocError> {
    out.extend_from_slice(b" is no key; the keys are ")?;
    say_keys(out, keys_of(known))
}

/// Appends a bad key: its path, what it holds, what is allowed there.
pub fn say_bad_key<A: Allocator + Copy>(
    out: &mut Vec<u8, A>,
    bad: &BadKey<'_>,
) -> Result<(), AllocError> {
    let table = bad.table;
    match bad.fault {
        KeyFault::NoTable(value) => {
            say_table(out, table)?;
            say_instead(out, value, "a table")
        }
        KeyFault::Unknown(key, known) => {
            say_path(out, table, key)?;
            say_unknown(out, known)
        }
        KeyFault::Missing(key, allowed) => {
            say_path(out, table, key)?;
            say_missing(out, allowed)
        }
        KeyFault::BadValue(key, value, allowed) => {
            say_path(out, table, key)?;
            say_bad_value(out, value, allowed)
        }
        KeyFault::BadItem(key, index, value, allowed) => {
            say_path(out, table, key)?;
            say!(out, "[{index}]")?;
            say_bad_value(out, value, allowed)
        }
        KeyFault::SameName(value) => {
            say_path(out, table, "name")?;
            say_instead(out, value, "another name than that of each other file")
        }
    }
}
