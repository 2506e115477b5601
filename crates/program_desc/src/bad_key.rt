//! What is wrong with a key of a description.
use crate::allowed::Allowed;
use crate::key_set::KeySet;
use toml::Value;

/// A table of a description. Indices count from 0.
#[derive(Clone, Copy)]
pub enum TablePlace {
    /// The whole.
    Description,
    /// The region of this index.
    Region(usize),
    /// What firmware tells.
    Firmware,
    /// The screen of it.
    Screen,
    /// What it tells of UEFI.
    Efi,
    /// What it tells of SMBIOS.
    Smbios,
    /// The range of this index in which nothing is placed.
    Avoided(usize),
    /// The file of this index.
    File(usize),
    /// The entry of this index.
    Entry(usize),
    /// The module of an entry: the entry's index, and its own.
    Module(usize, usize),
}

/// What is wrong with a table of a description, or with one of its keys.
#[derive(Clone, Copy)]
pub enum KeyFault<'a> {
    /// It is no table but this value.
    NoTable(&'a Value),
    /// It has this key, which is none of these.
    Unknown(&'a str, KeySet),
    /// It lacks this key, which must hold a value that is allowed.
    Missing(&'a str, Allowed),
    /// This key holds this value, which is not allowed.
    BadValue(&'a str, &'a Value, Allowed),
    /// The array at this key holds at this index this value, which is not allowed.
    BadItem(&'a str, usize, &'a Value, Allowed),
    /// The name of a file, which another file has too.
    SameName(&'a Value),
}

/// A key of a description that is not as it must be: in which table, and what is wrong with it.
#[derive(Clone, Copy)]
pub struct BadKey<'a> {
    pub table: TablePlace,
    pub fault: KeyFault<'a>,
}
