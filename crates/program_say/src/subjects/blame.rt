//! Why a description is a bad one.
use bl_map::MapFault;
use program_desc::BadKey;

/// A place in a text, by its line and its column, which is a character's. Both count from 1.
#[derive(Clone, Copy)]
pub struct TextPlace {
    pub line: u64,
    pub column: u64,
}

/// Why a description is a bad one.
#[derive(Clone, Copy)]
pub enum Blame<'a> {
    /// It is not UTF-8.
    NotUtf8,

    /// It is not TOML; the reader of TOML reports this place.
    NotToml(TextPlace),

    /// This key is unknown or missing, or its value is not allowed.
    BadKey(BadKey<'a>),

    /// Its machine breaks a rule.
    BadMachine(MapFault),
}
