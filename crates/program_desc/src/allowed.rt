//! What stands at a key, if it is as it must be.

/// What a key of a description may hold.
#[derive(Clone, Copy)]
pub enum Allowed {
    /// A number of 0 or more.
    Number,
    /// A number from 0 to 255.
    Byte,
    /// A number from 0 to 4294967295.
    Word,
    /// The index of an entry, of which there are so many.
    IndexBelow(u64),
    /// An array of two; each must be a number.
    TwoNumbers,
    /// An array; each item must be an index.
    Indices,
    /// A table.
    OneTable,
    /// An array; each item must be a table.
    Tables,
    /// An array of 1 to 32; each item must be a table.
    EntryTables,
    /// An array of at most 64; each item must be a table.
    ModuleTables,
    /// A text.
    AnyText,
    /// A text of 1 to 64 printable characters of ASCII.
    Title,
    /// The name of a kind of memory.
    KindName,
    /// The name of a protocol.
    ProtocolName,
    /// How many bits UEFI's addresses have: 32 or 64.
    EfiBits,
    /// The state of secure boot, 0 to 3.
    SecureBoot,
    /// A colour: an array of two numbers from 0 to 255, its position and its size in bits.
    Color,
    /// A text of hexadecimal digits, an even number of them.
    HexText,
    /// The same, for 1 to 256 bytes.
    CopyText,
}
