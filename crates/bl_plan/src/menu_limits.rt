//! How large a menu and its texts may be, and how many parts are handed over.

/// The most entries of a menu.
pub const MAX_ENTRIES: usize = 32;

/// The most modules of an entry.
pub const MAX_MODULES: usize = 64;

/// The most bytes of a line, its zero byte not counted.
pub const MAX_LINE: usize = 4095;

/// The most parts that are handed over, and that an image lists.
pub const MAX_PARTS: usize = 256;

/// The most bytes of a copy of a root table of ACPI (an RSDP). It has at least one.
pub const MAX_RSDP_LENGTH: usize = 256;
