//! The sets of keys, one for each kind of table.

/// The keys that a table may have.
#[derive(Clone, Copy)]
pub enum KeySet {
    Description,
    Region,
    Firmware,
    Screen,
    Efi,
    Smbios,
    Avoided,
    File,
    /// Those of an entry that has no protocol.
    Entry,
    /// Those of an entry of the protocol `multiboot2`.
    Multiboot2Entry,
    /// Those of an entry of the protocol `linux` or `linux64`.
    LinuxEntry,
    Module,
}
