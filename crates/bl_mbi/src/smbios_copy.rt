//! What boot information tells of SMBIOS, as it was read.
use bl_mem::Bytes;
use std::alloc::Allocator;
use std::marker::Model;

/// The version of SMBIOS and a copy of its tables, 1 byte to 64 KiB (Multiboot2 3.6, section
/// "SMBIOS tables").
#[derive(Drop)]
pub struct SmbiosCopy<A: Allocator> {
    pub major: u8,
    pub minor: u8,
    pub tables: Bytes<A>,
}

impl<A: Allocator> Model for SmbiosCopy<A> {
    ghost use Rattle.bl_map.specs.Firmware.{SmbiosFacts};

    ghost Value = { SmbiosFacts };

    ghost view = { λ s. record { major = s.major; minor = s.minor; tables = s.tables } };
}
