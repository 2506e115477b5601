//! What C is told of what firmware tells a kernel. A word that is reserved is 0.
use crate::firmware_records::ScreenRecord;
use crate::seen_records::ByteRange;

/// UEFI, as a kernel is told of it: the address of its system table, 0 if it is not told; where its
/// memory map lies and how long it is, how many bits it has, a descriptor's size and version, the
/// state of secure boot. A Multiboot2 kernel has a copy of the map in place of its address: its
/// range of the text.
#[repr(C)]
#[derive(Clone, Copy)]
pub struct SeenEfiRecord {
    pub system_table: u64,
    pub map_address: u64,
    pub map_length: u64,
    pub bits: u32,
    pub descriptor_size: u32,
    pub descriptor_version: u32,
    pub secure_boot: u32,
    pub map: ByteRange,
}

/// The tables of SMBIOS as a range of the text, and their version.
#[repr(C)]
#[derive(Clone, Copy)]
pub struct SeenSmbiosRecord {
    pub tables: ByteRange,
    pub major: u8,
    pub minor: u8,
    pub reserved16: u16,
    pub reserved32: u32,
}

/// What firmware tells: a screen, with address 0 for none, the address of ACPI's root pointer, 0
/// for none, UEFI, SMBIOS.
#[repr(C)]
#[derive(Clone, Copy)]
pub struct SeenFirmwareRecord {
    pub screen: ScreenRecord,
    pub rsdp: u64,
    pub efi: SeenEfiRecord,
    pub smbios: SeenSmbiosRecord,
    pub reserved: [u64; 4],
}
