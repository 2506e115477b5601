//! What C tells of firmware, as plain records. What is 0 of the first field of a record is not
//! told, and the record's other fields are not looked at then; reserved words never are.

/// Where a colour's bits lie in a pixel, and how many they are.
#[repr(C)]
#[derive(Clone, Copy)]
pub struct ColorRecord {
    pub position: u8,
    pub size: u8,
}

/// A screen: the address of its memory, bytes of a line, pixels of a line, lines, bits of a pixel,
/// its colours.
#[repr(C)]
#[derive(Clone, Copy)]
pub struct ScreenRecord {
    pub base: u64,
    pub pitch: u32,
    pub width: u32,
    pub height: u32,
    pub depth: u8,
    pub reserved8: u8,
    pub red: ColorRecord,
    pub green: ColorRecord,
    pub blue: ColorRecord,
    pub reserved: u32,
}

/// UEFI: the address of its system table, its memory map and where that lies, how many bits it has,
/// 32 or 64, a descriptor's size and version, the number of the state of secure boot, 0 to 3.
#[repr(C)]
#[derive(Clone, Copy)]
pub struct EfiRecord<'a> {
    pub system_table: u64,
    pub map: &'a [u8],
    pub map_address: u64,
    pub bits: u32,
    pub descriptor_size: u32,
    pub descriptor_version: u32,
    pub secure_boot: u32,
}

/// The tables of SMBIOS, without bytes none, and their version.
#[repr(C)]
#[derive(Clone, Copy)]
pub struct SmbiosRecord<'a> {
    pub tables: &'a [u8],
    pub major: u8,
    pub minor: u8,
    pub reserved16: u16,
    pub reserved: u32,
}

/// A range of addresses in which nothing is placed.
#[repr(C)]
#[derive(Clone, Copy)]
pub struct AvoidedRecord {
    pub base: u64,
    pub length: u64,
}

/// What firmware tells: the screen, the address of ACPI's root pointer, UEFI, SMBIOS, the ranges
/// that are avoided.
#[repr(C)]
#[derive(Clone, Copy)]
pub struct FirmwareRecord<'a> {
    pub screen: ScreenRecord,
    pub rsdp: u64,
    pub efi: EfiRecord<'a>,
    pub smbios: SmbiosRecord<'a>,
    pub avoided: &'a [AvoidedRecord],
    pub reserved: [u64; 6],
}
