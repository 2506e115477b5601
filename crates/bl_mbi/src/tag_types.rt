//! The types of boot information's tags, and its fixed numbers (Multiboot2 3.6 "Boot information
//! format"). Sizes are in bytes.

/// The types of tags: 3.6.5 "Boot command line".
pub(crate) const TAG_COMMAND_LINE: u32 = 1;

/// 3.6.9 "Boot loader name".
pub(crate) const TAG_BOOT_LOADER_NAME: u32 = 2;

/// 3.6.6 "Modules".
pub(crate) const TAG_MODULE: u32 = 3;

/// 3.6.3 "Basic memory information".
pub(crate) const TAG_BASIC_MEMORY: u32 = 4;

/// 3.6.8 "Memory map".
pub(crate) const TAG_MEMORY_MAP: u32 = 6;

/// 3.6, section "Framebuffer info".
pub(crate) const TAG_FRAMEBUFFER: u32 = 8;

/// 3.6, section "EFI 32-bit system table pointer".
pub(crate) const TAG_EFI32: u32 = 11;

/// 3.6, section "EFI 64-bit system table pointer".
pub(crate) const TAG_EFI64: u32 = 12;

/// 3.6, section "SMBIOS tables".
pub(crate) const TAG_SMBIOS: u32 = 13;

/// 3.6, section "ACPI old RSDP".
pub(crate) const TAG_ACPI_OLD: u32 = 14;

/// 3.6, section "ACPI new RSDP".
pub(crate) const TAG_ACPI_NEW: u32 = 15;

/// 3.6, section "EFI memory map".
pub(crate) const TAG_EFI_MAP: u32 = 17;

/// 3.6, section "Image load base physical address".
pub(crate) const TAG_LOAD_BASE: u32 = 21;

/// 3.6.2 "Basic tags structure": the tag that ends the information.
pub(crate) const TAG_END: u32 = 0;

/// The `framebuffer_type` of pixels of direct colour.
pub(crate) const DIRECT_COLOR: u8 = 1;

/// How many bytes the body of a frame buffer's tag has, with a `reserved` of 16 bits.
pub(crate) const FRAMEBUFFER_BODY: u32 = 30;

/// The `entry_size` of the memory map, 3.6.8.
pub(crate) const ENTRY_SIZE: u32 = 24;

/// The least `total_size`, 3.6.2 "Basic tags structure": that word, the reserved one, and the tag
/// that ends the information.
pub const MIN_INFO_SIZE: u32 = 16;
