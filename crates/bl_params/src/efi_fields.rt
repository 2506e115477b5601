//! The fields of boot parameters that tell UEFI: those of a `struct efi_info`, and `secure_boot`
//! (asm/bootparam.h). Offsets are those of boot parameters.

/// Where the struct begins.
pub const EFI_INFO: usize = 0x1C0;

/// Where it ends.
pub const EFI_INFO_END: usize = 0x1E0;

/// `efi_loader_signature`, 0 for no UEFI.
pub const EFI_LOADER_SIGNATURE: usize = 0x1C0;

/// The bytes `EL32`: UEFI with 32 bits.
pub const EL32: u32 = 0x3233_4C45;

/// The bytes `EL64`: UEFI with 64 bits.
pub const EL64: u32 = 0x3436_4C45;

/// `efi_systab`: the low half of the system table's address.
pub const EFI_SYSTAB: usize = 0x1C4;

/// `efi_memdesc_size`: bytes of a descriptor of the memory map.
pub const EFI_MEMDESC_SIZE: usize = 0x1C8;

/// `efi_memdesc_version`.
pub const EFI_MEMDESC_VERSION: usize = 0x1CC;

/// `efi_memmap`: the memory map's address, which lies below 4 GiB.
pub const EFI_MEMMAP: usize = 0x1D0;

/// `efi_memmap_size`: bytes of the memory map.
pub const EFI_MEMMAP_SIZE: usize = 0x1D4;

/// `efi_systab_hi`: the high half of the system table's address.
pub const EFI_SYSTAB_HI: usize = 0x1D8;

/// `efi_memmap_hi`: 0.
pub const EFI_MEMMAP_HI: usize = 0x1DC;

/// `secure_boot`.
pub const SECURE_BOOT: usize = 0x1EC;

/// The greatest `secure_boot` (linux/efi.h: enum efi_secureboot_mode).
pub const MAX_SECURE_BOOT: u8 = 3;
