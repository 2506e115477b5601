//! What numbers firmware may tell. Lengths and sizes are in bytes.
ghost use Rattle.std.specs.Prelude.{◌≡◌};
ghost use Rattle.bl_map.specs.FirmwareLimits as limits;

use crate::firmware::efi::EfiBits;
use crate::limits::MAX_REGION_END;

/// The length of ACPI's root pointer (ACPI Specification 5.2.5.3, RSDP Structure).
pub const RSDP_LENGTH: u64 = 36;

/// The length of UEFI's system table with 64 bits (UEFI Specification 4.3, EFI_SYSTEM_TABLE).
const SYSTEM_TABLE_LENGTH: u64 = 120;

/// The most bytes of a memory map of UEFI.
pub const MAX_EFI_MAP: u64 = 0x1_0000;

/// The most bytes of the tables of SMBIOS.
pub const MAX_SMBIOS: u64 = 0x1_0000;

/// The most ranges that are avoided.
pub const MAX_AVOIDED: usize = 128;

const FOUR_GIB: u64 = 0x1_0000_0000;

/// Whether UEFI's system table may lie at this address: not 0, and below 4 GiB if UEFI has 32 bits.
pub fn is_system_table(bits: EfiBits, a: u64) -> bool
    ensures { result ≡ limits.is_system_table bits a }
{
    match bits {
        EfiBits::Efi32 => 1 <= a && a < FOUR_GIB,
        EfiBits::Efi64 => 1 <= a,
    }
}

/// Whether the system table of a machine's UEFI, at this address, ends at 2^52 at most.
pub(crate) fn is_low_table(a: u64) -> bool
    ensures { result ≡ limits.is_low_table a }
{
    a.saturating_add(SYSTEM_TABLE_LENGTH) <= MAX_REGION_END
}

/// Whether descriptors of a memory map of UEFI may have this size and version: at least 40 bytes, a
/// multiple of 8; version 1 (UEFI Specification 7.2).
pub fn are_descriptors(size: u32, version: u32) -> bool
    ensures { result ≡ limits.are_descriptors size version }
{
    40 <= size && size % 8 == 0 && version == 1
}

/// Whether a memory map of UEFI may have so many bytes: whole descriptors, at least one, and at
/// most 64 KiB.
pub fn is_efi_map_size(descriptor_size: u32, size: u64) -> bool
    ensures { result ≡ limits.is_efi_map_size descriptor_size size }
{
    let descriptor = u64::from(descriptor_size);
    1 <= descriptor && descriptor <= size && size % descriptor == 0 && size <= MAX_EFI_MAP
}

/// Whether a memory map of so many bytes may lie at this address: a multiple of 8, not 0, its end
/// at 4 GiB at most.
pub fn is_efi_map_place(a: u64, size: u64) -> bool
    ensures { result ≡ limits.is_efi_map_place a size }
{
    1 <= a && a % 8 == 0 && a.saturating_add(size) <= FOUR_GIB
}

/// Whether tables of SMBIOS may have so many bytes: 1 byte to 64 KiB.
pub fn is_smbios_size(size: u64) -> bool
    ensures { result ≡ limits.is_smbios_size size }
{
    1 <= size && size <= MAX_SMBIOS
}
