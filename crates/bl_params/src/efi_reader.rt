//! UEFI in boot parameters: its form, and what is told.
ghost use Rattle.std.specs.Prelude.{◌≡◌, ◌<◌, length, slice_index, unwrap_or};
ghost use Rattle.bl_map.specs.declared.firmware.efi.SecureBoot.TheVariants.{Unset};
ghost use Rattle.bl_map.specs.FirmwareNumbers.{secure_boot_of};
ghost use Rattle.bl_params.specs.EfiInfo as spec;
ghost use Rattle.bl_params.specs.SizesAndOffsets.{params_size};

use crate::efi_fields::{
    EFI_INFO, EFI_LOADER_SIGNATURE, EFI_MEMDESC_SIZE, EFI_MEMDESC_VERSION, EFI_MEMMAP,
    EFI_MEMMAP_HI, EFI_MEMMAP_SIZE, EFI_SYSTAB, EFI_SYSTAB_HI, EL32, EL64, MAX_SECURE_BOOT,
    SECURE_BOOT,
};
use crate::little_endian_slice::u32_in;
use crate::number_bytes::HALF;
use bl_map::{EfiBits, EfiInfo, SecureBoot, are_descriptors, is_efi_map_size};

/// Whether the signature is one of the two; with 32 bits the system table lies below 4 GiB.
fn has_signature(bytes: &[u8]) -> bool
    requires { length bytes.now ≡ params_size }
    ensures { result ≡ spec.has_efi_signature bytes.now }
{
    let signature = u32_in(bytes, EFI_LOADER_SIGNATURE);
    let high = u32_in(bytes, EFI_SYSTAB_HI);
    (signature == EL32 && high == 0) || signature == EL64
}

/// Whether the system table has an address.
fn has_systab(bytes: &[u8]) -> bool
    requires { length bytes.now ≡ params_size }
    ensures { result ≡ spec.has_efi_systab bytes.now }
{
    let low = u32_in(bytes, EFI_SYSTAB);
    let high = u32_in(bytes, EFI_SYSTAB_HI);
    !(low == 0 && high == 0)
}

/// Whether the memory map lies at a multiple of 8.
fn has_memmap(bytes: &[u8]) -> bool
    requires { length bytes.now ≡ params_size }
    ensures { result ≡ spec.has_efi_memmap bytes.now }
{
    let at = u32_in(bytes, EFI_MEMMAP);
    1 <= at && at % 8 == 0
}

/// Whether the memory map has whole descriptors, not too many, and ends at 4 GiB at most.
fn has_memmap_size(bytes: &[u8]) -> bool
    requires { length bytes.now ≡ params_size }
    ensures { result ≡ spec.has_efi_memmap_size bytes.now }
{
    let descriptor_size = u32_in(bytes, EFI_MEMDESC_SIZE);
    let size = u32_in(bytes, EFI_MEMMAP_SIZE);
    let end = u32_in(bytes, EFI_MEMMAP) as u64 + size as u64;
    is_efi_map_size(descriptor_size, size as u64) && end <= HALF
}

/// Whether what stands at an offset breaks the limits of UEFI, which is told.
fn breaks_efi(bytes: &[u8], at: usize) -> bool
    requires { length bytes.now ≡ params_size }
    ensures { result ≡ spec.breaks_efi bytes.now at }
{
    match at {
        EFI_LOADER_SIGNATURE => !has_signature(bytes),
        EFI_MEMDESC_SIZE => !are_descriptors(u32_in(bytes, EFI_MEMDESC_SIZE), 1),
        EFI_MEMDESC_VERSION => u32_in(bytes, EFI_MEMDESC_VERSION) != 1,
        EFI_MEMMAP => !has_memmap(bytes),
        EFI_MEMMAP_SIZE => !has_memmap_size(bytes),
        EFI_SYSTAB_HI => !has_systab(bytes),
        EFI_MEMMAP_HI => u32_in(bytes, EFI_MEMMAP_HI) != 0,
        _ => false,
    }
}

/// Whether what stands at an offset of the struct breaks its form.
#[tactic(auto, unfolding(crate::specs::EfiInfo::breaks_efi_info))]
pub fn breaks_efi_info(bytes: &[u8], at: usize) -> bool
    requires whole { length bytes.now ≡ params_size }
    requires within { at < params_size }
    ensures { result ≡ spec.breaks_efi_info bytes.now at }
{
    if u32_in(bytes, EFI_LOADER_SIGNATURE) != 0 {
        return breaks_efi(bytes, at);
    }
    bytes[at] != 0
}

/// Whether `secure_boot` breaks its form.
#[tactic(auto, unfolding(crate::specs::EfiInfo::breaks_secure_boot))]
pub fn breaks_secure_boot(bytes: &[u8]) -> bool
    requires { length bytes.now ≡ params_size }
    ensures { result ≡ spec.breaks_secure_boot bytes.now }
{
    if u32_in(bytes, EFI_LOADER_SIGNATURE) != 0 {
        return bytes[SECURE_BOOT] > MAX_SECURE_BOOT;
    }
    bytes[SECURE_BOOT] != 0
}

fn secure_boot_in(bytes: &[u8]) -> SecureBoot
    requires { length bytes.now ≡ params_size }
    ensures { result ≡ unwrap_or (secure_boot_of (slice_index bytes.now 0x1EC)) Unset }
{
    SecureBoot::from_number(bytes[SECURE_BOOT] as u32).unwrap_or(SecureBoot::Unset)
}

#[tactic(auto, unfolding(crate::specs::EfiInfo::efi_in))]
fn efi_in(bytes: &[u8], bits: EfiBits) -> EfiInfo
    requires { length bytes.now ≡ params_size }
    ensures { result ≡ spec.efi_in bytes.now bits }
{
    EfiInfo {
        bits,
        system_table: u32_in(bytes, EFI_SYSTAB) as u64 + HALF * u32_in(bytes, EFI_SYSTAB_HI) as u64,
        map_address: u32_in(bytes, EFI_MEMMAP) as u64,
        map_size: u32_in(bytes, EFI_MEMMAP_SIZE) as u64,
        descriptor_size: u32_in(bytes, EFI_MEMDESC_SIZE),
        descriptor_version: u32_in(bytes, EFI_MEMDESC_VERSION),
        secure_boot: secure_boot_in(bytes),
    }
}

/// UEFI, if it is told.
#[tactic(auto, unfolding(crate::specs::EfiInfo::efi_of))]
pub fn efi_of(bytes: &[u8]) -> Option<EfiInfo>
    requires { length bytes.now ≡ params_size }
    ensures { result ≡ spec.efi_of bytes.now }
{
    let signature = u32_in(bytes, EFI_LOADER_SIGNATURE);
    if signature == EL32 {
        return Some(efi_in(bytes, EfiBits::Efi32));
    }
    if signature == EL64 {
        return Some(efi_in(bytes, EfiBits::Efi64));
    }
    None
}
