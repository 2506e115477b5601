//! UEFI in boot parameters, as bytes.
ghost use Rattle.std.specs.Prelude.{◌≡◌};
ghost use Rattle.bl_params.specs.EfiInfo as spec;

use crate::efi_fields::{EL32, EL64};
use crate::number_bytes::{HALF, four_bytes};
use bl_map::{EfiBits, EfiInfo};

fn signature(bits: EfiBits) -> u64
    ensures { result ≡ spec.efi_signature bits }
{
    match bits {
        EfiBits::Efi32 => EL32 as u64,
        EfiBits::Efi64 => EL64 as u64,
    }
}

/// The struct of UEFI.
fn told_efi_info(efi: &EfiInfo) -> [u8; 32]
    ensures { result ≡ spec.efi_info_bytes (Some efi.now) }
{
    let sign = four_bytes(signature(efi.bits));
    let table = four_bytes(efi.system_table % HALF);
    let each = four_bytes(efi.descriptor_size as u64);
    let version = four_bytes(efi.descriptor_version as u64);
    let map = four_bytes(efi.map_address);
    let size = four_bytes(efi.map_size);
    let table_hi = four_bytes(efi.system_table / HALF);
    let map_hi = four_bytes(efi.map_address / HALF);
    [
        // efi_loader_signature
        sign[0],
        sign[1],
        sign[2],
        sign[3],
        // efi_systab
        table[0],
        table[1],
        table[2],
        table[3],
        // efi_memdesc_size
        each[0],
        each[1],
        each[2],
        each[3],
        // efi_memdesc_version
        version[0],
        version[1],
        version[2],
        version[3],
        // efi_memmap
        map[0],
        map[1],
        map[2],
        map[3],
        // efi_memmap_size
        size[0],
        size[1],
        size[2],
        size[3],
        // efi_systab_hi
        table_hi[0],
        table_hi[1],
        table_hi[2],
        table_hi[3],
        // efi_memmap_hi
        map_hi[0],
        map_hi[1],
        map_hi[2],
        map_hi[3],
    ]
}

/// The `struct efi_info` of UEFI, or of none (asm/bootparam.h).
#[tactic(auto, unfolding(crate::specs::EfiInfo::efi_info_bytes))]
pub fn efi_info(efi: Option<EfiInfo>) -> [u8; 32]
    ensures { result ≡ spec.efi_info_bytes efi }
{
    match efi {
        None => [0; 32],
        Some(efi) => told_efi_info(&efi),
    }
}

/// `secure_boot`.
#[tactic(auto, unfolding(crate::specs::EfiInfo::secure_boot_byte))]
pub fn secure_boot(efi: Option<EfiInfo>) -> u8
    ensures { result ≡ spec.secure_boot_byte efi }
{
    match efi {
        None => 0,
        Some(efi) => efi.secure_boot.number() as u8,
    }
}
