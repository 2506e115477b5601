//! The form of what stands in front of `e820_entries`, and the address of ACPI's root pointer.
ghost use Rattle.std.specs.Prelude.{◌≡◌, ◌<◌, length};
ghost use Rattle.bl_params.specs.BootParamsForm as form;
ghost use Rattle.bl_params.specs.Reading as reading;
ghost use Rattle.bl_params.specs.SizesAndOffsets.{params_size, e820_entries_at};

use crate::efi_fields::{EFI_INFO, EFI_INFO_END};
use crate::efi_reader::breaks_efi_info;
use crate::fields::{ACPI_RSDP_ADDR, ACPI_RSDP_ADDR_END};
use crate::little_endian_slice::u64_in;
use crate::screen_fields::SCREEN_INFO_SIZE;
use crate::screen_reader::breaks_screen_info;

/// Whether what stands at an offset breaks the form.
#[tactic(auto, unfolding(crate::specs::BootParamsForm::breaks_front))]
pub fn breaks_front(bytes: &[u8], at: usize) -> bool
    requires whole { length bytes.now ≡ params_size }
    requires within { at < e820_entries_at }
    ensures { result ≡ form.breaks_front bytes.now at }
{
    if at < SCREEN_INFO_SIZE {
        return breaks_screen_info(bytes, at);
    }
    if ACPI_RSDP_ADDR <= at && at < ACPI_RSDP_ADDR_END {
        return false;
    }
    if EFI_INFO <= at && at < EFI_INFO_END {
        return breaks_efi_info(bytes, at);
    }
    bytes[at] != 0
}

/// The address of ACPI's root pointer, if it is told.
#[tactic(auto, unfolding(crate::specs::Reading::rsdp_of))]
pub fn rsdp_of(bytes: &[u8]) -> Option<u64>
    requires { length bytes.now ≡ params_size }
    ensures { result ≡ reading.rsdp_of bytes.now }
{
    let address = u64_in(bytes, ACPI_RSDP_ADDR);
    if address == 0 {
        return None;
    }
    Some(address)
}
