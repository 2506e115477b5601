//! What a description says of what firmware tells.
ghost use Rattle.std.specs.Prelude.{◌≡◌, codes};
ghost use Rattle.toml.specs.View.{table_view};
ghost use Rattle.program_desc.specs.BadKeys.{IsBadKey};
ghost use Rattle.program_desc.specs.DescribedFirmware as spec;
ghost use Rattle.program_desc.specs.TableFaults.{ReadsAs};
ghost use Rattle.program_desc.specs.TomlValues as values;
ghost use Rattle.program_desc.specs.internal.FirmwareReading.{IsFirmwareBad};

mod avoided;
mod efi;
mod screen;
mod smbios;

use crate::bad_key::TablePlace;
use crate::firmware::efi::efi_if;
use crate::firmware::screen::screen_if;
use crate::firmware::smbios::smbios_if;
use crate::firmware_keys::RSDP;
use crate::key_set::KeySet;
use crate::key_table::FIRMWARE;
use crate::keys::{check_keys, number_if, table_if};
use crate::table_fault::TableFault;
pub use avoided::avoided_at;
use bl_map::OwnedFirmware;
use std::alloc::Allocator;
use std::ops::Range;
use toml::Table;

/// What firmware tells, from its own table; these ranges are avoided.
#[tactic(auto, unfolding(crate::specs::DescribedFirmware::described_firmware))]
fn described_firmware<'a, A: Allocator + Copy>(
    alloc: A,
    table: &'a Table,
    avoided: Vec<Range<u64>, A>,
) -> Result<OwnedFirmware<A>, TableFault<'a>>
    ensures { ReadsAs (λ f. f) (IsFirmwareBad (table_view table.now)) result
        (spec.described_firmware avoided.items (table_view table.now)) }
{
    check_keys(table, TablePlace::Firmware, KeySet::Firmware)?;
    let rsdp = number_if(table, TablePlace::Firmware, &RSDP)?;
    let screen = screen_if(table)?;
    let efi = efi_if(alloc, table)?;
    let smbios = smbios_if(alloc, table)?;
    Ok(OwnedFirmware {
        screen,
        rsdp,
        efi,
        smbios,
        avoided,
    })
}

/// What firmware tells beside these ranges, nothing where the description has no such table.
pub fn firmware_at<'a, A: Allocator + Copy>(
    alloc: A,
    table: &'a Table,
    avoided: Vec<Range<u64>, A>,
) -> Result<OwnedFirmware<A>, TableFault<'a>>
    ensures { ReadsAs (λ f. f) (IsBadKey (table_view table.now)) result
        (values.at_key_or (spec.only_avoided avoided.items)
        (values.in_table (spec.described_firmware avoided.items)) (codes "firmware")
        (table_view table.now)) }
{
    match table_if(table, TablePlace::Description, &FIRMWARE)? {
        Some(inner) => described_firmware(alloc, inner, avoided),
        None => Ok(OwnedFirmware {
            screen: None,
            rsdp: None,
            efi: None,
            smbios: None,
            avoided,
        }),
    }
}
