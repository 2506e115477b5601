//! UEFI in a description.
ghost use Rattle.std.specs.Prelude.{◌≡◌, codes};
ghost use Rattle.toml.specs.View.{view, table_view};
ghost use Rattle.bl_map.specs.declared.firmware.efi.SecureBoot.TheVariants.{Unset};
ghost use Rattle.program_desc.specs.DescribedFirmware as spec;
ghost use Rattle.program_desc.specs.KeyRules.{optional_key, required_key};
ghost use Rattle.program_desc.specs.TableFaults.{ReadsAs};
ghost use Rattle.program_desc.specs.TomlValues as values;
ghost use Rattle.program_desc.specs.internal.FirmwareReading.{IsFirmwareBad};
ghost use Rattle.program_desc.specs.internal.TableReading as kept;
ghost use Rattle.program_desc.specs.declared.allowed.Allowed.TheVariants as allowed;
ghost use Rattle.program_desc.specs.declared.bad_key.TablePlace.TheVariants as places;
ghost use Rattle.program_desc.specs.declared.key_set.KeySet.TheVariants as keys;

use crate::bad_key::TablePlace;
use crate::firmware::smbios::bytes_at;
use crate::firmware_keys::{
    BITS, DESCRIPTOR_SIZE, DESCRIPTOR_VERSION, EFI, EFI_SECURE_BOOT, MAP, MAP_ADDRESS, SYSTEM_TABLE,
};
use crate::key_set::KeySet;
use crate::keys::{at_key, bad_value, check_keys, number_at, required_at, table_if, word_at};
use crate::table_fault::TableFault;
use crate::values::toml_word;
use bl_map::{EfiBits, OwnedEfi, SecureBoot};
use std::alloc::Allocator;
use toml::{Table, Value};

fn toml_efi_bits(value: &Value) -> Option<EfiBits>
    ensures { result ≡ spec.toml_efi_bits (view value.now) }
{
    EfiBits::from_number(toml_word(value)?)
}

fn toml_secure_boot(value: &Value) -> Option<SecureBoot>
    ensures { result ≡ spec.toml_secure_boot (view value.now) }
{
    SecureBoot::from_number(toml_word(value)?)
}

/// How many bits UEFI's addresses have.
fn bits_at<'a>(table: &'a Table) -> Result<EfiBits, TableFault<'a>>
    ensures { ReadsAs (λ b. b)
        (kept.BreaksAt places.Efi (required_key (codes "bits") allowed.EfiBits)
        (table_view table.now)) result
        (values.at_key spec.toml_efi_bits (codes "bits") (table_view table.now)) }
{
    let value = required_at(table, TablePlace::Efi, &BITS)?;
    toml_efi_bits(value).ok_or(bad_value(TablePlace::Efi, &BITS, value))
}

/// The state of secure boot, which is unset where nothing is said.
fn secure_boot_at<'a>(table: &'a Table) -> Result<SecureBoot, TableFault<'a>>
    ensures { ReadsAs (λ s. s)
        (kept.BreaksAt places.Efi (optional_key (codes "secure_boot") allowed.SecureBoot)
        (table_view table.now)) result
        (values.at_key_or Unset spec.toml_secure_boot (codes "secure_boot")
        (table_view table.now)) }
{
    match at_key(table, EFI_SECURE_BOOT.name) {
        Some(value) => {
            toml_secure_boot(value).ok_or(bad_value(TablePlace::Efi, &EFI_SECURE_BOOT, value))
        }
        None => Ok(SecureBoot::Unset),
    }
}

#[tactic(auto, unfolding(crate::specs::DescribedFirmware::described_efi))]
fn described_efi<'a, A: Allocator>(
    alloc: A,
    table: &'a Table,
) -> Result<OwnedEfi<A>, TableFault<'a>>
    ensures { ReadsAs (λ e. e) (kept.IsFaultOf places.Efi keys.Efi (table_view table.now))
        result (spec.described_efi (table_view table.now)) }
{
    let place = TablePlace::Efi;
    check_keys(table, place, KeySet::Efi)?;
    let bits = bits_at(table)?;
    let system_table = number_at(table, place, &SYSTEM_TABLE)?;
    let map = bytes_at(alloc, table, place, &MAP)?;
    let map_address = number_at(table, place, &MAP_ADDRESS)?;
    let descriptor_size = word_at(table, place, &DESCRIPTOR_SIZE)?;
    let descriptor_version = word_at(table, place, &DESCRIPTOR_VERSION)?;
    let secure_boot = secure_boot_at(table)?;
    Ok(OwnedEfi {
        bits,
        system_table,
        map_address,
        map: map.into_vec(),
        descriptor_size,
        descriptor_version,
        secure_boot,
    })
}

/// UEFI, from the table of what firmware tells.
pub fn efi_if<'a, A: Allocator>(
    alloc: A,
    firmware: &'a Table,
) -> Result<Option<OwnedEfi<A>>, TableFault<'a>>
    ensures { ReadsAs (λ e. e) (IsFirmwareBad (table_view firmware.now)) result
        (values.at_key_if (values.in_table spec.described_efi) (codes "efi")
        (table_view firmware.now)) }
{
    match table_if(firmware, TablePlace::Firmware, &EFI)? {
        Some(table) => Ok(Some(described_efi(alloc, table)?)),
        None => Ok(None),
    }
}
