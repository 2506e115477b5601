//! SMBIOS in a description.
ghost use Rattle.std.specs.Prelude.{◌≡◌, true, codes};
ghost use Rattle.toml.specs.View.{table_view};
ghost use Rattle.program_desc.specs.DescribedFirmware as spec;
ghost use Rattle.program_desc.specs.TableFaults.{ReadsAs};
ghost use Rattle.program_desc.specs.TomlValues as values;
ghost use Rattle.program_desc.specs.internal.FirmwareReading.{IsFirmwareBad};
ghost use Rattle.program_desc.specs.internal.TableReading as kept;
ghost use Rattle.program_desc.specs.declared.allowed.Allowed.TheVariants.{HexText};
ghost use Rattle.program_desc.specs.declared.bad_key.TablePlace.TheVariants as places;
ghost use Rattle.program_desc.specs.declared.key_set.KeySet.TheVariants as keys;

use crate::bad_key::TablePlace;
use crate::firmware_keys::{MAJOR, MINOR, SMBIOS, TABLES};
use crate::key_set::KeySet;
use crate::key_table::Key;
use crate::keys::{bad_value, byte_at, check_keys, required_at, table_if};
use crate::table_fault::TableFault;
use crate::values::toml_bytes;
use bl_map::OwnedSmbios;
use bl_mem::Bytes;
use std::alloc::Allocator;
use toml::Table;

/// The bytes at a key that must stand.
pub fn bytes_at<'a, A: Allocator>(
    alloc: A,
    table: &'a Table,
    place: TablePlace,
    key: &Key,
) -> Result<Bytes<A>, TableFault<'a>>
    requires required { key.now.required ≡ true }
    requires allowed { key.now.allowed ≡ HexText }
    ensures { ReadsAs (λ bytes. bytes)
        (kept.BreaksAt place (kept.rule_view key.now) (table_view table.now)) result
        (values.at_key values.toml_bytes key.now.name.now (table_view table.now)) }
{
    let value = required_at(table, place, key)?;
    match toml_bytes(alloc, value)? {
        Some(bytes) => Ok(bytes),
        None => Err(bad_value(place, key, value)),
    }
}

#[tactic(auto, unfolding(crate::specs::DescribedFirmware::described_smbios))]
fn described_smbios<'a, A: Allocator>(
    alloc: A,
    table: &'a Table,
) -> Result<OwnedSmbios<A>, TableFault<'a>>
    ensures { ReadsAs (λ s. s) (kept.IsFaultOf places.Smbios keys.Smbios (table_view table.now))
        result (spec.described_smbios (table_view table.now)) }
{
    let place = TablePlace::Smbios;
    check_keys(table, place, KeySet::Smbios)?;
    let major = byte_at(table, place, &MAJOR)?;
    let minor = byte_at(table, place, &MINOR)?;
    let tables = bytes_at(alloc, table, place, &TABLES)?;
    Ok(OwnedSmbios {
        major,
        minor,
        tables: tables.into_vec(),
    })
}

/// SMBIOS, from the table of what firmware tells.
pub fn smbios_if<'a, A: Allocator>(
    alloc: A,
    firmware: &'a Table,
) -> Result<Option<OwnedSmbios<A>>, TableFault<'a>>
    ensures { ReadsAs (λ s. s) (IsFirmwareBad (table_view firmware.now)) result
        (values.at_key_if (values.in_table spec.described_smbios) (codes "smbios")
        (table_view firmware.now)) }
{
    match table_if(firmware, TablePlace::Firmware, &SMBIOS)? {
        Some(table) => Ok(Some(described_smbios(alloc, table)?)),
        None => Ok(None),
    }
}
