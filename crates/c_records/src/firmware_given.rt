//! What firmware tells, as the libraries take it.
ghost use Rattle.std.specs.Prelude.{◌≡◌, IfOk, map};
ghost use Rattle.c_records.specs.FirmwareGiven as spec;

use crate::firmware_records::{
    AvoidedRecord, ColorRecord, EfiRecord, FirmwareRecord, ScreenRecord, SmbiosRecord,
};
use bl_map::{ColorField, Efi, EfiBits, Firmware, Screen, SecureBoot, Smbios};
use std::alloc::{AllocError, Allocator};
use std::ops::Range;

fn color_of(color: ColorRecord) -> ColorField
    ensures { result ≡ spec.color_given color }
{
    ColorField {
        position: color.position,
        size: color.size,
    }
}

/// The screen, if one is told.
fn screen_of(screen: &ScreenRecord) -> Option<Screen>
    ensures { result ≡ spec.screen_given screen.now }
{
    if screen.base == 0 {
        return None;
    }
    Some(Screen {
        base: screen.base,
        pitch: screen.pitch,
        width: screen.width,
        height: screen.height,
        depth: screen.depth,
        red: color_of(screen.red),
        green: color_of(screen.green),
        blue: color_of(screen.blue),
    })
}

/// The address of ACPI's root pointer, if it is told.
fn rsdp_of(rsdp: u64) -> Option<u64>
    ensures { result ≡ spec.rsdp_given rsdp }
{
    if rsdp == 0 {
        return None;
    }
    Some(rsdp)
}

/// UEFI, if it is told, with this memory map.
fn efi_of<'a>(efi: &EfiRecord<'a>, efi_map: &'a [u8]) -> Option<Efi<'a>>
    requires { efi_map.now ≡ efi.now.map.now }
    ensures { result ≡ spec.efi_given efi.now }
{
    if efi.system_table == 0 {
        return None;
    }
    Some(Efi {
        bits: EfiBits::from_number(efi.bits).unwrap_or(EfiBits::Efi64),
        system_table: efi.system_table,
        map_address: efi.map_address,
        map: efi_map,
        descriptor_size: efi.descriptor_size,
        descriptor_version: efi.descriptor_version,
        secure_boot: SecureBoot::from_number(efi.secure_boot).unwrap_or(SecureBoot::Unset),
    })
}

/// SMBIOS, if it is told, with these tables.
fn smbios_of<'a>(smbios: &SmbiosRecord<'a>, tables: &'a [u8]) -> Option<Smbios<'a>>
    requires { tables.now ≡ smbios.now.tables.now }
    ensures { result ≡ spec.smbios_given smbios.now }
{
    if tables.is_empty() {
        return None;
    }
    Some(Smbios {
        major: smbios.major,
        minor: smbios.minor,
        tables,
    })
}

/// A range of addresses.
fn range_of(range: &AvoidedRecord) -> Range<u64>
    ensures { result ≡ spec.range_given range.now }
{
    range.base..range.base.saturating_add(range.length)
}

/// The ranges that are avoided.
pub(crate) fn ranges_of<A: Allocator>(
    alloc: A,
    ranges: &[AvoidedRecord],
) -> Result<Vec<Range<u64>, A>, AllocError>
    ensures { IfOk result (λ made. made.items ≡ map spec.range_given ranges.now) }
{
    ranges.iter().map(range_of).collect(alloc)
}

/// What firmware tells, with these ranges that are avoided.
pub(crate) fn firmware_of<'a>(
    firmware: &FirmwareRecord<'a>,
    avoided: &'a [Range<u64>],
) -> Firmware<'a>
    requires { avoided.now ≡ map spec.range_given firmware.now.avoided.now }
    ensures { result ≡ spec.firmware_given firmware.now }
{
    Firmware {
        screen: screen_of(&firmware.screen),
        rsdp: rsdp_of(firmware.rsdp),
        efi: efi_of(&firmware.efi, firmware.efi.map),
        smbios: smbios_of(&firmware.smbios, firmware.smbios.tables),
        avoided,
    }
}
