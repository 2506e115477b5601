//! What firmware tells a kernel, as records.
ghost use Rattle.std.specs.Prelude.{◌≡◌, ◌++◌, IfOk, OnOk};
ghost use Rattle.c_records.specs.SeenFirmwareTold as spec;

use crate::end_records::NO_WORDS;
use crate::firmware_records::{ColorRecord, ScreenRecord};
use crate::seen_firmware_records::{SeenEfiRecord, SeenFirmwareRecord, SeenSmbiosRecord};
use crate::seen_records::{ByteRange, MISSING};
use bl_map::{ColorField, EfiInfo, Screen};
use bl_mbi::{EfiCopy, SmbiosCopy};
use bl_walk::SeenFirmware;
use std::alloc::{AllocError, Allocator};

/// The range of what is not there.
const NO_RANGE: ByteRange = ByteRange {
    offset: MISSING,
    length: 0,
};

const NO_COLOR: ColorRecord = ColorRecord {
    position: 0,
    size: 0,
};

fn color_told(color: ColorField) -> ColorRecord
    ensures { result ≡ spec.color_told color }
{
    ColorRecord {
        position: color.position,
        size: color.size,
    }
}

fn screen_told(screen: Option<Screen>) -> ScreenRecord
    ensures { result ≡ spec.screen_told screen }
{
    let Some(screen) = screen else {
        return ScreenRecord {
            base: 0,
            pitch: 0,
            width: 0,
            height: 0,
            depth: 0,
            reserved8: 0,
            red: NO_COLOR,
            green: NO_COLOR,
            blue: NO_COLOR,
            reserved: 0,
        };
    };
    ScreenRecord {
        base: screen.base,
        pitch: screen.pitch,
        width: screen.width,
        height: screen.height,
        depth: screen.depth,
        reserved8: 0,
        red: color_told(screen.red),
        green: color_told(screen.green),
        blue: color_told(screen.blue),
        reserved: 0,
    }
}

fn efi_info_told(efi: EfiInfo) -> SeenEfiRecord
    ensures { result ≡ spec.efi_info_told efi }
{
    SeenEfiRecord {
        system_table: efi.system_table,
        map_address: efi.map_address,
        map_length: efi.map_size,
        bits: efi.bits.number(),
        descriptor_size: efi.descriptor_size,
        descriptor_version: efi.descriptor_version,
        secure_boot: efi.secure_boot.number(),
        map: NO_RANGE,
    }
}

/// UEFI whose map lies in the text from an offset on.
fn efi_tables_told<A: Allocator>(at: usize, efi: &EfiCopy<A>) -> SeenEfiRecord
    ensures { result ≡ spec.efi_tables_told at efi.now }
{
    SeenEfiRecord {
        system_table: efi.system_table,
        map_address: 0,
        map_length: efi.map.len() as u64,
        bits: efi.bits.number(),
        descriptor_size: efi.descriptor_size,
        descriptor_version: efi.descriptor_version,
        secure_boot: 0,
        map: ByteRange {
            offset: at as u64,
            length: efi.map.len() as u64,
        },
    }
}

fn efi_told<A: Allocator>(
    at: usize,
    info: Option<EfiInfo>,
    tables: &Option<EfiCopy<A>>,
) -> SeenEfiRecord
    ensures { result ≡ spec.efi_told at info tables.now }
{
    if let Some(efi) = info {
        return efi_info_told(efi);
    }
    match tables {
        Some(efi) => efi_tables_told(at, efi),
        None => SeenEfiRecord {
            system_table: 0,
            map_address: 0,
            map_length: 0,
            bits: 0,
            descriptor_size: 0,
            descriptor_version: 0,
            secure_boot: 0,
            map: NO_RANGE,
        },
    }
}

fn smbios_told<A: Allocator>(at: usize, told: &Option<SmbiosCopy<A>>) -> SeenSmbiosRecord
    ensures { result ≡ spec.smbios_told at told.now }
{
    let Some(smbios) = told else {
        return SeenSmbiosRecord {
            tables: NO_RANGE,
            major: 0,
            minor: 0,
            reserved16: 0,
            reserved32: 0,
        };
    };
    SeenSmbiosRecord {
        tables: ByteRange {
            offset: at as u64,
            length: smbios.tables.len() as u64,
        },
        major: smbios.major,
        minor: smbios.minor,
        reserved16: 0,
        reserved32: 0,
    }
}

/// Appends the copy of UEFI's memory map to the text.
fn add_map<A: Allocator>(told: &Option<EfiCopy<A>>, text: &mut Vec<u8, A>) -> Result<(), AllocError>
    ensures { OnOk result (text.new.items ≡ text.old.items ++ spec.map_seen told.now) }
{
    let Some(efi) = told else {
        return Ok(());
    };
    text.extend_from_slice(efi.map.as_slice())
}

/// Appends the tables of SMBIOS to the text.
fn add_tables<A: Allocator>(
    told: &Option<SmbiosCopy<A>>,
    text: &mut Vec<u8, A>,
) -> Result<(), AllocError>
    ensures { OnOk result (text.new.items ≡ text.old.items ++ spec.tables_seen told.now) }
{
    let Some(smbios) = told else {
        return Ok(());
    };
    text.extend_from_slice(smbios.tables.as_slice())
}

/// Appends the map and the tables to the text, and answers what is told.
pub(crate) fn add_firmware<A: Allocator>(
    firmware: &SeenFirmware<A>,
    text: &mut Vec<u8, A>,
) -> Result<SeenFirmwareRecord, AllocError>
    ensures told { IfOk result (λ told.
        told ≡ spec.firmware_told text.old.items firmware.now) }
    ensures text { OnOk result (text.new.items ≡ spec.with_tables text.old.items firmware.now) }
{
    let map_at = text.len();
    add_map(&firmware.efi_tables, text)?;
    let tables_at = text.len();
    add_tables(&firmware.smbios, text)?;
    Ok(SeenFirmwareRecord {
        screen: screen_told(firmware.screen),
        rsdp: firmware.rsdp.unwrap_or(0),
        efi: efi_told(map_at, firmware.efi_info, &firmware.efi_tables),
        smbios: smbios_told(tables_at, &firmware.smbios),
        reserved: NO_WORDS,
    })
}
