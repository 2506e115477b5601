//! Boot parameters as bytes.
ghost use Rattle.std.specs.Prelude.{◌≡◌, ◌≤◌, ◌+◌, length, replicate};
ghost use Rattle.std.specs.List.{flat_map};
ghost use Rattle.bl_params.specs.BootParams.{boot_params, e820_entry_bytes};
ghost use Rattle.bl_params.specs.ParamsToWriteFacts.{max_e820_entries};
ghost use Rattle.bl_params.specs.internal.FieldWriting.{IsWrittenAt};
ghost use Rattle.bl_params.specs.SizesAndOffsets.{e820_entry_size, e820_table_at, params_size};

use crate::efi_fields::{EFI_INFO, SECURE_BOOT};
use crate::efi_writer::{efi_info, secure_boot};
use crate::field_writer::{write_field, write_u16, write_u32, write_u64};
use crate::fields::{
    ACPI_RSDP_ADDR, CMD_LINE_PTR, CODE32_START, E820_ENTRIES, E820_TABLE, ENTRY_LENGTH, ENTRY_SIZE,
    ENTRY_TYPE, HEADER_START, LOADER_UNDEFINED, RAMDISK_IMAGE, RAMDISK_SIZE, SETUP_DATA,
    TYPE_OF_LOADER, VID_MODE, VID_MODE_NORMAL,
};
use crate::params_to_write::ParamsToWrite;
use crate::screen_fields::SCREEN_INFO;
use crate::screen_writer::screen_info;
use bl_bzimage::Setup;
use bl_map::Region;

fn clear(out: &mut [u8])
    ensures { out.new ≡ replicate (length out.old) 0 }
{
    out.fill(0);
}

/// Writes an entry of the memory map.
fn put_entry(out: &mut [u8; 4096], at: usize, run: &Region)
    requires { at + e820_entry_size ≤ params_size }
    ensures { IsWrittenAt at (e820_entry_bytes run.now) out.old out.new }
{
    write_u64(out, at, run.base);
    write_u64(out, at + ENTRY_LENGTH, run.length);
    write_u32(out, at + ENTRY_TYPE, run.kind.number());
}

/// Writes the memory map.
fn put_entries(out: &mut [u8; 4096], runs: &[Region])
    requires { length runs.now ≤ max_e820_entries }
    ensures { IsWrittenAt e820_table_at (flat_map e820_entry_bytes runs.now) out.old out.new }
{
    let mut at = E820_TABLE;
    for run in runs {
        put_entry(out, at, run);
        at += ENTRY_SIZE;
    }
}

/// Writes boot parameters over whatever stands there: zeros, the setup header from 0x1F1 on as it
/// stands in the file, the fields that a loader writes, the memory map, and what firmware tells
/// (Linux/x86 Boot Protocol, "Zero Page"). Takes no memory.
pub fn write_params(setup: &Setup, facts: &ParamsToWrite<'_>, out: &mut [u8; 4096])
    ensures { out.new ≡ boot_params setup.now.header facts.now }
{
    let runs = facts.runs;
    clear(out);
    write_field(out, HEADER_START, setup.header.as_slice());
    put_entries(out, runs);
    write_u64(out, SETUP_DATA, 0);
    write_u32(out, CMD_LINE_PTR, facts.cmd_line_ptr);
    write_u32(out, RAMDISK_SIZE, facts.ramdisk_size);
    write_u32(out, RAMDISK_IMAGE, facts.ramdisk_image);
    write_u32(out, CODE32_START, facts.code32_start);
    write_field(out, TYPE_OF_LOADER, &[LOADER_UNDEFINED]);
    write_u16(out, VID_MODE, VID_MODE_NORMAL);
    write_field(out, SECURE_BOOT, &[secure_boot(facts.efi)]);
    write_field(out, E820_ENTRIES, &[runs.len() as u8]);
    write_field(out, EFI_INFO, &efi_info(facts.efi));
    write_u64(out, ACPI_RSDP_ADDR, facts.rsdp.unwrap_or(0));
    write_field(out, SCREEN_INFO, &screen_info(facts.screen));
}
