//! Boot information as bytes.
ghost use Rattle.std.specs.Prelude.{◌≡◌, ◌≤◌, ◌+◌, ◌^◌, ◌<◌, ◌++◌, [], codes, length};
ghost use Rattle.std.specs.Prelude.{option_map, option_copied, vec_len, vec_capacity, IsOk, OnOk};
ghost use Rattle.std.specs.Prelude.{OnErr};
ghost use Rattle.std.specs.List.{flat_map};
ghost use Rattle.bl_mem.specs.LittleEndian.{u32_bytes};
ghost use Rattle.bl_mbi.specs.InfoToWriteFacts.{efi_tables, info_size as size_of_info};
ghost use Rattle.bl_mbi.specs.Spelling.{info_spelling};
ghost use Rattle.bl_mbi.specs.Tags.{tag, tag_if, text_body, module_tag, memory_body, map_body};
ghost use Rattle.bl_mbi.specs.Tags.{screen_body, pointer_tag, smbios_body, efi_map_body};
ghost use Rattle.bl_mbi.specs.internal.Appending.{HasRoomFor, Appends};
ghost use Rattle.bl_mbi.specs.internal.GroupSizes.{modules_size, texts_size, memory_tags_size};
ghost use Rattle.bl_mbi.specs.internal.GroupSizes.{firmware_tags_size, copy_tags_size};
ghost use Rattle.bl_mbi.specs.internal.GroupSizes.{closing_tags_size};

use crate::info_to_write::InfoToWrite;
use crate::module_to_write::ModuleToWrite;
use crate::optional_tag_writer::{
    put_copy, put_efi_map, put_load_base, put_pointer, put_screen, put_smbios,
};
use crate::size::{size_by_lengths, tag_len};
use crate::tag_types::{
    TAG_ACPI_NEW, TAG_ACPI_OLD, TAG_BASIC_MEMORY, TAG_BOOT_LOADER_NAME, TAG_COMMAND_LINE,
    TAG_EFI_MAP, TAG_END, TAG_FRAMEBUFFER, TAG_LOAD_BASE, TAG_MEMORY_MAP, TAG_SMBIOS,
};
use crate::tag_writer::{put_end, put_map, put_memory, put_modules, put_text};
use bl_map::{Efi, Smbios};
use bl_mem::put_u32;
use std::alloc::{AllocError, Allocator};

/// How many bytes the tags of modules take.
fn modules_len(modules: &[ModuleToWrite<'_>]) -> u64
    requires { modules_size modules.now < 2 ^ 32 }
    ensures { result ≡ modules_size modules.now }
{
    let mut sum = 0;
    for loaded in modules {
        sum += tag_len(loaded.line.len() as u64 + 9);
    }
    sum
}

/// How many bytes a copy has, where there is one.
fn copy_len(copy: Option<&[u8]>) -> Option<u64>
    ensures { result ≡ option_map length (option_copied copy.entry) }
{
    match copy {
        Some(copy) => Some(copy.len() as u64),
        None => None,
    }
}

/// How many bytes UEFI's memory map has, where UEFI is told.
fn efi_map_len(efi: Option<&Efi<'_>>) -> Option<u64>
    ensures { result
        ≡ option_map (λ e. length e.map) (option_map efi_tables (option_copied efi.entry)) }
{
    match efi {
        Some(efi) => Some(efi.map.len() as u64),
        None => None,
    }
}

/// How many bytes SMBIOS's tables have, where they are told.
fn smbios_len(smbios: Option<&Smbios<'_>>) -> Option<u64>
    ensures { result ≡ option_map (λ s. length s.tables) (option_copied smbios.entry) }
{
    match smbios {
        Some(smbios) => Some(smbios.tables.len() as u64),
        None => None,
    }
}

/// How many bytes the information takes: its `total_size`, with the loader's name `bootcore`.
pub fn info_size(facts: &InfoToWrite<'_, '_>) -> u64
    ensures size { result ≡ length (info_spelling (codes "bootcore") facts.now) }
    ensures by_lengths { result ≡ size_of_info facts.now }
    ensures small { result < 2 ^ 32 }
{
    size_by_lengths(
        facts.line.len() as u64,
        modules_len(facts.modules),
        facts.runs.len() as u64,
        copy_len(facts.rsdp_old),
        copy_len(facts.rsdp_new),
        facts.load_base.is_some(),
        facts.screen.is_some(),
        efi_map_len(facts.efi),
        smbios_len(facts.smbios),
    )
}

/// Appends the tags of texts: the line, the loader's name, the modules.
fn put_texts<A: Allocator>(facts: &InfoToWrite<'_, '_>, out: &mut Vec<u8, A>)
    requires { HasRoomFor out.old (texts_size facts.now) }
    ensures { Appends out.old out.new (tag TAG_COMMAND_LINE (text_body facts.now.line)
        ++ (tag TAG_BOOT_LOADER_NAME (text_body (codes "bootcore"))
        ++ flat_map module_tag facts.now.modules))
        (texts_size facts.now) }
{
    put_text(out, TAG_COMMAND_LINE, facts.line);
    put_text(out, TAG_BOOT_LOADER_NAME, b"bootcore");
    put_modules(out, facts.modules);
}

/// Appends the tags of memory: its sizes, its map.
fn put_memory_tags<A: Allocator>(facts: &InfoToWrite<'_, '_>, out: &mut Vec<u8, A>)
    requires { HasRoomFor out.old (memory_tags_size facts.now) }
    ensures { Appends out.old out.new
        (tag TAG_BASIC_MEMORY (memory_body facts.now.mem_lower facts.now.mem_upper)
        ++ tag TAG_MEMORY_MAP (map_body facts.now.runs)) (memory_tags_size facts.now) }
{
    put_memory(out, facts.mem_lower, facts.mem_upper);
    put_map(out, facts.runs);
}

/// Appends the tags of the screen, of UEFI's system table and of SMBIOS.
fn put_firmware_tags<A: Allocator>(facts: &InfoToWrite<'_, '_>, out: &mut Vec<u8, A>)
    requires { HasRoomFor out.old (firmware_tags_size facts.now) }
    ensures { Appends out.old out.new
        (tag_if TAG_FRAMEBUFFER (option_map screen_body facts.now.screen)
        ++ (pointer_tag facts.now.efi
        ++ tag_if TAG_SMBIOS (option_map smbios_body facts.now.smbios)))
        (firmware_tags_size facts.now) }
{
    put_screen(out, facts.screen);
    put_pointer(out, facts.efi);
    put_smbios(out, facts.smbios);
}

/// Appends the tags of the copies: ACPI's roots, UEFI's memory map.
fn put_copies<A: Allocator>(facts: &InfoToWrite<'_, '_>, out: &mut Vec<u8, A>)
    requires { HasRoomFor out.old (copy_tags_size facts.now) }
    ensures { Appends out.old out.new (tag_if TAG_ACPI_OLD facts.now.rsdp_old
        ++ (tag_if TAG_ACPI_NEW facts.now.rsdp_new
        ++ tag_if TAG_EFI_MAP (option_map efi_map_body facts.now.efi)))
        (copy_tags_size facts.now) }
{
    put_copy(out, TAG_ACPI_OLD, facts.rsdp_old);
    put_copy(out, TAG_ACPI_NEW, facts.rsdp_new);
    put_efi_map(out, facts.efi);
}

/// Appends the load base, where there is one, and the tag that ends the information.
fn put_closing_tags<A: Allocator>(facts: &InfoToWrite<'_, '_>, out: &mut Vec<u8, A>)
    requires { HasRoomFor out.old (closing_tags_size facts.now) }
    ensures { out.new.items ≡ out.old.items
        ++ (tag_if TAG_LOAD_BASE (option_map u32_bytes facts.now.load_base) ++ tag TAG_END []) }
{
    put_load_base(out, facts.load_base);
    put_end(out);
}

/// Appends the information, with the loader's name `bootcore`, or leaves the bytes as they were.
pub fn write_info<A: Allocator>(
    facts: &InfoToWrite<'_, '_>,
    out: &mut Vec<u8, A>,
) -> Result<(), AllocError>
    ensures ok { OnOk result
        (out.new.items ≡ out.old.items ++ info_spelling (codes "bootcore") facts.now) }
    ensures err { OnErr result (out.new.items ≡ out.old.items) }
    ensures succeeds { vec_len out.old + size_of_info facts.now ≤ vec_capacity out.old
        → IsOk result }
{
    let total_size = info_size(facts);
    out.reserve(total_size as usize)?;
    put_u32(out, total_size as u32);
    put_u32(out, 0);
    put_texts(facts, out);
    put_memory_tags(facts, out);
    put_firmware_tags(facts, out);
    put_copies(facts, out);
    put_closing_tags(facts, out);
    Ok(())
}
