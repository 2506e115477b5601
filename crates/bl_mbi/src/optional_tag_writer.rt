//! Each tag of boot information that may be missing, appended where there is room for it.
ghost use Rattle.std.specs.Prelude.{◌≡◌, ◌+◌, ◌^◌, ◌<◌, ◌++◌, true, length, is_some, option_map};
ghost use Rattle.std.specs.Prelude.{option_copied, IfSome};
ghost use Rattle.bl_map.specs.FirmwareLimits.{is_system_table};
ghost use Rattle.bl_mem.specs.LittleEndian.{u32_bytes};
ghost use Rattle.bl_mbi.specs.InfoToWriteFacts.{efi_tables, IsToldEfi};
ghost use Rattle.bl_mbi.specs.Size.{tag_size, tag_size_if, body_if};
ghost use Rattle.bl_mbi.specs.Tags.{tag, tag_if, screen_body, pointer_type, pointer_body};
ghost use Rattle.bl_mbi.specs.Tags.{pointer_tag, smbios_body, efi_map_body};
ghost use Rattle.bl_mbi.specs.internal.Appending.{HasRoomFor, Appends};
ghost use Rattle.bl_mbi.specs.internal.GroupSizes.{smbios_tag_size, efi_map_tag_size};

use crate::tag_types::{
    DIRECT_COLOR, FRAMEBUFFER_BODY, TAG_EFI_MAP, TAG_EFI32, TAG_EFI64, TAG_FRAMEBUFFER,
    TAG_LOAD_BASE, TAG_SMBIOS,
};
use crate::tag_writer::put_padding;
use bl_map::{Efi, EfiBits, Screen, Smbios};
use bl_mem::{put_bytes, put_u32, put_u64};
use std::alloc::Allocator;

/// Appends a tag's type and its size, where the body has so many bytes.
fn put_head<A: Allocator>(out: &mut Vec<u8, A>, kind: u32, body: u32)
    requires room { HasRoomFor out.old 8 }
    requires small { 8 + body < 2 ^ 32 }
    ensures { Appends out.old out.new (u32_bytes kind ++ u32_bytes (8 + body)) 8 }
{
    put_u32(out, kind);
    put_u32(out, 8 + body);
}

/// Appends a tag whose body is so many bytes.
fn put_tag<A: Allocator>(out: &mut Vec<u8, A>, kind: u32, body: &[u8])
    requires room { HasRoomFor out.old (tag_size (length body.now)) }
    requires small { tag_size (length body.now) < 2 ^ 32 }
    ensures { Appends out.old out.new (tag kind body.now) (tag_size (length body.now)) }
{
    put_head(out, kind, body.len() as u32);
    put_bytes(out, body);
    put_padding(out, body.len() as u64);
}

/// Appends the tag of a copy, where there is one.
pub(crate) fn put_copy<A: Allocator>(out: &mut Vec<u8, A>, kind: u32, copy: Option<&[u8]>)
    requires room { HasRoomFor out.old (tag_size_if (option_map length (option_copied copy))) }
    requires small { tag_size_if (option_map length (option_copied copy)) < 2 ^ 32 }
    ensures { Appends out.old out.new (tag_if kind (option_copied copy.entry))
        (tag_size_if (option_map length (option_copied copy.entry))) }
{
    if let Some(copy) = copy {
        put_tag(out, kind, copy);
    }
}

/// Appends the tag of a load base, where there is one.
pub(crate) fn put_load_base<A: Allocator>(out: &mut Vec<u8, A>, load_base: Option<u32>)
    requires { HasRoomFor out.old (tag_size_if (body_if (is_some load_base) 4)) }
    ensures { Appends out.old out.new (tag_if TAG_LOAD_BASE (option_map u32_bytes load_base))
        (tag_size_if (body_if (is_some load_base) 4)) }
{
    if let Some(load_base_addr) = load_base {
        put_head(out, TAG_LOAD_BASE, 4);
        put_u32(out, load_base_addr);
        put_padding(out, 4);
    }
}

fn put_screen_body<A: Allocator>(out: &mut Vec<u8, A>, screen: Screen)
    requires { HasRoomFor out.old FRAMEBUFFER_BODY }
    ensures { Appends out.old out.new (screen_body screen) FRAMEBUFFER_BODY }
{
    let pixels = [
        screen.depth,
        DIRECT_COLOR,
        0,
        0,
        screen.red.position,
        screen.red.size,
        screen.green.position,
        screen.green.size,
        screen.blue.position,
        screen.blue.size,
    ];
    put_u64(out, screen.base);
    put_u32(out, screen.pitch);
    put_u32(out, screen.width);
    put_u32(out, screen.height);
    put_bytes(out, &pixels);
}

/// Appends the tag of a screen, where there is one.
pub(crate) fn put_screen<A: Allocator>(out: &mut Vec<u8, A>, screen: Option<Screen>)
    requires { HasRoomFor out.old (tag_size_if (body_if (is_some screen) FRAMEBUFFER_BODY)) }
    ensures { Appends out.old out.new (tag_if TAG_FRAMEBUFFER (option_map screen_body screen))
        (tag_size_if (body_if (is_some screen) FRAMEBUFFER_BODY)) }
{
    if let Some(screen) = screen {
        put_head(out, TAG_FRAMEBUFFER, FRAMEBUFFER_BODY);
        put_screen_body(out, screen);
        put_padding(out, FRAMEBUFFER_BODY as u64);
    }
}

fn put_pointer_tag<A: Allocator>(out: &mut Vec<u8, A>, bits: EfiBits, system_table: u64)
    requires room { HasRoomFor out.old 16 }
    requires fits { is_system_table bits system_table ≡ true }
    ensures { Appends out.old out.new (tag (pointer_type bits) (pointer_body bits system_table))
        16 }
{
    match bits {
        EfiBits::Efi32 => {
            put_head(out, TAG_EFI32, 4);
            put_u32(out, system_table as u32);
            put_padding(out, 4);
        }
        EfiBits::Efi64 => {
            put_head(out, TAG_EFI64, 8);
            put_u64(out, system_table);
            put_padding(out, 8);
        }
    }
}

/// Appends the tag of the address of UEFI's system table, where UEFI is told.
pub(crate) fn put_pointer<A: Allocator>(out: &mut Vec<u8, A>, efi: Option<&Efi<'_>>)
    requires room { HasRoomFor out.old
        (tag_size_if (body_if (is_some (option_map efi_tables (option_copied efi))) 8)) }
    requires told { IfSome (option_map efi_tables (option_copied efi)) IsToldEfi }
    ensures { Appends out.old out.new
        (pointer_tag (option_map efi_tables (option_copied efi.entry)))
        (tag_size_if (body_if (is_some (option_map efi_tables (option_copied efi.entry))) 8)) }
{
    if let Some(efi) = efi {
        put_pointer_tag(out, efi.bits, efi.system_table);
    }
}

fn put_efi_map_tag<A: Allocator>(out: &mut Vec<u8, A>, size: u32, version: u32, map: &[u8])
    requires room { HasRoomFor out.old (tag_size (length map.now + 8)) }
    requires small { tag_size (length map.now + 8) < 2 ^ 32 }
    ensures { Appends out.old out.new
        (tag TAG_EFI_MAP (u32_bytes size ++ (u32_bytes version ++ map.now)))
        (tag_size (length map.now + 8)) }
{
    put_head(out, TAG_EFI_MAP, map.len() as u32 + 8);
    put_u32(out, size);
    put_u32(out, version);
    put_bytes(out, map);
    put_padding(out, map.len() as u64 + 8);
}

/// Appends the tag of UEFI's memory map, where UEFI is told.
pub(crate) fn put_efi_map<A: Allocator>(out: &mut Vec<u8, A>, efi: Option<&Efi<'_>>)
    requires room { HasRoomFor out.old (efi_map_tag_size
        (option_map efi_tables (option_copied efi))) }
    requires small { efi_map_tag_size (option_map efi_tables (option_copied efi)) < 2 ^ 32 }
    ensures { Appends out.old out.new
        (tag_if TAG_EFI_MAP (option_map efi_map_body
        (option_map efi_tables (option_copied efi.entry))))
        (efi_map_tag_size (option_map efi_tables (option_copied efi.entry))) }
{
    if let Some(efi) = efi {
        put_efi_map_tag(out, efi.descriptor_size, efi.descriptor_version, efi.map);
    }
}

fn put_smbios_tag<A: Allocator>(out: &mut Vec<u8, A>, major: u8, minor: u8, tables: &[u8])
    requires room { HasRoomFor out.old (tag_size (length tables.now + 8)) }
    requires small { tag_size (length tables.now + 8) < 2 ^ 32 }
    ensures { Appends out.old out.new
        (tag TAG_SMBIOS (smbios_body
        (record { major = major; minor = minor; tables = tables.now })))
        (tag_size (length tables.now + 8)) }
{
    put_head(out, TAG_SMBIOS, tables.len() as u32 + 8);
    put_bytes(out, &[major, minor, 0, 0, 0, 0, 0, 0]);
    put_bytes(out, tables);
    put_padding(out, tables.len() as u64 + 8);
}

/// Appends the tag of SMBIOS's tables, where they are told.
pub(crate) fn put_smbios<A: Allocator>(out: &mut Vec<u8, A>, smbios: Option<&Smbios<'_>>)
    requires room { HasRoomFor out.old (smbios_tag_size (option_copied smbios)) }
    requires small { smbios_tag_size (option_copied smbios) < 2 ^ 32 }
    ensures { Appends out.old out.new
        (tag_if TAG_SMBIOS (option_map smbios_body (option_copied smbios.entry)))
        (smbios_tag_size (option_copied smbios.entry)) }
{
    if let Some(smbios) = smbios {
        put_smbios_tag(out, smbios.major, smbios.minor, smbios.tables);
    }
}
