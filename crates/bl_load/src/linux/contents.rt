//! The contents of a Linux entry's parts, at their places.
ghost use Rattle.std.specs.Prelude.{◌≡◌, ◌≤◌, ◌<◌, ◌^◌, [], All, IfOk, length, map};
ghost use Rattle.std.specs.Prelude.{option_map, unwrap_or};
ghost use Rattle.bl_map.specs.Firmware as firmware;
ghost use Rattle.bl_params.specs.BootParams as params;
ghost use Rattle.bl_params.specs.Paging.{paging};
ghost use Rattle.bl_plan.specs.declared.part.Role.TheVariants as role;
ghost use Rattle.bl_load.specs.EntryValue.{initrd_file};
ghost use Rattle.bl_load.specs.Addresses as addresses;
ghost use Rattle.bl_load.specs.LinuxRows as table;
ghost use Rattle.bl_load.specs.Protocols as protocols;
ghost use Rattle.bl_load.specs.KernelReading.{linux};
ghost use Rattle.bl_load.specs.internal.Contents.{IsPlacedAmong, IsContentAt};
ghost use Rattle.bl_load.specs.internal.Placing.{EndsLow};
ghost use Rattle.bl_load.specs.internal.ReadKernels.{TablesFit};
ghost use Rattle.bl_load.specs.internal.CheckedEntries.{texts_in, value_of_files};
ghost use Rattle.bl_params.specs.ParamsToWriteFacts.{max_e820_entries};

use crate::addresses::address_of;
use crate::checked_entry::CheckedEntry;
use crate::linux::rows::initrd_size;
use crate::plan::Content;
use crate::segment_descriptors::descriptors_of;
use bl_bzimage::Setup;
use bl_map::{Efi, EfiInfo, FRAME_SIZE};
use bl_mem::{ByteView, Bytes};
use bl_params::{ParamsToWrite, page_tables, write_params};
use bl_plan::{Place, Protocol, Role};
use std::alloc::{AllocError, Allocator};

/// What is told of UEFI: its memory map stays where it lies.
fn efi_info(efi: &Option<Efi<'_>>) -> Option<EfiInfo>
    ensures { result ≡ option_map firmware.efi_info efi.now }
{
    match efi {
        Some(efi) => Some(efi.info()),
        None => None,
    }
}

/// The boot parameters, where the parts have these places. Never inlined, as `page_tables_at`: each
/// has 4096 bytes on the stack.
#[inline(never)]
fn boot_params<A: Allocator, V: ByteView>(
    alloc: A,
    entry: &CheckedEntry<'_, A, V>,
    setup: &Setup,
    places: &[Place],
) -> Result<Bytes<A>, AllocError>
    requires few { length entry.now.machine.now.runs ≤ max_e820_entries }
    requires size { length (initrd_file (texts_in entry.now)) < 2 ^ 32 }
    requires low { All EndsLow places.now }
    ensures { IfOk result (λ bytes. bytes ≡ params.boot_params setup.now.header
        (table.boot_params_facts entry.now.machine.now (value_of_files entry.now) places.now)) }
{
    let firmware = entry.machine.firmware();
    let facts = ParamsToWrite {
        code32_start: address_of(Role::Kernel, 0, places),
        ramdisk_image: address_of(Role::Initrd, 0, places),
        ramdisk_size: initrd_size(entry.files) as u32,
        cmd_line_ptr: address_of(Role::CommandLine, 0, places),
        runs: entry.machine.normal(),
        screen: firmware.screen,
        rsdp: firmware.rsdp,
        efi: efi_info(&firmware.efi),
    };
    let mut bytes = [0u8; 4096];
    write_params(setup, &facts, &mut bytes);
    Bytes::copy(alloc, &bytes)
}

/// The descriptors that a kernel of this protocol is handed.
fn descriptors<A: Allocator>(alloc: A, protocol: Protocol) -> Result<Bytes<A>, AllocError>
    ensures { IfOk result (λ bytes. bytes ≡ unwrap_or (protocols.descriptors_of protocol) []) }
{
    match descriptors_of(protocol) {
        Some(bytes) => Bytes::copy(alloc, &bytes),
        None => Bytes::copy(alloc, &[]),
    }
}

/// The page tables, where the parts have these places.
#[inline(never)]
fn page_tables_at<A: Allocator>(alloc: A, places: &[Place]) -> Result<Bytes<A>, AllocError>
    requires low { All EndsLow places.now }
    requires fits { TablesFit places.now }
    ensures { IfOk result (λ bytes. bytes
        ≡ paging (addresses.address_of role.PageTables 0 places.now)) }
{
    let base = address_of(Role::PageTables, 0, places) as u64;
    let mut bytes = Vec::with_capacity(alloc, 6 * FRAME_SIZE as usize)?;
    let mut frame = [0u8; 4096];
    for index in 0..6 {
        page_tables(base, index, &mut frame);
        bytes.extend_from_slice(&frame)?;
    }
    Ok(Bytes::from(bytes))
}

/// The content of the part at a place, where the parts have these places.
pub fn linux_content<A: Allocator + Copy, V: ByteView>(
    alloc: A,
    entry: &CheckedEntry<'_, A, V>,
    setup: &Setup,
    places: &[Place],
    place: &Place,
) -> Result<Content<A>, AllocError>
    requires { IsPlacedAmong entry.now (linux setup.now) places.now place.now }
    ensures { IfOk result (IsContentAt entry.now (linux setup.now) places.now place.now) }
{
    match place.role {
        // Its payload.
        Role::Kernel => Ok(Content::File {
            file: 0,
            offset: setup.payload_offset,
            count: setup.payload_size,
        }),
        Role::BootParams => Ok(Content::Own(boot_params(alloc, entry, setup, places)?)),
        Role::CommandLine => Ok(Content::Own(Bytes::copy(alloc, entry.line)?)),
        Role::Gdt => Ok(Content::Own(descriptors(alloc, entry.protocol)?)),
        // Its whole file.
        Role::Initrd => Ok(Content::File {
            file: 1,
            offset: 0,
            count: initrd_size(entry.files),
        }),
        Role::PageTables => Ok(Content::Own(page_tables_at(alloc, places)?)),
        // A Linux entry has no such part, and this is no byte of it.
        Role::Module | Role::Information => Ok(Content::File {
            file: 0,
            offset: 0,
            count: 0,
        }),
    }
}
