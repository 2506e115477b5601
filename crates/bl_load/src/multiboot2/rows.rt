//! The table of places of a Multiboot2 entry's parts.
ghost use Rattle.std.specs.Prelude.{◌≡◌, ◌≤◌, ◌<◌, ◌+◌, ◌^◌, ◌++◌, ◌*◌, All, length, map};
ghost use Rattle.std.specs.Prelude.{option_map, IfOk};
ghost use Rattle.bl_load.specs.KernelBlock as blocks;
ghost use Rattle.bl_load.specs.Rows as table;
ghost use Rattle.bl_load.specs.internal.Multiboot2Entries.{lines_of_modules};
ghost use Rattle.bl_load.specs.internal.Placing as kept;
ghost use Rattle.bl_load.specs.internal.ReadMultiboot2Kernels.{kernel_by, max_segments};
ghost use Rattle.bl_load.specs.internal.CheckedEntries.{value_of_files};
ghost use Rattle.bl_plan.specs.MenuLimits.{max_line, max_modules};

use crate::capped_lengths::capped_length;
use crate::checked_entry::CheckedEntry;
use crate::entry::Module;
use crate::multiboot2::kernel::Kernel;
use crate::multiboot2::rows::kernel::push_kernel_rows;
use bl_map::{Efi, FIRST_USABLE, FRAME_SIZE, HIGH_START, MAX_SIZE, Smbios, round_up_to_frames};
use bl_mbi::{module_size, size_by_lengths};
use bl_mem::{ByteView, Bytes};
use bl_plan::{Choice, Role, Row};
use std::alloc::{AllocError, Allocator};

mod kernel;

pub use kernel::low_of;

/// Appends a row for each module.
fn push_module_rows<A: Allocator, B: Allocator, V: ByteView>(
    rows: &mut Vec<Row, A>,
    modules: &[Module<B>],
    files: &[V],
) -> Result<(), AllocError>
    requires few { length modules.now ≤ max_modules }
    requires files { length files.now ≡ 1 + length modules.now }
    ensures { IfOk result (λ _. rows.new.items
        ≡ rows.old.items
        ++ kept.capped_module_rows (map V.bytes files.now) 0 (lines_of_modules modules.now)) }
{
    for (index, _) in modules.iter().enumerate() {
        rows.push(Row {
            role: Role::Module,
            index: index as u32,
            length: capped_length(files[index + 1].len()),
            choice: Choice::Lowest {
                align: FRAME_SIZE,
                low: HIGH_START,
                high: MAX_SIZE,
            },
        })?;
    }
    Ok(())
}

/// How many bytes the tags of modules take.
fn module_tags_size<A: Allocator>(modules: &[Module<A>]) -> u64
    requires short { All (λ m. length m.line ≤ max_line) modules.now }
    requires few { length modules.now ≤ max_modules }
    ensures value { result ≡ kept.module_tags_size (lines_of_modules modules.now) }
    ensures small { result ≤ 4120 * length modules.now }
{
    let mut size = 0;
    for module in modules {
        size += module_size(module.line.len() as u64);
    }
    size
}

/// How many bytes a copy has, if there is one.
fn length_of<A: Allocator>(copy: &Option<Bytes<A>>) -> Option<u64>
    ensures { result ≡ option_map length copy.now }
{
    match copy {
        Some(bytes) => Some(bytes.len() as u64),
        None => None,
    }
}

/// How many bytes the memory map of UEFI has, if one is told.
fn efi_map_size(efi: &Option<Efi<'_>>) -> Option<u64>
    ensures { result ≡ option_map (λ told. length told.map) efi.now }
{
    match efi {
        Some(efi) => Some(efi.map.len() as u64),
        None => None,
    }
}

/// How many bytes the tables of SMBIOS have, if they are told.
fn smbios_size(smbios: &Option<Smbios<'_>>) -> Option<u64>
    ensures { result ≡ option_map (λ told. length told.tables) smbios.now }
{
    match smbios {
        Some(smbios) => Some(smbios.tables.len() as u64),
        None => None,
    }
}

/// The row of the information.
fn information_row<A: Allocator, B: Allocator, V: ByteView>(
    entry: &CheckedEntry<'_, A, V>,
    kernel: &Kernel<B>,
) -> Row
    ensures { result ≡ table.information_row entry.now.machine.now (value_of_files entry.now)
        kernel.now.relocation }
{
    let firmware = entry.machine.firmware();
    let length = size_by_lengths(
        entry.line.len() as u64,
        module_tags_size(entry.modules),
        entry.machine.normal().len() as u64,
        length_of(entry.rsdp_old),
        length_of(entry.rsdp_new),
        kernel.relocation.is_some(),
        firmware.screen.is_some(),
        efi_map_size(&firmware.efi),
        smbios_size(&firmware.smbios),
    );
    Row {
        role: Role::Information,
        index: 0,
        length: round_up_to_frames(length),
        choice: Choice::Lowest {
            align: FRAME_SIZE,
            low: FIRST_USABLE,
            high: MAX_SIZE,
        },
    }
}

/// The rows of an entry's parts: the kernel's, those of its modules, and that of the information.
pub fn multiboot2_rows<A: Allocator, B: Allocator, V: ByteView>(
    alloc: A,
    entry: &CheckedEntry<'_, A, V>,
    kernel: &Kernel<B>,
) -> Result<Vec<Row, A>, AllocError>
    requires files { length entry.now.files.now ≡ 1 + length entry.now.modules.now }
    requires few { length (kernel_by kernel.now).segments ≤ max_segments }
    requires span { blocks.span_of (kernel_by kernel.now).segments < 2 ^ 64 }
    ensures { IfOk result (λ rows. rows.items ≡ kept.capped_multiboot2_rows entry.now.machine.now
        (value_of_files entry.now) (kernel_by kernel.now)) }
{
    let mut rows = Vec::new(alloc);
    push_kernel_rows(&mut rows, kernel)?;
    push_module_rows(&mut rows, entry.modules, entry.files)?;
    rows.push(information_row(entry, kernel))?;
    Ok(rows)
}
