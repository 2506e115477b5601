//! The contents of a Multiboot2 entry's parts, at their places.
ghost use Rattle.std.specs.Prelude.{◌≡◌, ◌<◌, ◌+◌, IfOk, length, map};
ghost use Rattle.bl_load.specs.EntryValue.{module_file};
ghost use Rattle.bl_load.specs.Rows.{module_length};
ghost use Rattle.bl_load.specs.KernelReading.{multiboot2};
ghost use Rattle.bl_load.specs.internal.ReadMultiboot2Kernels.{kernel_by};
ghost use Rattle.bl_load.specs.internal.Contents.{IsPlacedAmong, IsContentAt};
ghost use Rattle.bl_load.specs.internal.Contents.{IsPlaceOfKernel, IsKernelContent};
ghost use Rattle.bl_load.specs.internal.Contents.{IsModuleContent};

use crate::checked_entry::CheckedEntry;
use crate::multiboot2::information::information;
use crate::multiboot2::kernel::Kernel;
use crate::plan::Content;
use bl_mem::ByteView;
use bl_plan::{Place, Role, in_order};
use std::alloc::{AllocError, Allocator};

/// The content of the kernel's part at a place.
fn kernel_content<A: Allocator + Copy, B: Allocator, V: ByteView>(
    alloc: A,
    kernel: &Kernel<B>,
    files: &[V],
    place: &Place,
) -> Result<Content<A>, AllocError>
    requires { IsPlaceOfKernel (map V.bytes files.now) (kernel_by kernel.now) place.now }
    ensures { IfOk result
        (IsKernelContent (map V.bytes files.now) (kernel_by kernel.now) place.now) }
{
    let segments = kernel.executable.segments();
    match kernel.relocation {
        None => {
            let segment = segments[place.index as usize];
            Ok(Content::File {
                file: 0,
                offset: segment.offset,
                count: segment.filesz,
            })
        }
        Some(_) => Ok(Content::Block {
            file: 0,
            segments: in_order(alloc, segments)?,
        }),
    }
}

/// The content of a module's part at a place: its whole file.
fn module_content<A: Allocator, V: ByteView>(files: &[V], place: &Place) -> Content<A>
    requires within { place.now.index + 1 < length files.now }
    requires length { place.now.length
        ≡ module_length (module_file (map V.bytes files.now) place.now.index) }
    ensures { IsModuleContent (map V.bytes files.now) place.now result }
{
    let file = place.index as usize + 1;
    Content::File {
        file,
        offset: 0,
        count: files[file].len(),
    }
}

/// The content of the part at a place, where the parts have these places.
pub fn multiboot2_content<A: Allocator + Copy, B: Allocator, V: ByteView>(
    alloc: A,
    entry: &CheckedEntry<'_, A, V>,
    kernel: &Kernel<B>,
    places: &[Place],
    place: &Place,
) -> Result<Content<A>, AllocError>
    requires { IsPlacedAmong entry.now (multiboot2 (kernel_by kernel.now)) places.now place.now }
    ensures { IfOk result
        (IsContentAt entry.now (multiboot2 (kernel_by kernel.now)) places.now place.now) }
{
    match place.role {
        Role::Kernel => kernel_content(alloc, kernel, entry.files, place),
        Role::Module => Ok(module_content(entry.files, place)),
        Role::Information => {
            let bytes = information(alloc, entry, &kernel.relocation, places)?;
            Ok(Content::Own(bytes))
        }
        // A Multiboot2 entry has no such part, and this is no byte of it.
        Role::BootParams | Role::CommandLine | Role::Gdt | Role::Initrd | Role::PageTables => Ok(
            Content::File {
                file: 0,
                offset: 0,
                count: 0,
            },
        ),
    }
}
