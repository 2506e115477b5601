//! A Multiboot2 entry.
ghost use Rattle.std.specs.Prelude.{◌≡◌, ◌≤◌, ◌<◌, ◌+◌, ◌^◌, IfOk, IfErr, length};
ghost use Rattle.bl_plan.specs.declared.protocol.Protocol.TheVariants.{Multiboot2};
ghost use Rattle.bl_load.specs.KernelBlock as blocks;
ghost use Rattle.bl_load.specs.KernelReading.{multiboot2};
ghost use Rattle.bl_load.specs.Parts as parts;
ghost use Rattle.bl_load.specs.internal.CheckedEntries.{value_of_files, IsReadWithFiles};
ghost use Rattle.bl_load.specs.internal.ReadKernels.{IsKernelFault};
ghost use Rattle.bl_load.specs.internal.ReadMultiboot2Kernels.{kernel_by};

use crate::addresses::address_of;
use crate::checked_entry::CheckedEntry;
use crate::loadable_kernel::LoadableKernel;
use crate::multiboot2::contents::multiboot2_content;
use crate::multiboot2::kernel::{Kernel, read_kernel};
use crate::multiboot2::rows::{low_of, multiboot2_rows};
use crate::plan::Content;
use crate::refusal::PrepFault;
use crate::registers::{Registers, multiboot2_registers};
use bl_mem::ByteView;
use bl_plan::{Place, Protocol, Role, Row};
use std::alloc::{AllocError, Allocator};

mod contents;
mod information;
pub mod kernel;
mod rows;

/// Where a Multiboot2 kernel is entered, once the first of its parts stands at `base`.
fn entered_at<A: Allocator>(kernel: &Kernel<A>, base: u64) -> u64
    requires above { blocks.low_of (kernel_by kernel.now).segments ≤ kernel.now.entry }
    requires below { kernel.now.entry + base < 2 ^ 64 }
    ensures { result ≡ parts.entered_at kernel.now.entry (kernel_by kernel.now).segments
        kernel.now.relocation base }
{
    match kernel.relocation {
        None => kernel.entry,
        Some(_) => kernel.entry - low_of(kernel.executable.segments()) + base,
    }
}

impl<B: Allocator> LoadableKernel for Kernel<B> {
    ghost reading = { λ kernel. multiboot2 (kernel_by kernel) };

    fn rows<A: Allocator + Copy, V: ByteView>(
        &self,
        alloc: A,
        entry: &CheckedEntry<'_, A, V>,
    ) -> Result<Vec<Row, A>, AllocError> {
        multiboot2_rows(alloc, entry, self)
    }

    fn content<A: Allocator + Copy, V: ByteView>(
        &self,
        alloc: A,
        entry: &CheckedEntry<'_, A, V>,
        places: &[Place],
        place: &Place,
    ) -> Result<Content<A>, AllocError> {
        multiboot2_content(alloc, entry, self, places, place)
    }

    fn registers(&self, _protocol: Protocol, places: &[Place]) -> Registers {
        let base = address_of(Role::Kernel, 0, places);
        let entry = entered_at(self, base as u64) as u32;
        let information = address_of(Role::Information, 0, places);
        Registers::Bits32(multiboot2_registers(entry, information))
    }
}

/// What is read of the kernel of a Multiboot2 entry, or its first fault. A screen that firmware
/// tells may be its console.
pub fn read_multiboot2_kernel<A: Allocator + Copy, V: ByteView>(
    alloc: A,
    entry: &CheckedEntry<'_, A, V>,
) -> Result<Kernel<A>, PrepFault>
    requires protocol { entry.now.protocol ≡ Multiboot2 }
    requires files { length entry.now.files.now ≡ 1 + length entry.now.modules.now }
    ensures read { IfOk result (λ kernel. IsReadWithFiles entry.now
        (multiboot2 (kernel_by kernel))) }
    ensures fault { IfErr result (IsKernelFault entry.now.machine.now (value_of_files entry.now)) }
{
    let firmware = entry.machine.firmware();
    read_kernel(alloc, &entry.files[0], firmware.screen.is_some())
}
