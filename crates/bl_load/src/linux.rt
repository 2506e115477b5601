//! A Linux entry.
ghost use Rattle.std.specs.Prelude.{◌≡◌, ◌≤◌, true, IfOk, IfErr, length};
ghost use Rattle.bl_load.specs.KernelReading.{linux};
ghost use Rattle.bl_load.specs.Protocols.{has_params};
ghost use Rattle.bl_load.specs.internal.CheckedEntries.{value_of_files, IsReadWithFiles};
ghost use Rattle.bl_load.specs.internal.ReadKernels.{IsKernelFault};

use crate::addresses::address_of;
use crate::checked_entry::CheckedEntry;
use crate::linux::contents::linux_content;
use crate::linux::kernel::{ENTRY_64, read_linux};
use crate::linux::rows::linux_rows;
use crate::loadable_kernel::LoadableKernel;
use crate::plan::Content;
use crate::refusal::PrepFault;
use crate::registers::{Registers, linux_registers};
use crate::registers64::linux64_registers;
use bl_bzimage::Setup;
use bl_mem::ByteView;
use bl_plan::{Place, Protocol, Role, Row};
use std::alloc::{AllocError, Allocator};

mod contents;
mod kernel;
mod rows;

impl LoadableKernel for Setup {
    ghost reading = { λ setup. linux setup };

    fn rows<A: Allocator + Copy, V: ByteView>(
        &self,
        alloc: A,
        entry: &CheckedEntry<'_, A, V>,
    ) -> Result<Vec<Row, A>, AllocError> {
        linux_rows(alloc, entry.protocol, self, entry.files)
    }

    fn content<A: Allocator + Copy, V: ByteView>(
        &self,
        alloc: A,
        entry: &CheckedEntry<'_, A, V>,
        places: &[Place],
        place: &Place,
    ) -> Result<Content<A>, AllocError> {
        linux_content(alloc, entry, self, places, place)
    }

    fn registers(&self, protocol: Protocol, places: &[Place]) -> Registers {
        let start = address_of(Role::Kernel, 0, places);
        let boot_params = address_of(Role::BootParams, 0, places);
        let gdt = address_of(Role::Gdt, 0, places);
        match protocol {
            // No Multiboot2 kernel's file is read as a Linux kernel's.
            Protocol::Multiboot2 => unreachable!(),
            Protocol::Linux => Registers::Bits32(linux_registers(start, boot_params, gdt)),
            Protocol::Linux64 => {
                let tables = address_of(Role::PageTables, 0, places) as u64;
                Registers::Bits64(linux64_registers(
                    start as u64 + ENTRY_64,
                    boot_params as u64,
                    gdt as u64,
                    tables,
                ))
            }
        }
    }
}

/// What is read of the kernel of a Linux entry, or its first fault.
pub fn read_linux_kernel<A: Allocator, V: ByteView>(
    entry: &CheckedEntry<'_, A, V>,
) -> Result<Setup, PrepFault>
    requires params { has_params entry.now.protocol ≡ true }
    requires files { 1 ≤ length entry.now.files.now }
    ensures read { IfOk result (λ setup. IsReadWithFiles entry.now (linux setup)) }
    ensures fault { IfErr result (IsKernelFault entry.now.machine.now (value_of_files entry.now)) }
{
    read_linux(
        entry.protocol,
        &entry.files[0],
        entry.line,
        entry.machine.normal(),
    )
}
