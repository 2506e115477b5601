//! The kernel of an entry: a case for each kind of file.
ghost use Rattle.std.specs.Prelude.{◌≡◌, ◌≤◌, ◌+◌, IfOk, IfErr, length};
ghost use Rattle.bl_plan.specs.declared.protocol.Protocol.TheVariants as protocol;
ghost use Rattle.bl_load.specs.internal.CheckedEntries.{value_of_files, IsReadWithFiles};
ghost use Rattle.bl_load.specs.internal.EntryKernels.{reading_by};
ghost use Rattle.bl_load.specs.internal.ReadKernels.{IsKernelFault};

use crate::checked_entry::CheckedEntry;
use crate::linux::read_linux_kernel;
use crate::loadable_kernel::LoadableKernel;
use crate::multiboot2::kernel::Kernel;
use crate::multiboot2::read_multiboot2_kernel;
use crate::plan::Content;
use crate::refusal::PrepFault;
use crate::registers::Registers;
use bl_bzimage::Setup;
use bl_mem::ByteView;
use bl_plan::{Place, Protocol, Row};
use std::alloc::{AllocError, Allocator};

/// What was read of the kernel of an entry.
#[derive(Drop)]
pub enum EntryKernel<A: Allocator> {
    Multiboot2(Kernel<A>),
    Linux(Setup),
}

impl<B: Allocator> LoadableKernel for EntryKernel<B> {
    ghost reading = { λ kernel. reading_by kernel };

    fn rows<A: Allocator + Copy, V: ByteView>(
        &self,
        alloc: A,
        entry: &CheckedEntry<'_, A, V>,
    ) -> Result<Vec<Row, A>, AllocError> {
        match self {
            EntryKernel::Multiboot2(kernel) => kernel.rows(alloc, entry),
            EntryKernel::Linux(setup) => setup.rows(alloc, entry),
        }
    }

    fn content<A: Allocator + Copy, V: ByteView>(
        &self,
        alloc: A,
        entry: &CheckedEntry<'_, A, V>,
        places: &[Place],
        place: &Place,
    ) -> Result<Content<A>, AllocError> {
        match self {
            EntryKernel::Multiboot2(kernel) => kernel.content(alloc, entry, places, place),
            EntryKernel::Linux(setup) => setup.content(alloc, entry, places, place),
        }
    }

    fn registers(&self, protocol: Protocol, places: &[Place]) -> Registers {
        match self {
            EntryKernel::Multiboot2(kernel) => kernel.registers(protocol, places),
            EntryKernel::Linux(setup) => setup.registers(protocol, places),
        }
    }
}

/// What is read of an entry's kernel by its protocol, or its first fault.
pub fn read_entry_kernel<A: Allocator + Copy, V: ByteView>(
    alloc: A,
    entry: &CheckedEntry<'_, A, V>,
) -> Result<EntryKernel<A>, PrepFault>
    requires some { 1 ≤ length entry.now.files.now }
    requires each { entry.now.protocol ≡ protocol.Multiboot2
        → length entry.now.files.now ≡ 1 + length entry.now.modules.now }
    ensures read { IfOk result (λ kernel. IsReadWithFiles entry.now (reading_by kernel)) }
    ensures fault { IfErr result (IsKernelFault entry.now.machine.now (value_of_files entry.now)) }
{
    match entry.protocol {
        Protocol::Multiboot2 => {
            let kernel = read_multiboot2_kernel(alloc, entry)?;
            Ok(EntryKernel::Multiboot2(kernel))
        }
        Protocol::Linux | Protocol::Linux64 => {
            let setup = read_linux_kernel(entry)?;
            Ok(EntryKernel::Linux(setup))
        }
    }
}
