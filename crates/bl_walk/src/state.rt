//! The state that a kernel is entered in.
ghost use Rattle.std.specs.Prelude.{◌≡◌, ◌==◌, ◌<◌, ◌*◌, ◌↔◌, ℕ, List, Some, true, IsTrue};
ghost use Rattle.std.specs.Prelude.{MatchOption, length};
ghost use Rattle.bl_params.specs.Translation.{translation};
ghost use Rattle.bl_load.specs.Protocols as protocols;
ghost use Rattle.bl_load.specs.Registers.{entry_in, gdt_in, page_tables_in};
ghost use Rattle.bl_walk.specs.PartBytes.{bytes_in};
ghost use Rattle.bl_walk.specs.State as state;
ghost use Rattle.bl_walk.specs.State.{IsEntered};
ghost use Rattle.bl_walk.specs.internal.Walking.{FindsOrFaults};
ghost use Rattle.bl_params.specs.SizesAndOffsets.{page_tables_size, page_size, mapped_page_count};

use crate::fault::WalkFault;
use crate::followed_bytes::follow;
use crate::part_bytes::part_with;
use bl_image::{Image, ImagePart};
use bl_load::{
    Protocol, Registers, descriptors_of, linux_registers, linux64_registers, multiboot2_registers,
};
use bl_params::{LOW_PAGES, PAGE_SIZE, TABLES_SIZE, translate};
use bl_plan::Role;
use std::alloc::Allocator;

/// Whether the registers are those that a kernel is entered with, whatever the ones hold that hold
/// addresses.
fn are_entered(protocol: Protocol, registers: Registers) -> bool
    ensures { IsTrue result ↔ (registers ≡ state.entry_registers protocol registers) }
{
    match (protocol, registers) {
        (Protocol::Multiboot2, Registers::Bits32(r)) => r == multiboot2_registers(r.eip, r.ebx),
        (Protocol::Linux, Registers::Bits32(r)) => r == linux_registers(r.eip, r.esi, r.gdt_base),
        (Protocol::Linux64, Registers::Bits64(r)) => {
            r == linux64_registers(r.rip, r.rsi, r.gdt_base, r.cr3)
        }
        (Protocol::Multiboot2 | Protocol::Linux, Registers::Bits64(_)) => false,
        (Protocol::Linux64, Registers::Bits32(_)) => false,
    }
}

/// The registers are those of the protocol.
fn check_registers<A: Allocator>(image: &Image<A>) -> Result<(), WalkFault>
    ensures { FindsOrFaults image.now (λ _. image.now.registers
        ≡ state.entry_registers image.now.protocol image.now.registers) result }
{
    if !are_entered(image.protocol(), image.registers()) {
        return Err(WalkFault::BadState);
    }
    Ok(())
}

/// Whether a part is one of the kernel.
pub(crate) fn is_kernel<A: Allocator>(part: &ImagePart<A>) -> bool
    ensures { result ≡ state.is_kernel part.now }
{
    part.role().number() == Role::Kernel.number()
}

/// Whether an address lies in a part of the kernel.
fn is_in_kernel<A: Allocator>(image: &Image<A>, address: u64) -> bool
    ensures { result ≡ state.is_in_kernel image.now.parts address }
{
    match part_with(image, address, 1) {
        Some(part) => is_kernel(part),
        None => false,
    }
}

/// The kernel is entered in one of its parts.
fn check_entry<A: Allocator>(image: &Image<A>) -> Result<(), WalkFault>
    ensures { FindsOrFaults image.now
        (λ _. state.is_in_kernel image.now.parts (entry_in image.now.registers) ≡ true) result }
{
    if !is_in_kernel(image, image.registers().entry_point()) {
        return Err(WalkFault::OutsideImage);
    }
    Ok(())
}

/// Whether bytes are these descriptors.
fn are_descriptors(bytes: &[u8], descriptors: &[u8; 32]) -> bool
    ensures { IsTrue result ↔ (bytes.now ≡ descriptors.now) }
{
    bytes == descriptors.as_slice()
}

/// A kernel that is handed these descriptors finds them where its registers say.
fn check_descriptors<A: Allocator>(
    image: &Image<A>,
    descriptors: &[u8; 32],
) -> Result<(), WalkFault>
    requires { protocols.descriptors_of image.now.protocol ≡ Some descriptors.now }
    ensures { FindsOrFaults image.now (λ _. bytes_in image.now.parts (gdt_in image.now.registers)
        (length descriptors.now) ≡ Some descriptors.now) result }
{
    let found = follow(image, image.registers().gdt(), descriptors.len() as u32)?;
    if !are_descriptors(found, descriptors) {
        return Err(WalkFault::BadState);
    }
    Ok(())
}

/// The first page of 2 MiB below 4 GiB that page tables at an address do not translate to itself.
fn moved_page(base: u64, tables: &[u8]) -> Option<u64>
    ensures { MatchOption result (state.IsIdentityMapping base tables.now)
        (λ page. (page < mapped_page_count)
        × ¬ (translation tables.now base (page * page_size) ≡ Some (page * page_size))) }
{
    for page in 0..LOW_PAGES {
        if translate(tables, base, page * PAGE_SIZE) != Some(page * PAGE_SIZE) {
            return Some(page);
        }
    }
    None
}

/// A kernel that is entered with paging finds page tables where its registers say.
fn check_tables<A: Allocator>(image: &Image<A>) -> Result<(), WalkFault>
    requires { protocols.is_wide image.now.protocol ≡ true }
    ensures { FindsOrFaults image.now (λ _. (tables : List ℕ)
        × (bytes_in image.now.parts (page_tables_in image.now.registers) page_tables_size
        ≡ Some tables)
        × state.IsIdentityMapping (page_tables_in image.now.registers) tables) result }
{
    let base = image.registers().tables();
    let tables = follow(image, base, TABLES_SIZE)?;
    match moved_page(base, tables) {
        None => Ok(()),
        Some(_) => Err(WalkFault::BadState),
    }
}

/// The kernel is entered as its protocol says.
pub(crate) fn check_state<A: Allocator>(image: &Image<A>) -> Result<(), WalkFault>
    ensures { FindsOrFaults image.now (λ _. IsEntered image.now) result }
{
    check_registers(image)?;
    check_entry(image)?;
    if let Some(descriptors) = descriptors_of(image.protocol()) {
        check_descriptors(image, &descriptors)?;
    }
    match image.protocol() {
        Protocol::Multiboot2 | Protocol::Linux => Ok(()),
        Protocol::Linux64 => check_tables(image),
    }
}
