//! A hypervisor's guest: one kernel comes into memory that the hypervisor has mapped for it.
ghost use Rattle.std.specs.Prelude.{◌≡◌, ◌≤◌, IfOk, length, map};
ghost use Rattle.bl_load.specs.Parts.{IsHandover};
ghost use Rattle.bl_load.specs.PlanContents.{handover_in};
ghost use Rattle.bl_load.specs.EntryValue.{value_of, file_count, IsWithinLimits};

use bl_load::{Entry, Handoff, PrepFault, load_entry};
use bl_map::{Kind, Machine, MapFault, Region};
use bl_mem::{SliceMemory, SliceView};
use std::alloc::Allocator;

/// The end of the memory below 1 MiB that a guest may use, and where it goes on.
const LOW_END: u64 = 0x9_F000;

const HIGH_START: u64 = 0x10_0000;

/// A guest's machine of so many bytes, without a pool: nothing is staged.
pub fn guest_machine<A: Allocator>(alloc: A, size: u64) -> Result<Machine<A>, MapFault>
    ensures { IfOk result (λ machine. machine.size ≡ size) }
{
    let low = Region {
        base: 0,
        length: LOW_END,
        kind: Kind::Usable,
    };
    let high = Region {
        base: HIGH_START,
        length: size.saturating_sub(HIGH_START),
        kind: Kind::Usable,
    };
    Machine::new(alloc, size, &[low, high], 0..0)
}

/// Loads an entry into the guest's memory, from files in the caller's slices. What the memory holds
/// then at the handoff's places is what the rules give for this machine and this entry.
pub fn load_guest<A: Allocator + Copy>(
    alloc: A,
    machine: &Machine<A>,
    memory: &mut [u8],
    entry: &Entry<A>,
    files: &[SliceView<'_>],
) -> Result<Handoff<A>, PrepFault>
    requires size { machine.now.size ≤ length memory.old }
    requires files { length files.now ≡ file_count entry.now }
    requires limits { IsWithinLimits entry.now }
    ensures handover { IfOk result (λ handoff. IsHandover machine.now
        (value_of (map (λ file. file.bytes.now) files.now) entry.now)
        (handover_in memory.new handoff.protocol handoff.registers handoff.places)) }
{
    let mut guest = SliceMemory::new(memory);
    load_entry(alloc, machine, &mut guest, entry, files)
}
