//! One entry comes into memory, from files beside it.
ghost use Rattle.std.specs.Prelude.{◌≡◌, ℕ, ◌+◌, ◌≤◌, length, map, slice_index, All, IfOk, IfErr};
ghost use Rattle.bl_mem.specs.Memory.{KeepsSizeAndRoom};
ghost use Rattle.bl_plan.specs.Placed.{Covers};
ghost use Rattle.bl_load.specs.EntryValue.{value_of, file_count, IsWithinLimits};
ghost use Rattle.bl_load.specs.Handover.{overwrite_parts};
ghost use Rattle.bl_load.specs.Parts.{IsHandover, IsPrepFault};
ghost use Rattle.bl_load.specs.PlanContents.{handover_in};

use crate::entry::Entry;
use crate::handoff::Handoff;
use crate::loading::load;
use crate::preparing::prepare;
use crate::refusal::PrepFault;
use bl_map::Machine;
use bl_mem::{ByteView, PhysMem, Views};
use std::alloc::Allocator;

/// Loads one entry into memory, out of files that lie beside it: what a hypervisor does before it
/// enters its guest, with no menu, no fallback and no pool. `files` are the entry's files in order,
/// the kernel first. Each byte of a part is written once, straight from the file where the file
/// lends it.
///
/// The refusals are those of `prepare`, in its order. After one memory has the bytes that it had.
/// Want of memory is answered for a growth that was refused, and where memory can't give room to a
/// part's range.
pub fn load_entry<A: Allocator + Copy, M: PhysMem, V: ByteView>(
    alloc: A,
    machine: &Machine<A>,
    memory: &mut M,
    entry: &Entry<A>,
    files: &[V],
) -> Result<Handoff<A>, PrepFault>
    requires files { length files.now ≡ file_count entry.now }
    requires limits { IsWithinLimits entry.now }
    requires size { machine.now.size ≤ length (M.bytes memory.old) }

    // What memory holds at the handoff's places is what the rules give for this entry.
    ensures handover { IfOk result (λ handoff. IsHandover machine.now
        (value_of (map V.bytes files.now) entry.now)
        (handover_in (M.bytes memory.new) handoff.protocol handoff.registers handoff.places)) }

    // Memory is what it was, with those parts written into it; by address: all that no part covers
    // is as it was.
    ensures after { IfOk result (λ handoff. M.bytes memory.new ≡ overwrite_parts
        (handover_in (M.bytes memory.new) handoff.protocol handoff.registers handoff.places).parts
        (M.bytes memory.old)) }
    ensures elsewhere { IfOk result (λ handoff. (a : ℕ)
        → All (λ place. ¬ Covers place a) handoff.places
        → slice_index (M.bytes memory.new) a ≡ slice_index (M.bytes memory.old) a) }
    ensures inside { IfOk result (λ handoff.
        All (λ place. place.address + place.length ≤ machine.now.size) handoff.places) }

    ensures fault { IfErr result (λ fault. IsPrepFault machine.now
        (value_of (map V.bytes files.now) entry.now) fault) }
    ensures unchanged { IfErr result (λ _. M.bytes memory.new ≡ M.bytes memory.old) }
    ensures kept { KeepsSizeAndRoom M.lender M.bytes M.room memory.old memory.new }
{
    let plan = prepare(alloc, machine, entry, files)?;
    memory.reserve(plan.ranges())?;
    Ok(load(memory, plan, &Views { views: files }))
}
