//! The core for C: a static library. `include/bootcore.h` says what its callers keep.
#![tactic(auto)]

ghost use Rattle.std.specs.Prelude.{length, Result};
ghost use Rattle.bl_mem.specs.Memory.{memory_from};
ghost use Rattle.bl_session.specs.session.Phases.{PhaseFacts};
ghost use Rattle.c_abi.specs.Boot.{IsGivenBootEnd};
ghost use Rattle.c_abi.specs.BootTold.{TellsBoot};
ghost use Rattle.c_records.specs.declared.given_fault.GivenFault.{GivenFault};

mod digests;
mod heads;
mod one_entry;
mod regions;
mod segments;
mod sessions;
mod walks;

use c_abi::boot_told;
use c_records::{EntryRecord, HandoffRecord, MachineRecord, PlaceRecord, RefusalRecord};
use std::alloc::Global;

/// A menu is booted in memory that begins at a base.
#[unsafe(no_mangle)]
pub extern "C" fn bootcore_boot_arrays(
    alloc: Global,
    memory: &mut [u8],
    base: u32,
    machine: &MachineRecord<'_>,
    entries: &[EntryRecord],
    default: u32,
    fallbacks: &[u32],
    told: &mut HandoffRecord,
    places: &mut [PlaceRecord],
    refusals: &mut [RefusalRecord],
    count: &mut u64,
) -> u32
    ensures { (end : Result PhaseFacts GivenFault)
        × IsGivenBootEnd machine.now entries.now default fallbacks.now
        (length places.old) (memory_from base memory.old) (memory_from base memory.new) end
        × TellsBoot end result
        (record {
          handoff = told.old;
          places = places.old;
          refusals = refusals.old;
          count = count.old;
        })
        (record {
          handoff = told.new;
          places = places.new;
          refusals = refusals.new;
          count = count.new;
        }) }
{
    boot_told(
        alloc, memory, base, machine, entries, default, fallbacks, told, places, refusals, count,
    )
}
