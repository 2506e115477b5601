//! One entry for C: it comes into memory, or what would is told, or the steps to it, or which part
//! finds no place.
ghost use Rattle.std.specs.Prelude.{ℕ, List, length, Option, Result};
ghost use Rattle.bl_mem.specs.Memory.{memory_from};
ghost use Rattle.bl_load.specs.HandoffFacts.{HandoffFacts};
ghost use Rattle.bl_plan.specs.declared.part.Row.{Row};
ghost use Rattle.c_abi.specs.Load.{IsGivenLoadEnd};
ghost use Rattle.c_records.specs.LoadTold.{TellsEnd};
ghost use Rattle.c_abi.specs.Plan.{PlanFacts, IsGivenPlanEnd};
ghost use Rattle.c_abi.specs.PlanTold.{TellsPlan};
ghost use Rattle.c_abi.specs.Prepare.{AreFilesOf, IsGivenPrepareEnd};
ghost use Rattle.c_abi.specs.UnplacedPart.{IsSoughtEnd};
ghost use Rattle.c_abi.specs.UnplacedTold.{TellsUnplaced};
ghost use Rattle.c_records.specs.declared.load_fault.LoadFault.{LoadFault};

use c_abi::{load_told, plan_told, prepare_told, unplaced_told};
use c_records::{
    EntryRecord, HandoffRecord, MachineRecord, PlaceRecord, PlanCountsRecord, RefusalRecord,
    StepRecord, UnplacedRecord,
};
use std::alloc::Global;

/// One entry comes into memory that begins at a base.
#[unsafe(no_mangle)]
pub extern "C" fn bootcore_load_arrays(
    alloc: Global,
    memory: &mut [u8],
    base: u32,
    machine: &MachineRecord<'_>,
    entry: &EntryRecord<'_>,
    told: &mut HandoffRecord,
    places: &mut [PlaceRecord],
    refusal: &mut RefusalRecord,
) -> u32
    ensures { (end : Result HandoffFacts LoadFault)
        × IsGivenLoadEnd machine.now entry.now (length places.old) base
        (memory_from base memory.old) (memory_from base memory.new) end
        × TellsEnd end result told.old told.new places.old places.new refusal.old refusal.new }
{
    load_told(alloc, memory, base, machine, entry, told, places, refusal)
}

/// What a load of an entry would hand over is told.
#[unsafe(no_mangle)]
pub extern "C" fn bootcore_prepare_arrays(
    alloc: Global,
    machine: &MachineRecord<'_>,
    entry: &EntryRecord<'_>,
    told: &mut HandoffRecord,
    places: &mut [PlaceRecord],
    refusal: &mut RefusalRecord,
) -> u32
    ensures { (end : Result HandoffFacts LoadFault)
        × ((texts : List (List ℕ)) → AreFilesOf entry.now texts
        → IsGivenPrepareEnd machine.now entry.now texts (length places.old) end)
        × TellsEnd end result told.old told.new places.old places.new refusal.old refusal.new }
{
    prepare_told(alloc, machine, entry, told, places, refusal)
}

/// The steps that load an entry are told, whose files beside the kernel are known by their lengths.
#[unsafe(no_mangle)]
pub extern "C" fn bootcore_plan_arrays(
    alloc: Global,
    machine: &MachineRecord<'_>,
    entry: &EntryRecord<'_>,
    told: &mut HandoffRecord,
    counts: &mut PlanCountsRecord,
    places: &mut [PlaceRecord],
    steps: &mut [StepRecord],
    own: &mut [u8],
    refusal: &mut RefusalRecord,
) -> u32
    ensures { (end : Result PlanFacts LoadFault)
        × IsGivenPlanEnd machine.now entry.now end
        × TellsPlan end result
        (record {
          handoff = told.old;
          counts = counts.old;
          places = places.old;
          steps = steps.old;
          own = own.old;
        })
        (record {
          handoff = told.new;
          counts = counts.new;
          places = places.new;
          steps = steps.new;
          own = own.new;
        })
        refusal.old refusal.new }
{
    plan_told(
        alloc, machine, entry, told, counts, places, steps, own, refusal,
    )
}

/// Which part of an entry finds no place is told, or that each has one.
#[unsafe(no_mangle)]
pub extern "C" fn bootcore_unplaced_record(
    alloc: Global,
    machine: &MachineRecord<'_>,
    entry: &EntryRecord<'_>,
    told: &mut UnplacedRecord,
    refusal: &mut RefusalRecord,
) -> u32
    ensures { (end : Result (Option Row) LoadFault)
        × IsSoughtEnd machine.now entry.now end
        × TellsUnplaced end result told.old told.new refusal.old refusal.new }
{
    unplaced_told(alloc, machine, entry, told, refusal)
}
