//! What a load of an entry would hand over is told to C, which gives no memory to load into, and of
//! the files after the kernel the lengths alone.
ghost use Rattle.std.specs.Prelude.{◌≡◌, ℕ, ◌≤◌, List, length, map, IfOk, IfErr, OnOk, Result};
ghost use Rattle.bl_load.specs.EntryValue.{value_of, file_count, IsWithinLimits};
ghost use Rattle.bl_load.specs.HandoffFacts.{HandoffFacts};
ghost use Rattle.bl_load.specs.LeanPlans.{IsLean};
ghost use Rattle.bl_load.specs.Loadable.{lengths_of, IsLoadable};
ghost use Rattle.bl_load.specs.Origins.{planned_origin, AreOrigins};
ghost use Rattle.bl_load.specs.Parts.{IsHandover, IsPrepFault};
ghost use Rattle.bl_load.specs.PlanContents.{handoff_by, handover_by};
ghost use Rattle.c_records.specs.Given.{files_given};
ghost use Rattle.c_abi.specs.Load.{IsEntryFault};
ghost use Rattle.c_records.specs.EntryFaults.{IsEntrySound};
ghost use Rattle.c_abi.specs.Prepare.{AreFilesOf, IsHandoffOf, IsPrepared, IsNotPrepared};
ghost use Rattle.c_abi.specs.Prepare.{IsGivenPrepareEnd};
ghost use Rattle.c_records.specs.LoadTold.{TellsEnd};
ghost use Rattle.c_records.specs.declared.load_fault.LoadFault.{LoadFault};

use bl_load::{Entry, Plan, PrepFault, prepare_by_lengths};
use bl_map::Machine;
use bl_mem::SliceView;
use bl_plan::MAX_PARTS;
use c_records::{
    EntryRecord, HandoffRecord, LoadFault, MachineRecord, Misuse, PlaceRecord, RefusalRecord,
    lengths_beside, load_fault_of_given, load_fault_of_prep, machine_of, take_entry,
    tell_load_fault, tell_plan,
};
use std::alloc::Allocator;

/// Prepares an entry by its kernel and by the lengths of its other files.
pub(crate) fn prepare_row<A: Allocator + Copy>(
    alloc: A,
    machine: &Machine<A>,
    entry: &Entry<A>,
    row: &EntryRecord,
) -> Result<Plan<A>, PrepFault>
    requires count { file_count entry.now ≡ length (files_given row.now) }
    requires limits { IsWithinLimits entry.now }
    ensures handover { IfOk result (λ plan. (texts : List (List ℕ)) → AreFilesOf row.now texts
        → IsHandover machine.now (value_of texts entry.now) (handover_by texts plan)) }
    ensures loadable { IfOk result (λ plan. (texts : List (List ℕ)) → AreFilesOf row.now texts
        → IsLoadable (lengths_of texts) machine.now.size plan) }
    ensures lean { IfOk result (λ plan. IsLean plan.parts.items) }
    ensures origins { IfOk result (λ plan. (texts : List (List ℕ)) → AreFilesOf row.now texts
        → AreOrigins machine.now (value_of texts entry.now)
        (map planned_origin plan.parts.items)) }
    ensures fault { IfErr result (λ fault. (texts : List (List ℕ)) → AreFilesOf row.now texts
        → IsPrepFault machine.now (value_of texts entry.now) fault) }
{
    let lengths = lengths_beside(alloc, row)?;
    let kernel = SliceView::new(row.kernel.bytes);
    prepare_by_lengths(alloc, machine, entry, &kernel, &lengths)
}

/// Prepares an entry on a machine.
fn prepare_given<A: Allocator + Copy>(
    alloc: A,
    machine: &Machine<A>,
    row: &EntryRecord,
) -> Result<Plan<A>, LoadFault>
    ensures handed { IfOk result (λ plan. (texts : List (List ℕ)) → AreFilesOf row.now texts
        → IsHandoffOf machine.now row.now texts (handoff_by plan)) }
    ensures sound { OnOk result (IsEntrySound row.now) }
    ensures few { IfOk result (λ plan. length plan.parts.items ≤ 256) }
    ensures fault { IfErr result (λ fault. (texts : List (List ℕ)) → AreFilesOf row.now texts
        → IsEntryFault machine.now row.now texts 0 fault) }
{
    let entry = match take_entry(alloc, row) {
        Ok(entry) => entry,
        Err(fault) => return Err(load_fault_of_given(fault)),
    };
    match prepare_row(alloc, machine, &entry, row) {
        Ok(plan) => Ok(plan),
        Err(fault) => Err(load_fault_of_prep(fault)),
    }
}

/// Prepares an entry on the machine that is given, with room for so many places.
fn prepare_entry<A: Allocator + Copy>(
    alloc: A,
    machine: &MachineRecord,
    entry: &EntryRecord,
    room: usize,
) -> Result<Plan<A>, LoadFault>
    ensures prepared { IfOk result (λ plan. (texts : List (List ℕ)) → AreFilesOf entry.now texts
        → IsPrepared machine.now entry.now texts room (handoff_by plan)) }
    ensures few { IfOk result (λ plan. length plan.parts.items ≤ 256) }
    ensures room { OnOk result (MAX_PARTS ≤ room) }
    ensures fault { IfErr result (λ fault. (texts : List (List ℕ)) → AreFilesOf entry.now texts
        → IsNotPrepared machine.now entry.now texts room fault) }
{
    if room < MAX_PARTS {
        return Err(LoadFault::Misused(Misuse::SmallRoom));
    }
    let made = match machine_of(alloc, machine) {
        Ok(made) => made,
        Err(fault) => return Err(load_fault_of_given(fault)),
    };
    prepare_given(alloc, &made, entry)
}

/// Tells what a load of an entry would hand over, or why it would not, whatever bytes the files
/// after the kernel hold: their lengths are looked at. The checks are those of `load_told`, in its
/// order, but for the one of memory.
pub fn prepare_told<A: Allocator + Copy>(
    alloc: A,
    machine: &MachineRecord,
    entry: &EntryRecord,
    told: &mut HandoffRecord,
    places: &mut [PlaceRecord],
    refusal: &mut RefusalRecord,
) -> u32
    ensures { (end : Result HandoffFacts LoadFault)
        × ((texts : List (List ℕ)) → AreFilesOf entry.now texts
        → IsGivenPrepareEnd machine.now entry.now texts (length places.old) end)
        × TellsEnd end result told.old told.new places.old places.new refusal.old refusal.new }
{
    match prepare_entry(alloc, machine, entry, places.len()) {
        Ok(plan) => {
            tell_plan(&plan, told, places);
            0
        }
        Err(fault) => tell_load_fault(fault, refusal),
    }
}
