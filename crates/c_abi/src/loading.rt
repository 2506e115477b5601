//! One entry comes into memory of the caller's own.
ghost use Rattle.std.specs.Prelude.{◌≡◌, ◌+◌, ◌≤◌, All, AllPairs, IfOk, IfErr, MatchBool, OnOk};
ghost use Rattle.std.specs.Prelude.{Result, length, map};
ghost use Rattle.bl_mem.specs.Memory.{memory_from};
ghost use Rattle.bl_load.specs.EntryValue.{value_of, file_count, IsWithinLimits};
ghost use Rattle.bl_load.specs.HandoffFacts.{Ascends, HandoffFacts};
ghost use Rattle.bl_load.specs.Loadable.{lengths_of, IsLoadable};
ghost use Rattle.bl_load.specs.PlanContents.{handover_by, places_of};
ghost use Rattle.bl_load.specs.PlannedPlaces.{planned_place};
ghost use Rattle.c_records.specs.Given.{texts_given};
ghost use Rattle.c_abi.specs.Load.{IsEntryLoaded, IsEntryFault, IsGivenLoadEnd};
ghost use Rattle.c_records.specs.EntryFaults.{IsEntrySound};
ghost use Rattle.c_records.specs.LoadTold.{TellsEnd};
ghost use Rattle.c_abi.specs.internal.LoadEnds.{LoadsHandover, LoadsValue};
ghost use Rattle.c_abi.specs.internal.TakenEntries.{IsTakenFrom};
ghost use Rattle.c_records.specs.declared.load_fault.LoadFault.{LoadFault};

use bl_load::{Entry, Handoff, Plan, PlannedPart, load, prepare};
use bl_map::Machine;
use bl_mem::{SliceMemory, SliceView, Views};
use bl_plan::MAX_PARTS;
use c_records::{
    EntryRecord, HandoffRecord, LoadFault, MachineRecord, Misuse, PlaceRecord, RefusalRecord,
    load_fault_of_given, load_fault_of_prep, machine_of, take_entry, tell_end, views_of,
};
use std::alloc::Allocator;

/// Whether the first of parts that ascend begins below an address.
fn begin_below<A: Allocator>(parts: &[PlannedPart<A>], base: u32) -> bool
    requires { AllPairs Ascends (map planned_place parts.now) }
    ensures { MatchBool result (¬ All (λ place. base ≤ place.address) (map planned_place parts.now))
        (All (λ place. base ≤ place.address) (map planned_place parts.now)) }
{
    if parts.is_empty() {
        return false;
    }
    let first = parts[0].place.address;
    if first < base as u64 {
        return true;
    }
    false
}

/// The parts of a plan come into memory that begins at a base. None begins below it, so each has
/// room.
fn load_plan<A: Allocator>(
    memory: &mut [u8],
    base: u32,
    plan: Plan<A>,
    files: &[SliceView<'_>],
) -> Handoff<A>
    requires loadable { IsLoadable (lengths_of (map (λ file. file.bytes.now) files.now))
        (base + length memory.old) plan }
    requires above { All (λ place. base ≤ place.address) (places_of plan) }
    ensures put { LoadsHandover (handover_by (map (λ file. file.bytes.now) files.now) plan)
        (memory_from base memory.old) (memory_from base memory.new) result }
    ensures places { result.places ≡ places_of plan }
{
    let mut own = SliceMemory::from_base(base, memory);
    load(&mut own, plan, &Views { views: files })
}

/// Loads an entry into memory that begins at a base, as `load_entry` does; one that has no room for
/// a part is told so.
fn load_typed<A: Allocator + Copy>(
    alloc: A,
    machine: &Machine<A>,
    memory: &mut [u8],
    base: u32,
    entry: &Entry<A>,
    files: &[SliceView<'_>],
) -> Result<Handoff<A>, LoadFault>
    requires size { machine.now.size ≤ base + length memory.old }
    requires files { length files.now ≡ file_count entry.now }
    requires limits { IsWithinLimits entry.now }
    ensures { LoadsValue machine.now (value_of (map (λ file. file.bytes.now) files.now) entry.now)
        base (memory_from base memory.old) (memory_from base memory.new) result }
{
    let plan = match prepare(alloc, machine, entry, files) {
        Ok(plan) => plan,
        Err(fault) => return Err(load_fault_of_prep(fault)),
    };
    if begin_below(plan.parts.as_slice(), base) {
        return Err(LoadFault::Outside);
    }
    Ok(load_plan(memory, base, plan, files))
}

/// Loads an entry that was taken on a machine.
fn load_of_entry<A: Allocator + Copy>(
    alloc: A,
    machine: &Machine<A>,
    memory: &mut [u8],
    base: u32,
    entry: &Entry<A>,
    row: &EntryRecord,
) -> Result<Handoff<A>, LoadFault>
    requires size { machine.now.size ≤ base + length memory.old }
    requires taken { IsTakenFrom row.now entry.now }
    ensures handed { IfOk result (λ handoff. IsEntryLoaded machine.now row.now base
        (memory_from base memory.old) (memory_from base memory.new) handoff) }
    ensures fault { IfErr result (IsEntryFault machine.now row.now (texts_given row.now) base) }
    ensures unchanged { IfErr result (λ _. memory_from base memory.new
        ≡ memory_from base memory.old) }
{
    let Ok(views) = views_of(alloc, row) else {
        return Err(LoadFault::NoMemory);
    };
    load_typed(alloc, machine, memory, base, entry, &views)
}

/// Loads an entry on a machine.
fn load_given<A: Allocator + Copy>(
    alloc: A,
    machine: &Machine<A>,
    memory: &mut [u8],
    base: u32,
    row: &EntryRecord,
) -> Result<Handoff<A>, LoadFault>
    requires { machine.now.size ≤ base + length memory.old }
    ensures handed { IfOk result (λ handoff. IsEntryLoaded machine.now row.now base
        (memory_from base memory.old) (memory_from base memory.new) handoff) }
    ensures sound { OnOk result (IsEntrySound row.now) }
    ensures fault { IfErr result (IsEntryFault machine.now row.now (texts_given row.now) base) }
    ensures unchanged { IfErr result (λ _. memory_from base memory.new
        ≡ memory_from base memory.old) }
{
    match take_entry(alloc, row) {
        Ok(entry) => load_of_entry(alloc, machine, memory, base, &entry, row),
        Err(fault) => Err(load_fault_of_given(fault)),
    }
}

/// Loads an entry into memory that begins at a base, with room for so many places.
pub(crate) fn load_entry_at<A: Allocator + Copy>(
    alloc: A,
    memory: &mut [u8],
    base: u32,
    machine: &MachineRecord,
    entry: &EntryRecord,
    room: usize,
) -> Result<Handoff<A>, LoadFault>
    ensures end { IsGivenLoadEnd machine.now entry.now room base
        (memory_from base memory.old) (memory_from base memory.new) result }
    ensures room { OnOk result (MAX_PARTS ≤ room) }
{
    if room < MAX_PARTS {
        return Err(LoadFault::Misused(Misuse::SmallRoom));
    }
    let made = match machine_of(alloc, machine) {
        Ok(made) => made,
        Err(fault) => return Err(load_fault_of_given(fault)),
    };
    let end = base as u64 + memory.len() as u64;
    if end < made.size() {
        return Err(LoadFault::Misused(Misuse::BadMemory));
    }
    load_given(alloc, &made, memory, base, entry)
}

/// Loads an entry, and tells what comes of it.
pub fn load_told<A: Allocator + Copy>(
    alloc: A,
    memory: &mut [u8],
    base: u32,
    machine: &MachineRecord,
    entry: &EntryRecord,
    told: &mut HandoffRecord,
    places: &mut [PlaceRecord],
    refusal: &mut RefusalRecord,
) -> u32
    ensures { (end : Result HandoffFacts LoadFault)
        × IsGivenLoadEnd machine.now entry.now (length places.old) base
        (memory_from base memory.old) (memory_from base memory.new) end
        × TellsEnd end result told.old told.new places.old places.new refusal.old refusal.new }
{
    let room = places.len();
    let end = load_entry_at(alloc, memory, base, machine, entry, room);
    tell_end(end, told, places, refusal)
}
