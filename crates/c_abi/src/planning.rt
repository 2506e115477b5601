//! The steps that load an entry are told to C, which carries them out itself.
ghost use Rattle.std.specs.Prelude.{ℕ, List, All, IfOk, IfErr, OnOk, Result};
ghost use Rattle.bl_load.specs.HandoffFacts.{max_parts};
ghost use Rattle.c_abi.specs.Load.{IsEntryFault};
ghost use Rattle.c_records.specs.EntryFaults.{IsEntrySound};
ghost use Rattle.c_abi.specs.Prepare.{AreFilesOf, IsNotPrepared};
ghost use Rattle.c_abi.specs.Plan.{PlanFacts, IsPlanned, IsGivenPlanEnd};
ghost use Rattle.c_abi.specs.PlanTold.{TellsPlan};
ghost use Rattle.c_abi.specs.internal.Plans.{HasSmallFile, IsPlanOn, plan_facts};
ghost use Rattle.c_abi.specs.internal.TakenEntries.{IsTakenFrom};
ghost use Rattle.c_records.specs.declared.load_fault.LoadFault.{LoadFault};

use crate::plan_steps::SteppedPlan;
use crate::plan_telling::tell_stepped;
use crate::preparing::prepare_row;
use bl_load::Entry;
use bl_map::Machine;
use c_records::{
    EntryRecord, HandoffRecord, LoadFault, MachineRecord, PlaceRecord, PlanCountsRecord,
    RefusalRecord, StepRecord, load_fault_of_given, load_fault_of_prep, machine_of, take_entry,
    tell_load_fault,
};
use std::alloc::Allocator;

/// Plans an entry that was taken on a machine.
fn plan_of_entry<A: Allocator + Copy>(
    alloc: A,
    machine: &Machine<A>,
    entry: &Entry<A>,
    row: &EntryRecord,
) -> Result<SteppedPlan<A>, LoadFault>
    requires { IsTakenFrom row.now entry.now }
    ensures planned { IfOk result (λ made. IsPlanOn machine.now row.now (plan_facts made)) }
    ensures files { IfOk result (λ made. All HasSmallFile made.told.steps.items) }
    ensures fault { IfErr result (λ fault. (texts : List (List ℕ)) → AreFilesOf row.now texts
        → IsEntryFault machine.now row.now texts 0 fault) }
{
    // For the proof: a machine has few runs of memory.
    let _size = machine.size();
    let plan = match prepare_row(alloc, machine, entry, row) {
        Ok(plan) => plan,
        Err(fault) => return Err(load_fault_of_prep(fault)),
    };
    match plan.steps(alloc) {
        Ok(told) => Ok(SteppedPlan { plan, told }),
        Err(_) => Err(LoadFault::NoMemory),
    }
}

/// Plans an entry on a machine.
fn plan_given<A: Allocator + Copy>(
    alloc: A,
    machine: &Machine<A>,
    row: &EntryRecord,
) -> Result<SteppedPlan<A>, LoadFault>
    ensures planned { IfOk result (λ made. IsPlanOn machine.now row.now (plan_facts made)) }
    ensures sound { OnOk result (IsEntrySound row.now) }
    ensures files { IfOk result (λ made. All HasSmallFile made.told.steps.items) }
    ensures fault { IfErr result (λ fault. (texts : List (List ℕ)) → AreFilesOf row.now texts
        → IsEntryFault machine.now row.now texts 0 fault) }
{
    match take_entry(alloc, row) {
        Ok(entry) => plan_of_entry(alloc, machine, &entry, row),
        Err(fault) => Err(load_fault_of_given(fault)),
    }
}

/// Plans an entry on the machine that is given.
fn plan_entry<A: Allocator + Copy>(
    alloc: A,
    machine: &MachineRecord,
    entry: &EntryRecord,
) -> Result<SteppedPlan<A>, LoadFault>
    ensures planned { IfOk result
        (λ made. IsPlanned machine.now entry.now (plan_facts made)) }
    ensures files { IfOk result (λ made. All HasSmallFile made.told.steps.items) }
    ensures fault { IfErr result (λ fault. (texts : List (List ℕ)) → AreFilesOf entry.now texts
        → IsNotPrepared machine.now entry.now texts max_parts fault) }
{
    let made = match machine_of(alloc, machine) {
        Ok(made) => made,
        Err(fault) => return Err(load_fault_of_given(fault)),
    };
    plan_given(alloc, &made, entry)
}

/// Tells the steps that load an entry, before the files beside its kernel have come, or why it
/// would not be loaded. The checks are those of `prepare_told`, in its order, but for that of the
/// room. Then the plan is told if there is room for all its places, steps and own bytes, and else
/// how many there are of each.
pub fn plan_told<A: Allocator + Copy>(
    alloc: A,
    machine: &MachineRecord,
    entry: &EntryRecord,
    told: &mut HandoffRecord,
    counts: &mut PlanCountsRecord,
    places: &mut [PlaceRecord],
    steps: &mut [StepRecord],
    own: &mut [u8],
    refusal: &mut RefusalRecord,
) -> u32
    ensures { (end : Result PlanFacts LoadFault)
        × IsGivenPlanEnd machine.now entry.now end
        × TellsPlan end result
        (record {
          handoff = told.old;
          counts = counts.old;
          places = places.old;
          steps = steps.old;
          own = own.old;
        })
        (record {
          handoff = told.new;
          counts = counts.new;
          places = places.new;
          steps = steps.new;
          own = own.new;
        })
        refusal.old refusal.new }
{
    match plan_entry(alloc, machine, entry) {
        Ok(made) => tell_stepped(&made, told, counts, places, steps, own),
        Err(fault) => tell_load_fault(fault, refusal),
    }
}
