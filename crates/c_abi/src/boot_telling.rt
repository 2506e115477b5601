//! What C is told of the end of a boot.
ghost use Rattle.std.specs.Prelude.{◌≡◌, ◌≤◌, List, length, Ok, OnOk};
ghost use Rattle.bl_session.specs.session.Phases.{outcome_facts, fault_facts};
ghost use Rattle.c_abi.specs.Boot.{typed_end};
ghost use Rattle.c_abi.specs.BootTold as spec;
ghost use Rattle.c_records.specs.EntryFaults.{load_fault_of_given};
ghost use Rattle.c_records.specs.Status.{fault_status};
ghost use Rattle.c_abi.specs.internal.Tellings.{telling};
ghost use Rattle.c_records.specs.declared.end_records.HandoffRecord.{HandoffRecord};
ghost use Rattle.c_records.specs.declared.end_records.PlaceRecord.{PlaceRecord};

use bl_session::{BootFault, Outcome, RefusedEntry};
use c_records::{
    GivenFault, HandoffRecord, PlaceRecord, RefusalRecord, handoff_told, refusal_record,
    tell_places,
};
use std::alloc::Allocator;

/// Tells refusals in the first records, as many as there is room for.
fn tell_refusals(refused: &[RefusedEntry], refusals: &mut [RefusalRecord])
    ensures { refusals.new ≡ spec.refusals_told refused.now refusals.old }
{
    for index in 0..refused.len().min(refusals.len()) {
        let one = refused[index];
        refusals[index] = refusal_record(one.entry, one.refusal);
    }
}

/// The status of why what C gives is not taken.
pub fn given_status(fault: GivenFault) -> u32
    ensures { result ≡ fault_status (load_fault_of_given fault) }
{
    match fault {
        GivenFault::Misused(misuse) => misuse.status(),
        GivenFault::NoMemory => 4,
    }
}

/// Tells what is handed over, with its status.
pub(crate) fn tell_outcome<A: Allocator>(
    outcome: &Outcome<A>,
    told: &mut HandoffRecord,
    places: &mut [PlaceRecord],
    refusals: &mut [RefusalRecord],
    count: &mut u64,
) -> u32
    requires { 256 ≤ length places.old }
    ensures { spec.TellsBoot (Ok (outcome_facts outcome.now)) result
        (telling told.old places.old refusals.old count.old)
        (telling told.new places.new refusals.new count.new) }
{
    // For the proof: there is room for each place.
    outcome.handoff.len();
    tell_places(&outcome.handoff, places);
    *told = handoff_told(outcome.entry, &outcome.handoff);
    tell_refusals(&outcome.refused, refusals);
    *count = outcome.refused.len() as u64;
    0
}

/// Tells why nothing is handed over, with its status.
pub(crate) fn tell_boot_fault<A: Allocator>(
    fault: &BootFault<A>,
    refusals: &mut [RefusalRecord],
    count: &mut u64,
) -> u32
    ensures { (handoff : HandoffRecord) → (places : List PlaceRecord)
        → spec.TellsBoot (Ok (fault_facts fault.now)) result
        (telling handoff places refusals.old count.old)
        (telling handoff places refusals.new count.new) }
{
    match fault {
        BootFault::NoEntryLeft(refused) => {
            tell_refusals(refused, refusals);
            *count = refused.len() as u64;
            1
        }
        BootFault::NoMemory => 4,
    }
}

/// Tells the end of a boot, with its status.
pub(crate) fn tell_boot<A: Allocator>(
    end: Result<Result<Outcome<A>, BootFault<A>>, GivenFault>,
    told: &mut HandoffRecord,
    places: &mut [PlaceRecord],
    refusals: &mut [RefusalRecord],
    count: &mut u64,
) -> u32
    requires { OnOk end (256 ≤ length places.old) }
    ensures { spec.TellsBoot (typed_end end) result
        (telling told.old places.old refusals.old count.old)
        (telling told.new places.new refusals.new count.new) }
{
    match end {
        Ok(Ok(outcome)) => tell_outcome(&outcome, told, places, refusals, count),
        Ok(Err(fault)) => tell_boot_fault(&fault, refusals, count),
        Err(fault) => given_status(fault),
    }
}
