//! What C is told of the end of a load.
ghost use Rattle.std.specs.Prelude.{◌≡◌, ◌≤◌, length, map, OnOk};
ghost use Rattle.bl_load.specs.PlannedPlaces.{planned_place};
ghost use Rattle.bl_load.specs.PlanContents.{handoff_by, places_of};
ghost use Rattle.c_records.specs.Status.{fault_status};
ghost use Rattle.c_records.specs.LoadTold as spec;

use crate::end_records::{HandoffRecord, PlaceRecord, RefusalRecord};
use crate::load_fault::LoadFault;
use crate::refusal_telling::refusal_record;
use crate::registers_record::registers_told;
use bl_load::{Handoff, Place, Plan, PlannedPart};
use std::alloc::Allocator;

/// A place as C is told it: its role by number, and its range in memory, in bytes.
pub fn place_told(place: Place) -> PlaceRecord
    ensures { result ≡ spec.place_told place }
{
    PlaceRecord {
        role: place.role.number(),
        index: place.index,
        address: place.address,
        length: place.length,
        reserved: 0,
    }
}

/// Tells the places of parts in the first records.
fn tell_parts<A: Allocator>(parts: &[PlannedPart<A>], places: &mut [PlaceRecord])
    requires { length parts.now ≤ length places.old }
    ensures { places.new ≡ spec.places_told (map planned_place parts.now) places.old }
{
    for index in 0..parts.len() {
        places[index] = place_told(parts[index].place);
    }
}

/// Tells the places of a handoff in the first records.
pub fn tell_places<A: Allocator>(handoff: &Handoff<A>, places: &mut [PlaceRecord])
    requires { length handoff.now.places ≤ length places.old }
    ensures { places.new ≡ spec.places_told handoff.now.places places.old }
{
    tell_parts(handoff.parts(), places);
}

/// What is handed over of the entry with this index.
pub fn handoff_told<A: Allocator>(entry: u32, handoff: &Handoff<A>) -> HandoffRecord
    ensures { result ≡ spec.handoff_told entry handoff.now }
{
    HandoffRecord {
        entry,
        protocol: handoff.protocol().number(),
        places: handoff.len() as u32,
        reserved: 0,
        registers: registers_told(&handoff.registers()),
    }
}

/// Tells what a plan would hand over.
pub fn tell_plan<A: Allocator>(plan: &Plan<A>, told: &mut HandoffRecord, places: &mut [PlaceRecord])
    requires few { length plan.now.parts.items ≤ 256 }
    requires room { length plan.now.parts.items ≤ length places.old }
    ensures handoff { told.new ≡ spec.handoff_told 0 (handoff_by plan.now) }
    ensures places { places.new ≡ spec.places_told (places_of plan.now) places.old }
{
    tell_parts(plan.parts.as_slice(), places);
    *told = HandoffRecord {
        entry: 0,
        protocol: plan.protocol.number(),
        places: plan.parts.len() as u32,
        reserved: 0,
        registers: registers_told(&plan.registers),
    };
}

/// Tells a fault, with its status.
pub fn tell_load_fault(fault: LoadFault, refusal: &mut RefusalRecord) -> u32
    ensures status { result ≡ fault_status fault }
    ensures refusal { refusal.new ≡ spec.after_fault fault refusal.old }
{
    match fault {
        LoadFault::Misused(misuse) => misuse.status(),
        LoadFault::Refused(refused) => {
            *refusal = refusal_record(0, refused);
            1
        }
        LoadFault::NoMemory => 4,
        LoadFault::Outside => 6,
    }
}

/// Tells the end of a load, with its status.
pub fn tell_end<A: Allocator>(
    end: Result<Handoff<A>, LoadFault>,
    told: &mut HandoffRecord,
    places: &mut [PlaceRecord],
    refusal: &mut RefusalRecord,
) -> u32
    requires { OnOk end (256 ≤ length places.old) }
    ensures { spec.TellsEnd end result told.old told.new places.old places.new
        refusal.old refusal.new }
{
    match end {
        Ok(handoff) => {
            tell_places(&handoff, places);
            *told = handoff_told(0, &handoff);
            0
        }
        Err(fault) => tell_load_fault(fault, refusal),
    }
}
