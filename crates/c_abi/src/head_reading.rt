//! The head of an image, with its records, is read.
ghost use Rattle.std.specs.Prelude.{◌≡◌, ◌≤◌, length, Result};
ghost use Rattle.bl_image.specs.Front.{FrontFacts};
ghost use Rattle.bl_image.specs.declared.fault.ImageFault.{ImageFault};
ghost use Rattle.c_abi.specs.Heads as spec;
ghost use Rattle.c_records.specs.LoadTold.{handoff_told, places_told};

use bl_image::{Front, ImageFault, IoSource, read_front};
use bl_plan::Place;
use c_records::{
    HandoffRecord, Misuse, PlaceRecord, RefusalRecord, WalkStop, place_told, registers_told,
    stop_status, stop_told,
};
use std::alloc::Allocator;

/// What these bytes say as the beginning of an image.
fn read_bytes<A: Allocator + Copy>(alloc: A, bytes: &[u8]) -> Result<Front<A>, ImageFault>
    ensures { spec.IsHeadEnd bytes.now result }
{
    let mut source = IoSource::new(bytes);
    read_front(alloc, &mut source)
}

/// Tells places in the first records.
fn tell_places_read(read: &[Place], places: &mut [PlaceRecord])
    requires { length read.now ≤ length places.old }
    ensures { places.new ≡ places_told read.now places.old }
{
    for index in 0..read.len() {
        places[index] = place_told(read[index]);
    }
}

/// What is handed over, beside the places.
fn handoff_read<A: Allocator>(front: &Front<A>) -> HandoffRecord
    requires { length front.now.handoff.places ≤ 256 }
    ensures { result ≡ handoff_told 0 front.now.handoff }
{
    HandoffRecord {
        entry: 0,
        protocol: front.protocol.number(),
        places: front.places.len() as u32,
        reserved: 0,
        registers: registers_told(&front.registers),
    }
}

/// Tells what was read, with its status.
fn tell_head<A: Allocator>(
    front: &Front<A>,
    told: &mut HandoffRecord,
    places: &mut [PlaceRecord],
) -> u32
    requires { length front.now.handoff.places ≤ 256 }
    ensures { spec.TellsHead front.now.handoff result told.new places.old places.new }
{
    *told = handoff_read(front);
    if places.len() < front.places.len() {
        return Misuse::SmallRoom.status();
    }
    tell_places_read(&front.places, places);
    0
}

/// Reads the head of an image, with its records, and tells the handoff and the places; or its first
/// fault. The bytes of the parts need not follow, and are not looked at. With too little room for
/// the places the handoff alone is told: it has their number.
pub fn head_told<A: Allocator + Copy>(
    alloc: A,
    bytes: &[u8],
    told: &mut HandoffRecord,
    places: &mut [PlaceRecord],
    fault: &mut RefusalRecord,
) -> u32
    ensures { (end : Result FrontFacts ImageFault)
        × spec.IsHeadEnd bytes.now end
        × spec.TellsHeadEnd end result told.old told.new places.old places.new
        fault.old fault.new }
{
    match read_bytes(alloc, bytes) {
        Ok(front) => tell_head(&front, told, places),
        Err(found) => {
            *fault = stop_told(WalkStop::NoImage(found));
            stop_status(WalkStop::NoImage(found))
        }
    }
}
