//! An image in memory is walked.
ghost use Rattle.std.specs.Prelude.{MatchResult, Result};
ghost use Rattle.bl_image.specs.ImageFaults.{image_fault};
ghost use Rattle.bl_image.specs.ImageHandover.{IsImage};
ghost use Rattle.bl_image.specs.SourceFacts.{IsBytesFault};
ghost use Rattle.bl_image.specs.declared.version.Version.{Version};
ghost use Rattle.c_records.specs.SeenTold.{WalkRecordsFacts};
ghost use Rattle.c_abi.specs.Walk as ends;
ghost use Rattle.c_records.specs.WalkTold as spec;
ghost use Rattle.c_records.specs.declared.seen_records.WalkStop.{WalkStop};

use bl_image::{Image, ImageFault, IoSource, read_image};
use bl_walk::{WalkFault, walk};
use c_records::{
    RefusalRecord, RegionRecord, SeenFirmwareRecord, SeenModuleRecord, SeenPartRecord, SeenRecord,
    SeenVectors, WalkStop, records_of, stop_status, stop_told, tell_records, tell_walk,
};
use std::alloc::Allocator;

/// The image that these bytes spell.
fn read_bytes<A: Allocator + Copy>(alloc: A, bytes: &[u8]) -> Result<Image<A>, ImageFault>
    ensures { MatchResult result
        (λ image. (version : Version) × IsImage version bytes.now image)
        (IsBytesFault image_fault bytes.now) }
{
    let mut source = IoSource::new(bytes);
    read_image(alloc, &mut source)
}

/// What a kernel sees in the image that these bytes spell, or why nothing.
fn walk_bytes<A: Allocator + Copy>(alloc: A, bytes: &[u8]) -> Result<SeenVectors<A>, WalkStop>
    ensures { ends.IsWalkEnd bytes.now result }
{
    let image = match read_bytes(alloc, bytes) {
        Ok(image) => image,
        Err(fault) => return Err(WalkStop::NoImage(fault)),
    };
    let seen = match walk(alloc, &image) {
        Ok(seen) => seen,
        Err(fault) => return Err(WalkStop::NotWalked(fault)),
    };
    match records_of(alloc, &seen) {
        Ok(records) => Ok(records),
        Err(_) => Err(WalkStop::NotWalked(WalkFault::NoMemory)),
    }
}

/// Walks an image in memory, and tells what a kernel sees in it, or the fault.
pub fn walk_told<A: Allocator + Copy>(
    alloc: A,
    bytes: &[u8],
    told: &mut SeenRecord,
    fault: &mut RefusalRecord,
) -> u32
    ensures { (end : Result WalkRecordsFacts WalkStop)
        × ends.IsWalkEnd bytes.now end
        × spec.TellsWalk end result told.old told.new fault.old fault.new }
{
    let end = walk_bytes(alloc, bytes);
    tell_walk(end, told, fault)
}

/// Walks an image in memory, and tells all that a kernel sees in it, or the fault.
///
/// The summary is told even if an array has too little room, and nothing beside it then: it has the
/// numbers of elements that are wanted.
pub fn walk_all_told<A: Allocator + Copy>(
    alloc: A,
    bytes: &[u8],
    told: &mut SeenRecord,
    kernel: &mut [SeenPartRecord],
    modules: &mut [SeenModuleRecord],
    runs: &mut [RegionRecord],
    text: &mut [u8],
    firmware: &mut SeenFirmwareRecord,
    fault: &mut RefusalRecord,
) -> u32
    ensures { (end : Result WalkRecordsFacts WalkStop)
        × ends.IsWalkEnd bytes.now end
        × spec.TellsWalkAll end result
        (record {
          seen = told.old;
          kernel = kernel.old;
          modules = modules.old;
          runs = runs.old;
          text = text.old;
          firmware = firmware.old;
        })
        (record {
          seen = told.new;
          kernel = kernel.new;
          modules = modules.new;
          runs = runs.new;
          text = text.new;
          firmware = firmware.new;
        })
        fault.old fault.new }
{
    let end = walk_bytes(alloc, bytes);
    match end {
        Ok(records) => tell_records(&records, told, kernel, modules, runs, text, firmware),
        Err(stop) => {
            *fault = stop_told(stop);
            stop_status(stop)
        }
    }
}
