//! An image for C: what a kernel sees in it.
ghost use Rattle.std.specs.Prelude.{Result};
ghost use Rattle.c_records.specs.SeenTold.{WalkRecordsFacts};
ghost use Rattle.c_abi.specs.Walk.{IsWalkEnd};
ghost use Rattle.c_records.specs.WalkTold.{TellsWalk, TellsWalkAll};
ghost use Rattle.c_records.specs.declared.seen_records.WalkStop.{WalkStop};

use c_abi::{walk_all_told, walk_told};
use c_records::{
    RefusalRecord, RegionRecord, SeenFirmwareRecord, SeenModuleRecord, SeenPartRecord, SeenRecord,
};
use std::alloc::Global;

/// An image in memory is walked.
#[unsafe(no_mangle)]
pub extern "C" fn bootcore_walk_array(
    alloc: Global,
    image: &[u8],
    told: &mut SeenRecord,
    fault: &mut RefusalRecord,
) -> u32
    ensures { (end : Result WalkRecordsFacts WalkStop)
        × IsWalkEnd image.now end
        × TellsWalk end result told.old told.new fault.old fault.new }
{
    walk_told(alloc, image, told, fault)
}

/// An image in memory is walked, and all that a kernel sees is told.
#[unsafe(no_mangle)]
pub extern "C" fn bootcore_walk_all_arrays(
    alloc: Global,
    image: &[u8],
    told: &mut SeenRecord,
    kernel: &mut [SeenPartRecord],
    modules: &mut [SeenModuleRecord],
    runs: &mut [RegionRecord],
    text: &mut [u8],
    firmware: &mut SeenFirmwareRecord,
    fault: &mut RefusalRecord,
) -> u32
    ensures { (end : Result WalkRecordsFacts WalkStop)
        × IsWalkEnd image.now end
        × TellsWalkAll end result
        (record {
          seen = told.old;
          kernel = kernel.old;
          modules = modules.old;
          runs = runs.old;
          text = text.old;
          firmware = firmware.old;
        })
        (record {
          seen = told.new;
          kernel = kernel.new;
          modules = modules.new;
          runs = runs.new;
          text = text.new;
          firmware = firmware.new;
        })
        fault.old fault.new }
{
    walk_all_told(
        alloc, image, told, kernel, modules, runs, text, firmware, fault,
    )
}
