//! What C is told of a walk.
ghost use Rattle.std.specs.Prelude.{MatchBool};
ghost use Rattle.c_records.specs.WalkTold as spec;
ghost use Rattle.c_records.specs.WalkTold.{walk_telling};

use crate::array_fronts::put_front;
use crate::end_records::RefusalRecord;
use crate::given_records::RegionRecord;
use crate::misuse::Misuse;
use crate::seen_firmware_records::SeenFirmwareRecord;
use crate::seen_records::{SeenModuleRecord, SeenPartRecord, SeenRecord, WalkStop};
use crate::seen_vectors::SeenVectors;
use crate::walk_stops::{stop_status, stop_told};
use std::alloc::Allocator;

/// Tells the summary, or why nothing is seen, with the status.
pub fn tell_walk<A: Allocator>(
    end: Result<SeenVectors<A>, WalkStop>,
    told: &mut SeenRecord,
    fault: &mut RefusalRecord,
) -> u32
    ensures { spec.TellsWalk end result told.old told.new fault.old fault.new }
{
    match end {
        Ok(records) => {
            *told = records.seen;
            0
        }
        Err(stop) => {
            *fault = stop_told(stop);
            stop_status(stop)
        }
    }
}

/// Whether arrays have room for all that is told.
fn fits_into<A: Allocator>(
    records: &SeenVectors<A>,
    kernel: &[SeenPartRecord],
    modules: &[SeenModuleRecord],
    runs: &[RegionRecord],
    text: &[u8],
) -> bool
    ensures { MatchBool result
        (spec.FitsInto records.now kernel.now modules.now runs.now text.now)
        (¬ spec.FitsInto records.now kernel.now modules.now runs.now text.now) }
{
    if kernel.len() < records.kernel.len() {
        return false;
    }
    if modules.len() < records.modules.len() {
        return false;
    }
    if runs.len() < records.runs.len() {
        return false;
    }
    if text.len() < records.text.len() {
        return false;
    }
    true
}

/// Tells all that is seen, if there is room for it, with the status.
pub fn tell_records<A: Allocator>(
    records: &SeenVectors<A>,
    told: &mut SeenRecord,
    kernel: &mut [SeenPartRecord],
    modules: &mut [SeenModuleRecord],
    runs: &mut [RegionRecord],
    text: &mut [u8],
    firmware: &mut SeenFirmwareRecord,
) -> u32
    ensures { spec.TellsSeen records.now result
        (walk_telling told.old kernel.old modules.old runs.old text.old firmware.old)
        (walk_telling told.new kernel.new modules.new runs.new text.new firmware.new) }
{
    *told = records.seen;
    if !fits_into(records, kernel, modules, runs, text) {
        return Misuse::SmallRoom.status();
    }
    put_front(&records.kernel, kernel);
    put_front(&records.modules, modules);
    put_front(&records.runs, runs);
    put_front(&records.text, text);
    *firmware = records.firmware;
    0
}
