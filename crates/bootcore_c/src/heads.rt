//! The head of an image for C: it is read.
ghost use Rattle.std.specs.Prelude.{Result};
ghost use Rattle.bl_image.specs.Front.{FrontFacts};
ghost use Rattle.bl_image.specs.declared.fault.ImageFault.{ImageFault};
ghost use Rattle.c_abi.specs.Heads.{IsHeadEnd, TellsHeadEnd};

use c_abi::head_told;
use c_records::{HandoffRecord, PlaceRecord, RefusalRecord};
use std::alloc::Global;

/// The head of an image is read, with its records.
#[unsafe(no_mangle)]
pub extern "C" fn bootcore_image_head_read_arrays(
    alloc: Global,
    head: &[u8],
    told: &mut HandoffRecord,
    places: &mut [PlaceRecord],
    fault: &mut RefusalRecord,
) -> u32
    ensures { (end : Result FrontFacts ImageFault)
        × IsHeadEnd head.now end
        × TellsHeadEnd end result told.old told.new places.old places.new fault.old fault.new }
{
    head_told(alloc, head, told, places, fault)
}
