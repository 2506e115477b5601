//! Regions for C: which one is bad.
ghost use Rattle.c_records.specs.BadRegions.{IsBadRegion};

use c_records::{RegionRecord, bad_region};

/// The index of the first region that no machine may have, or how many regions there are.
#[unsafe(no_mangle)]
pub extern "C" fn bootcore_bad_region_index(regions: &[RegionRecord]) -> usize
    ensures { IsBadRegion regions.now result }
{
    bad_region(regions)
}
