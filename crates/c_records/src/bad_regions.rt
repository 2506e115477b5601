//! Which region a misuse of a machine's regions is about.
ghost use Rattle.std.specs.Prelude.{MatchBool};
ghost use Rattle.c_records.specs.BadRegions.{EndsTooHigh, HasNoKind, IsBadRegion, IsFirstBad};

use crate::given_checks::{have_kinds, is_kind};
use crate::given_records::RegionRecord;
use bl_map::MAX_REGION_END;

/// Whether a region ends above 2^52.
fn ends_too_high(region: &RegionRecord) -> bool
    ensures { MatchBool result (EndsTooHigh region.now) (¬ EndsTooHigh region.now) }
{
    region.base > MAX_REGION_END || region.length > MAX_REGION_END - region.base
}

/// The first region that ends above 2^52, or how many there are.
fn first_high(regions: &[RegionRecord]) -> usize
    ensures { IsFirstBad EndsTooHigh regions.now result }
{
    for (index, region) in regions.iter().enumerate() {
        if ends_too_high(region) {
            return index;
        }
    }
    regions.len()
}

/// The first region whose kind is none, or how many there are.
fn first_without_kind(regions: &[RegionRecord]) -> usize
    ensures { IsFirstBad HasNoKind regions.now result }
{
    for (index, region) in regions.iter().enumerate() {
        if !is_kind(region.kind) {
            return index;
        }
    }
    regions.len()
}

/// The index of the first region that no machine may have: of those whose kind is none, or else of
/// those that end too high. If there is none, how many regions there are.
pub fn bad_region(regions: &[RegionRecord]) -> usize
    ensures { IsBadRegion regions.now result }
{
    if have_kinds(regions) {
        return first_high(regions);
    }
    first_without_kind(regions)
}
