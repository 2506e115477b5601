//! Hints on usable regions that are not made of whole frames, line by line.

use crate::say;
use bl_map::{FRAME_SIZE, Region};
use std::alloc::{AllocError, Allocator};

/// Whether the region begins within a frame.
fn begins_in_frame(region: &Region) -> bool {
    region.base % FRAME_SIZE != 0
}

/// Whether the region ends within a frame.
fn ends_in_frame(region: &Region) -> bool {
    (region.base % FRAME_SIZE + region.length % FRAME_SIZE) % FRAME_SIZE != 0
}

fn say_begin_hint<A: Allocator + Copy>(
    out: &mut Vec<u8, A>,
    index: u64,
    region: &Region,
) -> Result<(), AllocError> {
    if begins_in_frame(region) {
        return say!(out, "hint: region {index} begins within a frame\n");
    }
    Ok(())
}

fn say_end_hint<A: Allocator + Copy>(
    out: &mut Vec<u8, A>,
    index: u64,
    region: &Region,
) -> Result<(), AllocError> {
    if ends_in_frame(region) {
        return say!(out, "hint: region {index} ends within a frame\n");
    }
    Ok(())
}

/// Appends the hints on a region, if it is usable.
fn say_region_hint<A: Allocator + Copy>(
    out: &mut Vec<u8, A>,
    index: u64,
    region: &Region,
) -> Result<(), AllocError> {
    if region.kind.number() != 1 {
        return Ok(());
    }
    say_begin_hint(out, index, region)?;
    say_end_hint(out, index, region)
}

fn say_region_hint_at<A: Allocator + Copy>(
    out: &mut Vec<u8, A>,
    regions: &[Region],
    index: usize,
) -> Result<(), AllocError> {
    match regions.get(index) {
        Some(region) => say_region_hint(out, index as u64, region),
        None => Ok(()),
    }
}

/// Appends the hints on regions, in order.
pub fn say_region_hints<A: Allocator + Copy>(
    out: &mut Vec<u8, A>,
    regions: &[Region],
) -> Result<(), AllocError> {
    for index in 0..regions.len() {
        say_region_hint_at(out, regions, index)?;
    }
    Ok(())
}
