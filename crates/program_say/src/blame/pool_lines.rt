//! The first byte of a bad pool that is not usable, line by line.

use crate::blame::region_hints::say_region_hints;
use crate::blame::unusable::say_unusable;
use bl_map::Machine;
use bl_plan::first_unusable;
use program_desc::Description;
use std::alloc::{AllocError, Allocator};

/// Appends the line of the first byte of the pool that is not usable, if there is one, by a machine
/// of the description's regions and size, and then the hints on regions.
fn say_unusable_in<A: Allocator + Copy, B: Allocator, C: Allocator>(
    out: &mut Vec<u8, A>,
    machine: &Machine<B>,
    description: &Description<C>,
) -> Result<(), AllocError> {
    if description.pool.end < description.pool.start {
        return Ok(());
    }
    match first_unusable(machine, description.pool.start..description.pool.end) {
        None => Ok(()),
        Some(a) => {
            say_unusable(out, description.size, a, machine.kind_at(a))?;
            say_region_hints(out, &description.regions)
        }
    }
}

/// Appends the same for a description whose pool is a bad one.
pub fn say_pool_lines<A: Allocator + Copy, B: Allocator>(
    out: &mut Vec<u8, A>,
    description: &Description<B>,
) -> Result<(), AllocError> {
    let alloc = *out.allocator();
    // No rule but that of the pool is broken, and an empty pool keeps it: memory alone is wanting.
    match Machine::new(alloc, description.size, &description.regions, 0..0) {
        Ok(machine) => say_unusable_in(out, &machine, description),
        Err(_) => Err(AllocError),
    }
}
