//! Places for a table of parts.
ghost use Rattle.std.specs.Prelude.{◌+◌, ◌≤◌, All, [], IfOk, IfErr};
ghost use Rattle.bl_map.specs.Limits.{usable_limit};
ghost use Rattle.bl_plan.specs.Placed.{ArePlaced, IsWellFormedRow, IsPlacingFault};

use crate::fault::PlanFault;
use crate::part::{Place, Row};
use crate::planner::Planner;
use bl_map::Machine;
use std::alloc::Allocator;

/// The places of these rows, in their order, each row against the places of those before it. Each
/// row has at least one byte, and an alignment from 1 on; lengths and addresses are in bytes. Every
/// place ends at most at 0xFFFFF000.
///
/// The first row that has no place refuses all, and nothing is answered of the rows before it:
/// - `NotUsable`: its address is fixed, and a byte there is not usable, or is avoided.
/// - `Overlap`: its address is fixed, and a byte there belongs to an earlier row.
/// - `NoRoom`: its address is not fixed, and none is permitted.
/// - `NoMemory`: there was no memory for the places. It may come before another fault is found.
///
/// The machine and the rows stay as they are.
pub fn place_rows<A: Allocator + Copy>(
    alloc: A,
    machine: &Machine<A>,
    rows: &[Row],
) -> Result<Vec<Place, A>, PlanFault>
    requires { All IsWellFormedRow rows.now }
    ensures placed { IfOk result (λ places. ArePlaced machine.now [] rows.now places.items) }
    ensures fault { IfErr result (IsPlacingFault machine.now rows.now) }
    ensures below { IfOk result (λ places.
        All (λ place. place.address + place.length ≤ usable_limit) places.items) }
{
    let mut planner = Planner::new(alloc, machine)?;
    let mut places = Vec::new(alloc);
    for row in rows {
        let address = planner.place_row(row)?;
        places.push(Place {
            role: row.role,
            index: row.index,
            address,
            length: row.length,
        })?;
    }
    Ok(places)
}
