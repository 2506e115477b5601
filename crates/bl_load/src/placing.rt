//! The parts of an entry whose kernel was read, at their places.
ghost use Rattle.std.specs.Prelude.{◌≡◌, ◌≢◌, ◌<◌, ◌+◌, ◌^◌, Some, All, IfOk, IfErr, map};
ghost use Rattle.bl_load.specs.Rows as table;
ghost use Rattle.bl_plan.specs.Placed.{place_range};
ghost use Rattle.bl_plan.specs.declared.fault.PlanFault.TheVariants.{Overlap};
ghost use Rattle.bl_load.specs.internal.Placing as kept;
ghost use Rattle.bl_load.specs.internal.Placing.{IsPlaceFault};
ghost use Rattle.bl_load.specs.PlannedPlaces.{planned_place};
ghost use Rattle.bl_load.specs.internal.CheckedEntries.{value_of_files, IsReadWithFiles};
ghost use Rattle.bl_load.specs.internal.Plans.{IsPlacedPlan};

use crate::checked_entry::CheckedEntry;
use crate::loadable_kernel::LoadableKernel;
use crate::parts::parts_at;
use crate::plan::{Plan, PlannedPart};
use crate::refusal::{PrepFault, Refusal};
use bl_mem::ByteView;
use bl_plan::{PlanFault, in_order, place_rows};
use std::alloc::{AllocError, Allocator};
use std::ops::Range;

/// A fault of placing as one of preparing. The parts of a kernel that was read don't overlap.
fn as_prep_fault(fault: PlanFault) -> PrepFault
    requires { fault ≢ Overlap }
    ensures { kept.as_prep_fault fault ≡ Some result }
{
    match fault {
        PlanFault::NotUsable => PrepFault::Refused(Refusal::NotUsable),
        PlanFault::Overlap => unreachable!(),
        PlanFault::NoRoom => PrepFault::Refused(Refusal::NoRoom),
        PlanFault::NoMemory => PrepFault::NoMemory,
    }
}

/// The ranges of parts.
fn ranges_of<A: Allocator + Copy>(
    alloc: A,
    parts: &[PlannedPart<A>],
) -> Result<Vec<Range<u64>, A>, AllocError>
    requires { All (λ place. place.address + place.length < 2 ^ 64) (map planned_place parts.now) }
    ensures { IfOk result (λ ranges. ranges.items ≡ map place_range (map planned_place parts.now)) }
{
    let mut ranges = Vec::with_capacity(alloc, parts.len())?;
    for part in parts {
        ranges.push(part.place.address..part.place.address + part.place.length)?;
    }
    Ok(ranges)
}

/// The parts of an entry whose kernel was read, at their places, or the first fault of placing.
pub fn plan_parts<A: Allocator + Copy, V: ByteView, K: LoadableKernel>(
    alloc: A,
    entry: &CheckedEntry<'_, A, V>,
    kernel: &K,
) -> Result<Plan<A>, PrepFault>
    requires { IsReadWithFiles entry.now (K.reading kernel.now) }
    ensures ok { IfOk result (IsPlacedPlan entry.now (K.reading kernel.now)) }
    ensures fault { IfErr result (IsPlaceFault entry.now.machine.now
        (table.rows_of entry.now.machine.now (value_of_files entry.now) (K.reading kernel.now))) }
{
    let rows = kernel.rows(alloc, entry)?;
    let places = match place_rows(alloc, entry.machine, rows.as_slice()) {
        Ok(places) => places,
        Err(fault) => return Err(as_prep_fault(fault)),
    };
    let registers = kernel.registers(entry.protocol, places.as_slice());
    let sorted = in_order(alloc, places.as_slice())?;
    let parts = parts_at(alloc, entry, kernel, places.as_slice(), sorted.as_slice())?;
    let ranges = ranges_of(alloc, parts.as_slice())?;
    Ok(Plan {
        protocol: entry.protocol,
        registers,
        parts,
        ranges,
    })
}
