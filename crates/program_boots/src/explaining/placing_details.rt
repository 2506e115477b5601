//! What is told of an entry that finds no place, or too few frames.
ghost use Rattle.std.specs.Prelude.{◌+◌, ◌<◌, IfOk, MatchOption};
ghost use Rattle.bl_mem.specs.Least.{IsLeast};
ghost use Rattle.bl_map.specs.MachineFacts.{AllUsable};
ghost use Rattle.bl_plan.specs.Permitted.{AreUnavoided};
ghost use Rattle.bl_plan.specs.Unusable.{IsUnplaceableFrom};
ghost use Rattle.program_desc.specs.Views.{entry_view};
ghost use Rattle.program_boots.specs.explaining.Details.{IsFirstUnplaceable, IsFramesDetail};
ghost use Rattle.program_boots.specs.explaining.Details.{IsPlaceDetail, value_sought};
ghost use Rattle.program_boots.specs.explaining.AttemptedEntries.{HasNoPlace};

use crate::explaining::found_entry::{entry_with_files, plan_found};
use bl_load::{Choice, PrepFault, Row, unplaced};
use bl_map::{Machine, open_frames};
use bl_plan::first_unplaceable;
use program_desc::EntryRow;
use program_say::{RefusalDetail, Sought};
use std::alloc::{AllocError, Allocator};

/// The first of `count` bytes from `at` on that is not usable or is avoided, if there is one. None
/// from the machine's size on is usable, so that of a longer part no more than that is looked at.
fn unplaceable_of<A: Allocator>(machine: &Machine<A>, at: u64, count: u64) -> Option<u64>
    ensures { MatchOption result
        (AllUsable machine.now at (at + count) × AreUnavoided machine.now at (at + count))
        (λ a. (a < at + count) × IsLeast (IsUnplaceableFrom machine.now at) a) }
{
    let size = machine.size();
    if count == 0 {
        return None;
    }
    if at >= size {
        return Some(at);
    }
    first_unplaceable(machine, at..at + count.min(size + 1))
}

/// The first byte of a part at a fixed address that is not usable or is avoided, if there is one.
fn unplaceable_byte<A: Allocator>(machine: &Machine<A>, row: &Row) -> Option<u64>
    ensures { IsFirstUnplaceable machine.now row.now.length row.now.choice result }
{
    match row.choice {
        Choice::Fixed(at) => unplaceable_of(machine, at, row.length),
        Choice::Lowest { .. } | Choice::Highest { .. } | Choice::Preferred { .. } => None,
    }
}

/// The first part that finds no place, of an entry that is refused for it.
pub fn place_detail<A: Allocator + Copy>(
    alloc: A,
    machine: &Machine<A>,
    sought: &Sought<'_, A>,
    row: &EntryRow<A>,
) -> Result<RefusalDetail, AllocError>
    requires { HasNoPlace machine.now (value_sought sought.now (entry_view row.now)) }
    ensures { IfOk result
        (IsPlaceDetail machine.now (value_sought sought.now (entry_view row.now))) }
{
    let found = entry_with_files(alloc, sought, row)?;
    match unplaced(alloc, machine, &found.entry, &found.files) {
        Ok(Some(row)) => Ok(RefusalDetail::NoPlace {
            row,
            unplaceable: unplaceable_byte(machine, &row),
        }),
        // An entry that has its places, or is refused before these are looked for, is not refused
        // for want of one.
        Ok(None) => unreachable!(),
        Err(PrepFault::Refused(_)) => unreachable!(),
        Err(PrepFault::NoMemory) => Err(AllocError),
    }
}

/// The frames of the pool beside an entry's parts.
pub fn frames_detail<A: Allocator + Copy>(
    alloc: A,
    machine: &Machine<A>,
    sought: &Sought<'_, A>,
    row: &EntryRow<A>,
) -> Result<RefusalDetail, AllocError>
    ensures { IfOk result
        (IsFramesDetail machine.now (value_sought sought.now (entry_view row.now))) }
{
    match plan_found(alloc, machine, sought, row) {
        Ok(plan) => Ok(RefusalDetail::Frames {
            beside: Some(open_frames(&machine.pool(), plan.ranges())),
        }),
        Err(PrepFault::Refused(_)) => Ok(RefusalDetail::Frames { beside: None }),
        Err(PrepFault::NoMemory) => Err(AllocError),
    }
}
