//! What is loaded for one entry of a menu, or its refusal.
ghost use Rattle.std.specs.Prelude.{IfOk, IfErr};
ghost use Rattle.bl_load.specs.EntryValue.{IsWithinLimits};
ghost use Rattle.bl_stage.specs.Files.{stored_files};
ghost use Rattle.bl_session.specs.menu.Menu.{facts_of};
ghost use Rattle.program_boots.specs.EntryPlans.{IsEntryPlan, IsPlanFault};

use bl_load::{Entry, Plan, PrepFault, prepare};
use bl_map::{Machine, frames_in, open_frames};
use bl_session::Fetched;
use program_boots::{check_frames, checked_lengths, file_texts, indices_of};
use std::alloc::Allocator;

/// What is loaded for an entry with these files, or its first refusal: by the sizes of its files,
/// by what they hold, and by the frames that the pool has beside its parts.
pub fn plan_entry<A: Allocator + Copy>(
    alloc: A,
    machine: &Machine<A>,
    entry: &Entry<A>,
    files: &[Fetched<A>],
) -> Result<Plan<A>, PrepFault>
    requires { IsWithinLimits entry.now }
    ensures planned { IfOk result
        (IsEntryPlan machine.now (facts_of entry.now) (stored_files files.now)) }
    ensures fault { IfErr result
        (IsPlanFault machine.now (facts_of entry.now) (stored_files files.now)) }
{
    let pool = machine.pool();
    let indices = indices_of(alloc, entry)?;
    let lengths = checked_lengths(alloc, files, &indices)?;
    check_frames(&lengths, frames_in(&pool))?;
    let texts = file_texts(alloc, files, &indices)?;
    let plan = prepare(alloc, machine, entry, &texts)?;
    check_frames(&lengths, open_frames(&pool, plan.ranges()))?;
    Ok(plan)
}
