//! The steps by which an entry is handed over.
ghost use Rattle.std.specs.Prelude.{IfOk};
ghost use Rattle.program_desc.specs.Views.{entry_view, view};
ghost use Rattle.program_boots.specs.explaining.Details.{value_sought};
ghost use Rattle.program_boots.specs.explaining.EntrySteps.{AreEntrySteps, AreStepsAt};
ghost use Rattle.program_boots.specs.explaining.AttemptedEntries.{HasHandover, HasHandoverAt};

use crate::described::DescribedBoot;
use crate::explaining::found_entry::plan_found;
use bl_load::{PrepFault, Step};
use bl_map::Machine;
use program_desc::EntryRow;
use program_say::{Sought, entry_at};
use std::alloc::{AllocError, Allocator};

/// The steps of an entry that is handed over.
fn steps_of<A: Allocator + Copy>(
    alloc: A,
    machine: &Machine<A>,
    sought: &Sought<'_, A>,
    row: &EntryRow<A>,
) -> Result<Vec<Step, A>, AllocError>
    requires { HasHandover machine.now (value_sought sought.now (entry_view row.now)) }
    ensures { IfOk result (λ steps. AreEntrySteps A machine.now
        (value_sought sought.now (entry_view row.now)) steps.items) }
{
    match plan_found(alloc, machine, sought, row) {
        Ok(plan) => Ok(plan.steps(alloc)?.steps),
        // What is handed over is refused by nothing.
        Err(PrepFault::Refused(_)) => unreachable!(),
        Err(PrepFault::NoMemory) => Err(AllocError),
    }
}

/// The steps of the entry of this index, which is handed over.
pub fn find_steps<A: Allocator + Copy>(
    alloc: A,
    boot: &DescribedBoot<'_, A>,
    sought: &Sought<'_, A>,
    index: u32,
) -> Result<Vec<Step, A>, AllocError>
    requires { HasHandoverAt boot.now.machine.now (view boot.now.description.now).entries
        sought.now index }
    ensures { IfOk result (λ steps. AreStepsAt A boot.now.machine.now
        (view boot.now.description.now).entries sought.now index steps.items) }
{
    match entry_at(boot.description, index) {
        Some(row) => steps_of(alloc, boot.machine, sought, row),
        None => Ok(Vec::new(alloc)),
    }
}
