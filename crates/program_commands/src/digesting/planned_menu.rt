//! What a menu comes to, without memory.
ghost use Rattle.std.specs.Prelude.{IfOk, map};
ghost use Rattle.bl_stage.specs.Files.{size_of, stored_files};
ghost use Rattle.bl_session.specs.session.Outcome.{IsOutcome};
ghost use Rattle.bl_session.specs.session.Phases.{boot_facts};
ghost use Rattle.bl_session.specs.session.Schedules.{no_fault};
ghost use Rattle.program_commands.specs.digesting.PlannedMenu.{state_by, CanBeLoadedBy};

use crate::digesting::planned_menu::entry_plan::plan_entry;
use bl_load::{Plan, PrepFault};
use bl_map::Machine;
use bl_session::{Fetched, Menu, RefusedEntry};
use std::alloc::{AllocError, Allocator};

mod entry_plan;

/// The entry that is handed over, by its index in the menu, with the refusals before it, in order,
/// and what is loaded for it.
#[derive(Drop)]
pub struct PlannedEntry<A: Allocator> {
    pub entry: u32,
    pub refused: Vec<RefusedEntry, A>,
    pub plan: Plan<A>,
}

/// What a menu comes to.
#[derive(Drop)]
pub enum MenuPlan<A: Allocator> {
    /// An entry is handed over.
    HandsOver(PlannedEntry<A>),

    /// Each entry that is attempted is refused: all refusals, in order.
    NoneLeft(Vec<RefusedEntry, A>),
}

/// What a boot of a menu comes to with these files, by their index in the menu: the first entry
/// that is not refused, or none. It is the outcome of `run`, but nothing is loaded, and no file is
/// copied.
///
/// An error is want of memory.
pub fn plan_menu<A: Allocator + Copy>(
    alloc: A,
    machine: &Machine<A>,
    menu: &Menu<A>,
    files: &[Fetched<A>],
) -> Result<MenuPlan<A>, AllocError>
    ensures outcome { IfOk result (λ plan.
        let facts = boot_facts machine.now menu.now (map size_of (stored_files files.now)) in
        IsOutcome facts (stored_files files.now) no_fault
        (state_by facts (stored_files files.now) plan)) }
    ensures loadable { IfOk result (CanBeLoadedBy
        (boot_facts machine.now menu.now (map size_of (stored_files files.now)))
        (stored_files files.now)) }
{
    let mut refused = Vec::new(alloc);
    for number in 0..menu.attempts() {
        let entry = menu.entry_of(number);
        match plan_entry(alloc, machine, menu.entry(entry), files) {
            Ok(plan) => {
                return Ok(MenuPlan::HandsOver(PlannedEntry {
                    entry,
                    refused,
                    plan,
                }));
            }
            Err(PrepFault::Refused(refusal)) => refused.push(RefusedEntry { entry, refusal })?,
            Err(PrepFault::NoMemory) => return Err(AllocError),
        }
    }
    Ok(MenuPlan::NoneLeft(refused))
}
