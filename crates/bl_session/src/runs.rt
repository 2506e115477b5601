//! A whole boot over a store.
ghost use Rattle.std.specs.Prelude.{◌≡◌, ◌+◌, ◌≤◌, ◌^◌, [], All, None};
ghost use Rattle.std.specs.Prelude.{IfOk, OnErr, length, map};
ghost use Rattle.bl_mem.specs.Memory.{KeepsSizeAndRoom};
ghost use Rattle.bl_stage.specs.Ranges.{IsSameOutside};
ghost use Rattle.bl_stage.specs.Files as menu_files;
ghost use Rattle.bl_session.specs.session.BootSteps.{out_of_memory};
ghost use Rattle.bl_session.specs.session.BootMemory.{IsMemoryAt};
ghost use Rattle.bl_store.specs.Faithful.{IsFaithful};
ghost use Rattle.bl_session.specs.session.Schedules.{Faults};
ghost use Rattle.bl_session.specs.session.Outcome.{IsOutcome, HasEnded};
ghost use Rattle.bl_session.specs.session.Phases.{boot_facts, state_at};
ghost use Rattle.bl_session.specs.runs.Run.{IsRun, IsGenuineRun};
ghost use Rattle.bl_session.specs.session.Phases.{final_phase};
ghost use Rattle.bl_session.specs.internal.runs.RunParts.{asked_sizes};
ghost use Rattle.bl_session.specs.internal.runs.AnswerSteps.{RunsOrStops};

use crate::menu::Menu;
use crate::runs::answer_loop::drive;
use crate::session::Session;
use crate::session::outcome::{BootFault, Outcome};
use bl_map::Machine;
use bl_mem::PhysMem;
use bl_store::Store;
use std::alloc::{AllocError, Allocator};

mod answer_loop;
mod run_laws;

pub use run_laws::{
    faithful_stores_boot_by_their_files, marked_histories_are_genuine,
    runs_end_with_the_first_entry_not_refused,
};

/// The sizes of so many files of a store, by their index.
fn sizes_of<S: Store, A: Allocator>(
    alloc: A,
    store: &S,
    count: usize,
) -> Result<Vec<Option<u64>, A>, AllocError>
    requires { count ≤ 2 ^ 32 }
    ensures { IfOk result (λ sizes. sizes.items ≡ asked_sizes (S.files store.now) count) }
{
    let mut sizes = Vec::new(alloc);
    for file in 0..count {
        let size = store.size(file as u32)?;
        sizes.push(size)?;
    }
    Ok(sizes)
}

/// A session that has ended: a boot, but for what want of memory answers.
fn run_session<'a, M: PhysMem, S: Store, A: Allocator + Copy>(
    alloc: A,
    memory: &mut M,
    store: &mut S,
    machine: &'a Machine<A>,
    menu: &'a Menu<A>,
) -> Result<Session<'a, A>, AllocError>
    requires { length (M.bytes memory.old) ≡ machine.now.size }
    ensures run { RunsOrStops machine.now menu.now (S.files store.old) (S.given store.old)
        (S.given store.new) (M.bytes memory.old) (M.bytes memory.new) result }
    ensures files { S.files store.new ≡ S.files store.old }
    ensures kept { KeepsSizeAndRoom M.lender M.bytes M.room memory.old memory.new }
{
    let sizes = sizes_of(alloc, store, menu.files())?;
    let mut session = Session::new(alloc, machine, menu, &sizes)?;
    session.start(memory);
    drive(&mut session, memory, store)?;
    Ok(session)
}

/// Boots the first entry of a menu, in the order of attempts, that is not refused: the default is
/// attempted first, then the fallbacks. Pieces come from a store, which is asked once for the size
/// of each file below `Menu::files`. As an attempt begins the store is asked for each piece of its
/// files, and then answers are taken until the attempt has ended. An answer that the attempt does
/// not wait for changes nothing. If nothing more is to come, the first missing piece is lost, and
/// the entry is refused for its file.
///
/// If the store's answers are genuine, the boot ends with the first entry that is not refused, or
/// with all refusals (40). If the store is faithful and was asked for nothing before, its files
/// alone decide. Either way memory may run out instead (41).
///
/// Memory has the machine's size. Afterwards it is as after `Session::start`.
pub fn run<M: PhysMem, S: Store, A: Allocator + Copy>(
    alloc: A,
    memory: &mut M,
    store: &mut S,
    machine: &Machine<A>,
    menu: &Menu<A>,
) -> Result<Outcome<A>, BootFault<A>>
    requires { length (M.bytes memory.old) ≡ machine.now.size }
    ensures run { IsRun
        (boot_facts machine.now menu.now (map menu_files.size_of (S.files store.old)))
        (S.files store.old) (S.given store.old) (S.given store.new)
        (state_at (M.bytes memory.new) (final_phase result)) }
    ensures outcome { (faults : Faults) → IsGenuineRun
        (boot_facts machine.now menu.now (map menu_files.size_of (S.files store.old)))
        (S.files store.old) faults (S.given store.old) (S.given store.new)
        → HasEnded (state_at (M.bytes memory.new) (final_phase result))
        → IsOutcome (boot_facts machine.now menu.now (map menu_files.size_of (S.files store.old)))
        (S.files store.old) faults (state_at (M.bytes memory.new) (final_phase result)) }
    ensures faithful { S.given store.old ≡ [] → IsFaithful (S.files store.old) (S.given store.new)
        → HasEnded (state_at (M.bytes memory.new) (final_phase result))
        → IsOutcome (boot_facts machine.now menu.now (map menu_files.size_of (S.files store.old)))
        (S.files store.old) (λ _. None) (state_at (M.bytes memory.new) (final_phase result)) }
    ensures memory { IsMemoryAt machine.now.pool
        (state_at (M.bytes memory.new) (final_phase result))
        (M.bytes memory.old) (M.bytes memory.new) }
    ensures inside { IfOk result (λ outcome. All (λ place.
        place.address + place.length ≤ machine.now.size) outcome.handoff.places) }
    ensures files { S.files store.new ≡ S.files store.old }
    ensures kept { KeepsSizeAndRoom M.lender M.bytes M.room memory.old memory.new }
{
    match run_session(alloc, memory, store, machine, menu) {
        Ok(session) => match session.into_outcome() {
            Some(end) => end,
            None => unreachable!(),
        },
        Err(_) => Err(BootFault::NoMemory),
    }
}
