//! Where a session stands, and what its calls share.
ghost use Rattle.std.specs.Prelude.{◌≡◌, ℕ, List};
ghost use Rattle.bl_session.specs.session.BootSteps.{attempt_number};
ghost use Rattle.bl_session.specs.session.BootSteps as boot;
ghost use Rattle.bl_session.specs.session.Phases.{phase_facts, is_waiting, KeepsFramesIn};
ghost use Rattle.bl_session.specs.internal.session.KeptPhases.{state_of, IsPhaseKept};

use crate::attempt::cursor::Cursor;
use crate::menu::Menu;
use crate::session::outcome::{BootFault, Outcome, Progress};
use bl_load::RefusedEntry;
use bl_map::Machine;
use bl_stage::Stage;
use std::alloc::Allocator;

/// A boot for one call: its machine, its menu, the sizes of the menu's files, and where its lists
/// are allocated.
#[derive(Drop)]
pub struct BootContext<'a, A: Allocator + Copy> {
    pub alloc: A,
    pub machine: &'a Machine<A>,
    pub menu: &'a Menu<A>,
    pub sizes: &'a [Option<u64>],
}

/// An attempt that waits for pieces: its entry, the number of the next attempt, the refusals so
/// far, its files, and a cursor over their pieces.
#[derive(Drop)]
pub struct Running<A: Allocator> {
    pub entry: u32,
    pub next: usize,
    pub earlier: Vec<RefusedEntry, A>,
    pub stage: Stage<A>,
    pub cursor: Cursor,
}

/// Where a session stands.
#[derive(Drop)]
pub enum Phase<A: Allocator> {
    Unstarted,
    Waits(Running<A>),
    HandedOver(Outcome<A>),
    Failed(BootFault<A>),
}

/// Whether an attempt waits for pieces.
pub fn awaits_pieces<A: Allocator>(phase: &Phase<A>) -> bool
    ensures { (attempts : List ℕ) → result ≡ is_waiting (phase_facts attempts phase.now) }
{
    match phase {
        Phase::Waits(_) => true,
        Phase::Unstarted => false,
        Phase::HandedOver(_) => false,
        Phase::Failed(_) => false,
    }
}

/// The number of the attempt of a phase.
pub fn number_of<A: Allocator>(phase: &Phase<A>) -> usize
    ensures { (attempts bytes : List ℕ) → result
        ≡ attempt_number (state_of attempts bytes phase.now) }
{
    match phase {
        Phase::Unstarted => 0,
        Phase::Waits(waiting) => waiting.earlier.len(),
        Phase::HandedOver(outcome) => outcome.refused.len(),
        Phase::Failed(BootFault::NoEntryLeft(refused)) => refused.len(),
        Phase::Failed(BootFault::NoMemory) => 0,
    }
}

/// What a call answers that led from the attempt of this number to a phase.
pub fn progress_of<A: Allocator>(
    machine: &Machine<A>,
    menu: &Menu<A>,
    attempt: usize,
    phase: &Phase<A>,
) -> Progress
    requires { IsPhaseKept machine.now menu.now phase.now }
    ensures progress { (bytes : List ℕ)
        → result ≡ boot.progress attempt (state_of menu.now.attempts bytes phase.now) }
    ensures staged { KeepsFramesIn machine.now.pool (phase_facts menu.now.attempts phase.now) }
{
    // For the proof: the number is small.
    menu.attempts();
    match phase {
        Phase::Unstarted => Progress::Waiting,
        Phase::Waits(waiting) => {
            // For the proof: the files' frames lie in the pool.
            waiting.stage.are_staged();
            let running = waiting.earlier.len();
            if running == attempt {
                Progress::Waiting
            } else {
                Progress::Next(running as u32)
            }
        }
        Phase::HandedOver(_) => Progress::Done,
        Phase::Failed(_) => Progress::Failed,
    }
}
