//! An attempt that waits takes an event.
ghost use Rattle.std.specs.Prelude.{◌≡◌, ◌≢◌, ◌==◌, ℕ, List, MatchBool, length};
ghost use Rattle.bl_mem.specs.Memory.{KeepsSizeAndRoom};
ghost use Rattle.bl_stage.specs.PieceStates.{piece_states};
ghost use Rattle.bl_session.specs.session.BootSteps.{is_wanted};
ghost use Rattle.bl_store.specs.Events.{fault};
ghost use Rattle.bl_store.specs.Events.{event_facts};
ghost use Rattle.bl_session.specs.declared.session.phase.Phase.TheVariants.{Waits};
ghost use Rattle.bl_session.specs.internal.session.KeptPhases.{IsPhaseKept};
ghost use Rattle.bl_session.specs.internal.session.PhaseMoves.{phase_after};
ghost use Rattle.bl_session.specs.internal.attempt.AttemptStates.{HasPoolRoom};
ghost use Rattle.bl_session.specs.internal.session.BootCalls.{TakesEventOn};

use crate::session::falling_back::{continue_attempt, refuse};
use crate::session::outcome::BootFault;
use crate::session::phase::{BootContext, Phase, Running};
use bl_load::Refusal;
use bl_mem::PhysMem;
use bl_stage::Put;
use bl_store::{Event, Ticket};
use std::alloc::{AllocError, Allocator};

/// Whether a ticket is of this attempt.
fn is_of<A: Allocator>(running: &Running<A>, ticket: Ticket) -> bool
    ensures { result ≡ (ticket.attempt == length running.now.earlier.items) }
{
    ticket.attempt as usize == running.earlier.len()
}

/// Whether a fault of this ticket is awaited.
fn awaits_fault<A: Allocator>(running: &Running<A>, ticket: Ticket) -> bool
    ensures { (bytes : List ℕ) → result ≡ is_wanted running.now.earlier.items
        (piece_states bytes running.now.stage) (fault ticket) }
{
    is_of(running, ticket) && running.stage.is_missing(ticket.file, ticket.piece)
}

fn is_stored(answer: Put) -> bool
    ensures { MatchBool result (answer ≡ Put.Stored) (answer ≢ Put.Stored) }
{
    match answer {
        Put::Stored => true,
        Put::Repeated => false,
        Put::Strange => false,
    }
}

/// Takes an event: the attempt runs on, or it ended, and the phase after it is answered. A piece is
/// stored if the attempt awaits it, and the last one ends the attempt. A fault of a piece that it
/// awaits refuses the entry.
pub fn take_in_attempt<M: PhysMem, A: Allocator + Copy>(
    boot: &BootContext<A>,
    memory: &mut M,
    running: &mut Running<A>,
    event: Event,
) -> Result<Option<Phase<A>>, AllocError>
    requires kept { IsPhaseKept boot.now.machine.now boot.now.menu.now (Waits running.old) }
    requires memory { HasPoolRoom boot.now.machine.now (M.bytes memory.old) (M.room memory.old) }
    ensures taken { TakesEventOn boot.now (event_facts event.entry) running.old running.new
        (M.bytes memory.old) (M.bytes memory.new) result }
    ensures kept { KeepsSizeAndRoom M.lender M.bytes M.room memory.old memory.new }
{
    match event {
        Event::Piece(ticket, bytes) => {
            if !is_of(running, ticket) {
                return Ok(None);
            }
            // For the proof: where the pool lies.
            boot.machine.pool();
            let answer = running.stage.put(memory, ticket.file, ticket.piece, bytes);
            if !is_stored(answer) {
                return Ok(None);
            }
            continue_attempt(boot, memory, running)
        }
        Event::Fault(ticket) => {
            if !awaits_fault(running, ticket) {
                return Ok(None);
            }
            refuse(boot, memory, running, Refusal::FileFault(ticket.file))
        }
    }
}

/// Goes on to the phase after an attempt that ended. If memory ran out, the boot has failed.
pub fn go_on<A: Allocator>(phase: &mut Phase<A>, ended: Result<Option<Phase<A>>, AllocError>)
    ensures { phase.new ≡ phase_after phase.old ended }
{
    let next = match ended {
        Ok(None) => return,
        Ok(Some(next)) => next,
        Err(_) => Phase::Failed(BootFault::NoMemory),
    };
    *phase = next;
}
