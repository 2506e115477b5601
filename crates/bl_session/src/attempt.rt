//! One attempt: it begins, and ends once each piece of its files came.
ghost use Rattle.std.specs.Prelude.{◌≡◌};
ghost use Rattle.bl_mem.specs.Memory.{KeepsSizeAndRoom};
ghost use Rattle.bl_load.specs.EntryValue.{IsWithinLimits};
ghost use Rattle.bl_session.specs.menu.Menu.{facts_of};
ghost use Rattle.bl_session.specs.internal.attempt.AttemptStates.{HasAttemptStage, EndsOrWaits};
ghost use Rattle.bl_session.specs.internal.attempt.AttemptStates.{BeginsOrEnds, attempt_with};
ghost use Rattle.bl_session.specs.internal.attempt.AttemptStates.{HasPoolRoom};

use crate::attempt::stage_beginning::begin_stage;
use bl_load::{Entry, Handoff, PrepFault, Refusal};
use bl_map::Machine;
use bl_mem::PhysMem;
use bl_stage::Stage;
use std::alloc::{AllocError, Allocator};

pub(crate) mod cursor;
mod handing_over;
pub(crate) mod missing_pieces;
pub(crate) mod request;
mod stage_beginning;

pub use handing_over::finish_attempt;
pub use request::Request;

/// How an attempt ended: its entry is handed over, or refused.
#[derive(Drop)]
pub enum AttemptEnd<A: Allocator> {
    HandedOver(Handoff<A>),
    Refused(Refusal),
}

/// An attempt that was begun: it waits for pieces of its files, or has ended.
#[derive(Drop)]
pub enum Attempt<A: Allocator> {
    Waits(Stage<A>),
    Ended(AttemptEnd<A>),
}

/// An attempt with this stage, unless it has ended.
fn attempt_with<A: Allocator>(stage: Stage<A>, end: Option<AttemptEnd<A>>) -> Attempt<A>
    ensures { result ≡ attempt_with stage end }
{
    match end {
        None => Attempt::Waits(stage),
        Some(end) => Attempt::Ended(end),
    }
}

/// The end of an attempt, if no piece of its files is missing.
pub fn finish_if_complete<M: PhysMem, A: Allocator + Copy>(
    alloc: A,
    machine: &Machine<A>,
    memory: &mut M,
    entry: &Entry<A>,
    stage: &mut Stage<A>,
) -> Result<Option<AttemptEnd<A>>, AllocError>
    requires { HasAttemptStage machine.now entry.now stage.old
        (M.bytes memory.old) (M.room memory.old) }
    ensures ends { EndsOrWaits machine.now (facts_of entry.now) stage.old stage.new
        (M.bytes memory.old) (M.bytes memory.new) result }
    ensures kept { KeepsSizeAndRoom M.lender M.bytes M.room memory.old memory.new }
{
    // For the proof: the files' frames lie in the pool.
    stage.are_staged();
    if !stage.complete() {
        return Ok(None);
    }
    match finish_attempt(alloc, machine, memory, entry, stage) {
        Ok(handoff) => Ok(Some(AttemptEnd::HandedOver(handoff))),
        Err(PrepFault::Refused(refusal)) => Ok(Some(AttemptEnd::Refused(refusal))),
        Err(PrepFault::NoMemory) => Err(AllocError),
    }
}

/// Begins an attempt at an entry whose files have these sizes.
pub fn begin_attempt<M: PhysMem, A: Allocator + Copy>(
    alloc: A,
    machine: &Machine<A>,
    memory: &mut M,
    entry: &Entry<A>,
    sizes: &[Option<u64>],
) -> Result<Attempt<A>, AllocError>
    requires limits { IsWithinLimits entry.now }
    requires memory { HasPoolRoom machine.now (M.bytes memory.old) (M.room memory.old) }
    ensures begun { BeginsOrEnds machine.now (facts_of entry.now) sizes.now
        (M.bytes memory.old) (M.bytes memory.new) result }
    ensures kept { KeepsSizeAndRoom M.lender M.bytes M.room memory.old memory.new }
{
    match begin_stage(alloc, machine, entry, sizes) {
        Ok(mut stage) => {
            let end = finish_if_complete(alloc, machine, memory, entry, &mut stage)?;
            Ok(attempt_with(stage, end))
        }
        Err(PrepFault::Refused(refusal)) => Ok(Attempt::Ended(AttemptEnd::Refused(refusal))),
        Err(PrepFault::NoMemory) => Err(AllocError),
    }
}
