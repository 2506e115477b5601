//! Attempts, one after the other.
ghost use Rattle.std.specs.Prelude.{◌≡◌, ◌<◌, ◌≤◌, true, OnErr, length};
ghost use Rattle.bl_mem.specs.Memory.{KeepsSizeAndRoom};
ghost use Rattle.bl_stage.specs.PieceStates.{piece_states};
ghost use Rattle.bl_session.specs.attempt.AwaitedPieces.{are_whole};
ghost use Rattle.bl_session.specs.internal.session.KeptPhases.{IsWaiting, phase_by};
ghost use Rattle.bl_session.specs.internal.attempt.AttemptStates.{HasPoolRoom};
ghost use Rattle.bl_session.specs.internal.session.BootCalls.{LeadsToPhase, GoesFrom};
ghost use Rattle.bl_session.specs.internal.session.BootCalls.{FallsBack, GoesOnOrEnds};

use crate::attempt::cursor::{Cursor, advanced};
use crate::attempt::{Attempt, AttemptEnd, begin_attempt, finish_if_complete};
use crate::session::outcome::{BootFault, Outcome};
use crate::session::phase::{BootContext, Phase, Running};
use bl_load::{Refusal, RefusedEntry};
use bl_mem::PhysMem;
use bl_stage::scrub;
use std::alloc::{AllocError, Allocator};
use std::mem;

/// Begins the attempt of this number, and goes on with the next ones until one waits for pieces, is
/// handed over, or none is left: then the whole pool is cleared.
pub fn begin<M: PhysMem, A: Allocator + Copy>(
    boot: &BootContext<A>,
    memory: &mut M,
    next: usize,
    earlier: Vec<RefusedEntry, A>,
) -> Result<Phase<A>, AllocError>
    requires number { length earlier.items ≤ next }
    requires memory { HasPoolRoom boot.now.machine.now (M.bytes memory.old) (M.room memory.old) }
    ensures phase { LeadsToPhase boot.now (GoesFrom boot.now next earlier.items) (λ phase. phase)
        (M.bytes memory.old) (M.bytes memory.new) result }
    ensures kept { KeepsSizeAndRoom M.lender M.bytes M.room memory.old memory.new }
{
    let mut number = next;
    let mut refused = earlier;
    'attempts: while number < boot.menu.attempts() {
        let entry = boot.menu.entry_of(number);
        number += 1;
        match begin_attempt(
            boot.alloc,
            boot.machine,
            memory,
            boot.menu.entry(entry),
            boot.sizes,
        )? {
            Attempt::Waits(stage) => {
                return Ok(Phase::Waits(Running {
                    entry,
                    next: number,
                    earlier: refused,
                    stage,
                    cursor: Cursor { file: 0, piece: 0 },
                }));
            }
            Attempt::Ended(AttemptEnd::HandedOver(handoff)) => {
                return Ok(Phase::HandedOver(Outcome {
                    entry,
                    refused,
                    handoff,
                }));
            }
            Attempt::Ended(AttemptEnd::Refused(refusal)) => {
                refused.push(RefusedEntry { entry, refusal })?;
            }
        }
    }
    // For the proof: where the pool lies.
    boot.machine.pool();
    scrub(boot.machine, memory, &[]);
    Ok(Phase::Failed(BootFault::NoEntryLeft(refused)))
}

/// Refuses the entry of an attempt that runs, and answers the phase after it: that of the next one.
pub fn refuse<M: PhysMem, A: Allocator + Copy>(
    boot: &BootContext<A>,
    memory: &mut M,
    running: &mut Running<A>,
    refusal: Refusal,
) -> Result<Option<Phase<A>>, AllocError>
    requires number { length running.old.earlier.items < running.old.next }
    requires memory { HasPoolRoom boot.now.machine.now (M.bytes memory.old) (M.room memory.old) }
    ensures phase { LeadsToPhase boot.now (FallsBack boot.now running.old refusal)
        (phase_by running.new) (M.bytes memory.old) (M.bytes memory.new) result }
    ensures kept { KeepsSizeAndRoom M.lender M.bytes M.room memory.old memory.new }
{
    let mut refused = mem::replace(&mut running.earlier, Vec::new(boot.alloc));
    refused.push(RefusedEntry {
        entry: running.entry,
        refusal,
    })?;
    Ok(Some(begin(boot, memory, running.next, refused)?))
}

/// Goes on with an attempt that has some pieces of its files: it runs on while one is missing, and
/// else answers the phase after it.
pub fn continue_attempt<M: PhysMem, A: Allocator + Copy>(
    boot: &BootContext<A>,
    memory: &mut M,
    running: &mut Running<A>,
) -> Result<Option<Phase<A>>, AllocError>
    requires waiting { IsWaiting boot.now.machine.now boot.now.menu.now running.old }
    requires memory { HasPoolRoom boot.now.machine.now (M.bytes memory.old) (M.room memory.old) }
    ensures phase { LeadsToPhase boot.now (GoesOnOrEnds boot.now running.old (M.bytes memory.old))
        (phase_by running.new) (M.bytes memory.old) (M.bytes memory.new) result }
    ensures whole { OnErr result
        (are_whole (piece_states (M.bytes memory.old) running.old.stage) ≡ true) }
    ensures kept { KeepsSizeAndRoom M.lender M.bytes M.room memory.old memory.new }
{
    let entry = running.entry;
    match finish_if_complete(
        boot.alloc,
        boot.machine,
        memory,
        boot.menu.entry(entry),
        &mut running.stage,
    )? {
        None => {
            running.cursor = advanced(&running.stage, running.cursor);
            Ok(None)
        }
        Some(AttemptEnd::HandedOver(handoff)) => Ok(Some(Phase::HandedOver(Outcome {
            entry,
            refused: mem::replace(&mut running.earlier, Vec::new(boot.alloc)),
            handoff,
        }))),
        Some(AttemptEnd::Refused(refusal)) => refuse(boot, memory, running, refusal),
    }
}
