//! One attempt of a boot over a store: its pieces are asked for, and the answers are taken.
ghost use Rattle.std.specs.Prelude.{◌≡◌};
ghost use Rattle.bl_mem.specs.Memory.{KeepsSizeAndRoom};
ghost use Rattle.bl_session.specs.internal.runs.AnswerSteps.{WaitsInMemory, GoesOnInMemory};
ghost use Rattle.bl_session.specs.internal.runs.AnswerSteps.{TakesAnswer, EndsOrStops};
ghost use Rattle.bl_session.specs.internal.runs.AnswerSteps.{EndsAllOrStops};

use crate::session::Session;
use crate::session::outcome::Progress;
use bl_mem::PhysMem;
use bl_store::{Event, Store};
use std::alloc::{AllocError, Allocator};

/// Takes one answer of the store. With nothing more to come, the first missing piece is lost.
fn answer<M: PhysMem, S: Store, A: Allocator + Copy>(
    session: &mut Session<A>,
    memory: &mut M,
    store: &mut S,
) -> Result<Progress, AllocError>
    requires { WaitsInMemory session.old (M.bytes memory.old) (M.room memory.old) }
    ensures taken { TakesAnswer session.old session.new (S.files store.old)
        (S.given store.old) (S.given store.new) (S.left store.old) (S.left store.new)
        (M.bytes memory.old) (M.bytes memory.new) result }
    ensures files { S.files store.new ≡ S.files store.old }
    ensures kept { KeepsSizeAndRoom M.lender M.bytes M.room memory.old memory.new }
{
    match store.next()? {
        Some(completion) => Ok(session.event(memory, completion.event())),
        None => {
            let ticket = session.first_missing_ticket();
            Ok(session.event(memory, Event::Fault(ticket)))
        }
    }
}

/// Takes answers until the attempt that waits has ended.
fn await_end<M: PhysMem, S: Store, A: Allocator + Copy>(
    session: &mut Session<A>,
    memory: &mut M,
    store: &mut S,
) -> Result<(), AllocError>
    requires { WaitsInMemory session.old (M.bytes memory.old) (M.room memory.old) }
    ensures ended { EndsOrStops session.old session.new (S.files store.old)
        (S.given store.old) (S.given store.new) (M.bytes memory.old) (M.bytes memory.new) result }
    ensures files { S.files store.new ≡ S.files store.old }
    ensures kept { KeepsSizeAndRoom M.lender M.bytes M.room memory.old memory.new }
{
    'answers: loop {
        match answer(session, memory, store)? {
            Progress::Waiting => {}
            _ => return Ok(()),
        }
    }
}

/// Goes on from attempt to attempt until none waits: each asks for its pieces, and takes answers
/// until it has ended.
pub fn drive<M: PhysMem, S: Store, A: Allocator + Copy>(
    session: &mut Session<A>,
    memory: &mut M,
    store: &mut S,
) -> Result<(), AllocError>
    requires { GoesOnInMemory session.old (M.bytes memory.old) (M.room memory.old) }
    ensures ended { EndsAllOrStops session.old session.new (S.files store.old)
        (S.given store.old) (S.given store.new) (M.bytes memory.old) (M.bytes memory.new) result }
    ensures files { S.files store.new ≡ S.files store.old }
    ensures kept { KeepsSizeAndRoom M.lender M.bytes M.room memory.old memory.new }
{
    'attempts: while session.is_waiting() {
        session.submit_attempt(store)?;
        await_end(session, memory, store)?;
    }
    Ok(())
}
