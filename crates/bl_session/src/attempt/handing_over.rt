//! An attempt ends, once each piece of its files came.
ghost use Rattle.std.specs.Prelude.{◌≡◌, IfErr, IfOk, length, map};
ghost use Rattle.bl_mem.specs.Memory.{HasRoom, KeepsSizeAndRoom};
ghost use Rattle.bl_stage.specs.Staged.{AllCame, staged, staged_texts, with_frames};
ghost use Rattle.bl_load.specs.Parts.{IsPrepFault};
ghost use Rattle.bl_load.specs.EntryValue.{value_of, file_count, IsWithinLimits};
ghost use Rattle.bl_session.specs.attempt.FinishedAttempt.{IsHandedOver, IsNotHandedOver};
ghost use Rattle.bl_session.specs.attempt.FinishedAttempt.{IsStageAfterFault};
ghost use Rattle.bl_session.specs.internal.attempt.HandoverSteps.{AreFilesWhole, HasFilesOf};
ghost use Rattle.bl_session.specs.internal.attempt.HandoverSteps.{IsPlanFor, CanHandOver};
ghost use Rattle.bl_session.specs.internal.attempt.HandoverSteps.{HasLoadedPlan};

use bl_load::{Entry, Handoff, Plan, PrepFault, Refusal, load, prepare};
use bl_map::Machine;
use bl_mem::PhysMem;
use bl_stage::{FrameView, Stage, scrub};
use std::alloc::{AllocError, Allocator};

/// Views of a stage's files, in order.
fn views_of<'a, M: PhysMem, A: Allocator + Copy>(
    alloc: A,
    memory: &'a M,
    stage: &'a Stage<A>,
) -> Result<Vec<FrameView<'a, M>, A>, AllocError>
    requires { AreFilesWhole (M.bytes memory.now) stage.now }
    ensures { IfOk result (λ views.
        map (λ view. staged (M.bytes view.memory.now) view.frames.now view.size) views.items
        ≡ staged_texts (M.bytes memory.now) stage.now) }
{
    let count = stage.files();
    let mut views = Vec::with_capacity(alloc, count)?;
    for file in 0..count {
        views.push(stage.view(memory, file as u32))?;
    }
    Ok(views)
}

/// What is loaded for an entry whose files are staged, or its first refusal.
fn prepare_staged<M: PhysMem, A: Allocator + Copy>(
    alloc: A,
    machine: &Machine<A>,
    memory: &M,
    entry: &Entry<A>,
    stage: &Stage<A>,
) -> Result<Plan<A>, PrepFault>
    requires entry { HasFilesOf entry.now stage.now }
    requires whole { AreFilesWhole (M.bytes memory.now) stage.now }
    ensures ok { IfOk result
        (IsPlanFor machine.now entry.now (staged_texts (M.bytes memory.now) stage.now)) }
    ensures fault { IfErr result (λ fault. IsPrepFault machine.now
        (value_of (staged_texts (M.bytes memory.now) stage.now) entry.now) fault) }
{
    let views = views_of(alloc, memory, stage)?;
    prepare(alloc, machine, entry, &views)
}

/// Loads a plan out of staged files, and clears the rest of the pool.
fn hand_over<M: PhysMem, A: Allocator>(
    machine: &Machine<A>,
    memory: &mut M,
    stage: &Stage<A>,
    plan: Plan<A>,
) -> Handoff<A>
    requires { CanHandOver machine.now stage.now plan (M.bytes memory.old) (M.room memory.old) }
    ensures loaded { HasLoadedPlan machine.now stage.now plan result
        (M.bytes memory.old) (M.bytes memory.new) }
    ensures kept { KeepsSizeAndRoom M.lender M.bytes M.room memory.old memory.new }
{
    let handoff = load(memory, plan, stage);
    scrub(machine, memory, handoff.ranges());
    handoff
}

/// Ends an attempt whose files are staged whole: hands its entry over, or says why not. The checks
/// come in this order:
///
/// 1. the entry's own first refusal, as `prepare` answers it;
/// 2. `NoPool`, exactly if the pool has too few frames beside the parts for the files;
/// 3. memory for the parts, where they have no room yet.
///
/// `Ok`: memory holds the parts, the pool is 0 outside of them, and every other byte is as before.
/// `Refused`: no byte changed, and the stage is as before. `NoMemory` may be answered at any
/// growth, and then no byte outside the pool changed, and each file reads as before. No address
/// loses its room.
///
/// The stage is that of the machine's pool, and has one file for each file of the entry, in order.
pub fn finish_attempt<M: PhysMem, A: Allocator + Copy>(
    alloc: A,
    machine: &Machine<A>,
    memory: &mut M,
    entry: &Entry<A>,
    stage: &mut Stage<A>,
) -> Result<Handoff<A>, PrepFault>
    requires complete { AllCame stage.old }
    requires files { length stage.old.sizes ≡ file_count entry.now }
    requires limits { IsWithinLimits entry.now }
    requires pool { stage.old.pool ≡ machine.now.pool }
    requires size { length (M.bytes memory.old) ≡ machine.now.size }
    requires room { HasRoom (M.room memory.old) machine.now.pool.start machine.now.pool.end }
    ensures ok { IfOk result (λ handoff. IsHandedOver machine.now
        (value_of (staged_texts (M.bytes memory.old) stage.old) entry.now) handoff
        (M.bytes memory.old) (M.bytes memory.new)) }
    ensures err { IfErr result (λ fault. IsNotHandedOver machine.now
        (value_of (staged_texts (M.bytes memory.old) stage.old) entry.now) fault
        (M.bytes memory.old) (M.bytes memory.new)) }
    ensures left { IfErr result (λ fault. IsStageAfterFault fault stage.old stage.new
        (M.bytes memory.old) (M.bytes memory.new)) }
    ensures stage { stage.new ≡ with_frames stage.old stage.new.frames }
    ensures kept { KeepsSizeAndRoom M.lender M.bytes M.room memory.old memory.new }
{
    // For the proof: where the pool lies.
    machine.pool();
    let plan = prepare_staged(alloc, machine, memory, entry, stage)?;
    if stage.evacuate(memory, plan.ranges()).is_err() {
        return Err(PrepFault::Refused(Refusal::NoPool));
    }
    memory.reserve(plan.ranges())?;
    Ok(hand_over(machine, memory, stage, plan))
}
