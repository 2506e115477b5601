//! A session starts: its first attempt begins.
ghost use Rattle.std.specs.Prelude.{◌≡◌, [], OnOk, length};
ghost use Rattle.bl_mem.specs.Memory.{KeepsSizeAndRoom};
ghost use Rattle.bl_session.specs.internal.attempt.AttemptStates.{HasPoolRoom};
ghost use Rattle.bl_session.specs.internal.session.BootCalls.{GoesFrom, LeadsToPhase};

use crate::session::falling_back::begin;
use crate::session::phase::{BootContext, Phase};
use bl_map::Machine;
use bl_mem::PhysMem;
use std::alloc::{AllocError, Allocator};

/// Gives room to the pool.
fn reserve_pool<M: PhysMem, A: Allocator>(
    machine: &Machine<A>,
    memory: &mut M,
) -> Result<(), AllocError>
    requires { length (M.bytes memory.old) ≡ machine.now.size }
    ensures same { M.bytes memory.new ≡ M.bytes memory.old }
    ensures room { OnOk result (HasPoolRoom machine.now (M.bytes memory.new) (M.room memory.new)) }
    ensures kept { KeepsSizeAndRoom M.lender M.bytes M.room memory.old memory.new }
{
    let pool = machine.pool();
    // A pool of no frames may lie anywhere.
    if pool.start < pool.end {
        memory.reserve(&[pool])?;
    }
    Ok(())
}

/// Gives room to the pool, and begins the first attempt.
pub fn reserve_and_begin<M: PhysMem, A: Allocator + Copy>(
    boot: &BootContext<A>,
    memory: &mut M,
) -> Result<Phase<A>, AllocError>
    requires { length (M.bytes memory.old) ≡ boot.now.machine.now.size }
    ensures phase { LeadsToPhase boot.now (GoesFrom boot.now 0 []) (λ phase. phase)
        (M.bytes memory.old) (M.bytes memory.new) result }
    ensures room { OnOk result
        (HasPoolRoom boot.now.machine.now (M.bytes memory.new) (M.room memory.new)) }
    ensures kept { KeepsSizeAndRoom M.lender M.bytes M.room memory.old memory.new }
{
    reserve_pool(boot.machine, memory)?;
    begin(boot, memory, 0, Vec::new(boot.alloc))
}
