//! One call of a session over memory in a slice.
ghost use Rattle.std.specs.Prelude.{◌≡◌, ◌≢◌, false, IfErr, IfOk, MatchBool, OnErr, OnOk, length};
ghost use Rattle.bl_mem.specs.Memory.{memory_from};
ghost use Rattle.bl_session.specs.session.BootSteps.{StepsToOrFails, StartsOrFails, is_taken};
ghost use Rattle.bl_session.specs.session.BootSteps.{attempt_number};
ghost use Rattle.bl_session.specs.session.BootSteps as boot;
ghost use Rattle.bl_session.specs.session.BootMemory.{IsMemoryAt};
ghost use Rattle.bl_session.specs.session.Phases.{state_at, not_started, KeepsFramesIn};
ghost use Rattle.bl_store.specs.Events.{event_facts};
ghost use Rattle.c_handle.specs.Faults.{IsMemoryFault, IsMachineMemory};

use crate::handle_fault::HandleFault;
use bl_map::Machine;
use bl_mem::SliceMemory;
use bl_session::{Event, OwnedSession, Progress};
use std::alloc::Allocator;

/// Whether memory of so many bytes from a base on suits a machine.
fn check_memory<A: Allocator>(
    machine: &Machine<A>,
    base: u32,
    count: usize,
) -> Result<(), HandleFault>
    ensures ok { OnOk result (IsMachineMemory machine.now base count) }
    ensures err { IfErr result (IsMemoryFault machine.now base count) }
{
    let base = base as u64;
    if machine.size() < base || machine.size() - base != count as u64 {
        return Err(HandleFault::WrongSize);
    }
    let pool = machine.pool();
    if pool.start < pool.end && pool.start < base {
        return Err(HandleFault::BelowBase);
    }
    Ok(())
}

/// Starts a session over memory from a base on.
pub fn start_in_slice<A: Allocator + Copy>(
    session: &mut OwnedSession<A>,
    base: u32,
    bytes: &mut [u8],
) -> Result<Progress, HandleFault>
    ensures err { IfErr result (IsMemoryFault session.old.boot.machine base (length bytes.old)) }
    ensures unchanged { OnErr result ((session.new ≡ session.old) × (bytes.new ≡ bytes.old)) }
    ensures fits { OnOk result (IsMachineMemory session.old.boot.machine base (length bytes.old)) }
    ensures boot { session.new.boot ≡ session.old.boot }
    ensures step { OnOk result (StartsOrFails session.old.boot
        (state_at (memory_from base bytes.old) session.old.phase)
        (state_at (memory_from base bytes.new) session.new.phase)) }
    ensures progress { IfOk result (λ progress. progress ≡ boot.progress
        (attempt_number (state_at (memory_from base bytes.old) session.old.phase))
        (state_at (memory_from base bytes.new) session.new.phase)) }
    ensures memory { OnOk result (session.old.phase ≡ not_started
        → IsMemoryAt session.old.boot.machine.pool
        (state_at (memory_from base bytes.new) session.new.phase)
        (memory_from base bytes.old) (memory_from base bytes.new)) }
    ensures same { OnOk result (session.old.phase ≢ not_started
        → (session.new ≡ session.old)
        × (memory_from base bytes.new ≡ memory_from base bytes.old)) }
    ensures staged { OnOk result
        (KeepsFramesIn session.old.boot.machine.pool session.new.phase) }
{
    check_memory(session.machine(), base, bytes.len())?;
    let mut memory = SliceMemory::from_base(base, bytes);
    Ok(session.start(&mut memory))
}

/// Tells a session an event over memory from a base on.
pub fn event_in_slice<A: Allocator + Copy>(
    session: &mut OwnedSession<A>,
    base: u32,
    bytes: &mut [u8],
    event: Event,
) -> Result<Progress, HandleFault>
    ensures err { IfErr result (IsMemoryFault session.old.boot.machine base (length bytes.old)) }
    ensures unchanged { OnErr result ((session.new ≡ session.old) × (bytes.new ≡ bytes.old)) }
    ensures fits { OnOk result (IsMachineMemory session.old.boot.machine base (length bytes.old)) }
    ensures boot { session.new.boot ≡ session.old.boot }
    ensures step { OnOk result (StepsToOrFails session.old.boot
        (state_at (memory_from base bytes.old) session.old.phase) (event_facts event.entry)
        (state_at (memory_from base bytes.new) session.new.phase)) }
    ensures progress { IfOk result (λ progress. progress ≡ boot.progress
        (attempt_number (state_at (memory_from base bytes.old) session.old.phase))
        (state_at (memory_from base bytes.new) session.new.phase)) }
    ensures memory { OnOk result (MatchBool
        (is_taken (state_at (memory_from base bytes.old) session.old.phase)
        (event_facts event.entry))
        (IsMemoryAt session.old.boot.machine.pool
        (state_at (memory_from base bytes.new) session.new.phase)
        (memory_from base bytes.old) (memory_from base bytes.new))
        (memory_from base bytes.new ≡ memory_from base bytes.old)) }
    ensures same { OnOk result
        (is_taken (state_at (memory_from base bytes.old) session.old.phase)
        (event_facts event.entry) ≡ false → session.new ≡ session.old) }
    ensures staged { OnOk result
        (KeepsFramesIn session.old.boot.machine.pool session.new.phase) }
{
    check_memory(session.machine(), base, bytes.len())?;
    let mut memory = SliceMemory::from_base(base, bytes);
    Ok(session.event(&mut memory, event))
}
