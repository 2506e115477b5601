//! The calls through a handle over memory in a slice, as one in C has it.
ghost use Rattle.std.specs.Prelude.{◌≡◌, ◌≢◌, false, IfErr, IfOk, MatchBool, OnErr, OnOk, length};
ghost use Rattle.bl_mem.specs.Memory.{memory_from};
ghost use Rattle.bl_session.specs.session.BootSteps.{StepsToOrFails, StartsOrFails, is_taken};
ghost use Rattle.bl_session.specs.session.BootSteps.{attempt_number};
ghost use Rattle.bl_session.specs.session.BootSteps as boot;
ghost use Rattle.bl_session.specs.session.BootMemory.{IsMemoryAt};
ghost use Rattle.bl_session.specs.session.Phases.{state_at, not_started, KeepsFramesIn};
ghost use Rattle.bl_store.specs.Events.{event_facts};
ghost use Rattle.c_handle.specs.Faults.{IsHandleFault, IsMachineMemory};
ghost use Rattle.c_handle.specs.Handles.{RelatesKept};

use crate::handle::Handle;
use crate::handle_fault::HandleFault;
use crate::session_over_slice::{event_in_slice, start_in_slice};
use bl_session::{Event, Progress};
use std::alloc::Global;

impl Handle {
    /// Starts the session that is kept, over memory from a base on.
    pub fn start(
        &mut self,
        alloc: Global,
        base: u32,
        bytes: &mut [u8],
    ) -> Result<Progress, HandleFault>
        ensures err { IfErr result (IsHandleFault self.old.kept base (length bytes.old)) }
        ensures unchanged { OnErr result
            ((self.new.kept ≡ self.old.kept) × (bytes.new ≡ bytes.old)) }
        ensures fits { OnOk result (RelatesKept self.old.kept self.new.kept ⊥
            (λ old new. IsMachineMemory old.boot.machine base (length bytes.old))) }
        ensures boot { OnOk result (RelatesKept self.old.kept self.new.kept ⊥
            (λ old new. new.boot ≡ old.boot)) }
        ensures step { OnOk result (RelatesKept self.old.kept self.new.kept ⊥
            (λ old new. StartsOrFails old.boot
            (state_at (memory_from base bytes.old) old.phase)
            (state_at (memory_from base bytes.new) new.phase))) }
        ensures progress { IfOk result
            (λ progress. RelatesKept self.old.kept self.new.kept ⊥
            (λ old new. progress ≡ boot.progress
            (attempt_number (state_at (memory_from base bytes.old) old.phase))
            (state_at (memory_from base bytes.new) new.phase))) }
        ensures memory { OnOk result (RelatesKept self.old.kept self.new.kept ⊥
            (λ old new. old.phase ≡ not_started → IsMemoryAt old.boot.machine.pool
            (state_at (memory_from base bytes.new) new.phase)
            (memory_from base bytes.old) (memory_from base bytes.new))) }
        ensures same { OnOk result (RelatesKept self.old.kept self.new.kept ⊥
            (λ old new. old.phase ≢ not_started
            → (new ≡ old) × (memory_from base bytes.new ≡ memory_from base bytes.old))) }
        ensures staged { OnOk result (RelatesKept self.old.kept self.new.kept ⊥
            (λ old new. KeepsFramesIn old.boot.machine.pool new.phase)) }
    {
        match self.take(alloc) {
            Some(mut session) => {
                let told = start_in_slice(&mut session, base, bytes);
                self.keep(session);
                told
            }
            None => Err(HandleFault::NoSession),
        }
    }

    /// Tells the session that is kept an event, over memory from a base on.
    pub fn event(
        &mut self,
        alloc: Global,
        base: u32,
        bytes: &mut [u8],
        event: Event,
    ) -> Result<Progress, HandleFault>
        ensures err { IfErr result (IsHandleFault self.old.kept base (length bytes.old)) }
        ensures unchanged { OnErr result
            ((self.new.kept ≡ self.old.kept) × (bytes.new ≡ bytes.old)) }
        ensures fits { OnOk result (RelatesKept self.old.kept self.new.kept ⊥
            (λ old new. IsMachineMemory old.boot.machine base (length bytes.old))) }
        ensures boot { OnOk result (RelatesKept self.old.kept self.new.kept ⊥
            (λ old new. new.boot ≡ old.boot)) }
        ensures step { OnOk result (RelatesKept self.old.kept self.new.kept ⊥
            (λ old new. StepsToOrFails old.boot
            (state_at (memory_from base bytes.old) old.phase) (event_facts event.entry)
            (state_at (memory_from base bytes.new) new.phase))) }
        ensures progress { IfOk result
            (λ progress. RelatesKept self.old.kept self.new.kept ⊥
            (λ old new. progress ≡ boot.progress
            (attempt_number (state_at (memory_from base bytes.old) old.phase))
            (state_at (memory_from base bytes.new) new.phase))) }
        ensures memory { OnOk result (RelatesKept self.old.kept self.new.kept ⊥
            (λ old new. MatchBool
            (is_taken (state_at (memory_from base bytes.old) old.phase) (event_facts event.entry))
            (IsMemoryAt old.boot.machine.pool (state_at (memory_from base bytes.new) new.phase)
            (memory_from base bytes.old) (memory_from base bytes.new))
            (memory_from base bytes.new ≡ memory_from base bytes.old))) }
        ensures same { OnOk result (RelatesKept self.old.kept self.new.kept ⊥
            (λ old new. is_taken (state_at (memory_from base bytes.old) old.phase)
            (event_facts event.entry) ≡ false → new ≡ old)) }
        ensures staged { OnOk result (RelatesKept self.old.kept self.new.kept ⊥
            (λ old new. KeepsFramesIn old.boot.machine.pool new.phase)) }
    {
        match self.take(alloc) {
            Some(mut session) => {
                let told = event_in_slice(&mut session, base, bytes, event);
                self.keep(session);
                told
            }
            None => Err(HandleFault::NoSession),
        }
    }
}
