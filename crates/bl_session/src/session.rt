//! A boot that takes one event after the other.
ghost use Rattle.std.specs.Prelude.{◌≡◌, ◌≢◌, true, false, IfOk, IfSome, MatchBool, length};
ghost use Rattle.std.specs.Prelude.{option_map};
ghost use Rattle.bl_mem.specs.Memory.{HasRoom, KeepsSizeAndRoom};
ghost use Rattle.bl_session.specs.session.BootSteps.{StepsToOrFails, StartsOrFails, is_taken};
ghost use Rattle.bl_session.specs.session.BootSteps.{attempt_number};
ghost use Rattle.bl_session.specs.session.BootSteps as boot;
ghost use Rattle.bl_session.specs.session.BootMemory.{IsMemoryAt};
ghost use Rattle.bl_session.specs.session.Phases.{state_at, is_waiting};
ghost use Rattle.bl_store.specs.Events.{event_facts};
ghost use Rattle.bl_session.specs.session.Phases.{end_facts, told_end, final_phase, not_started};
ghost use Rattle.bl_session.specs.session.Phases.{LiesWithin, KeepsFramesIn};

use crate::menu::Menu;
use crate::session::event_taking::{go_on, take_in_attempt};
use crate::session::phase::{BootContext, Phase, number_of, progress_of};
use crate::session::starting::reserve_and_begin;
use bl_map::Machine;
use bl_mem::PhysMem;
use bl_store::Event;
use std::alloc::Allocator;
use std::marker::Model;

mod awaiting;
mod boot_holder;
mod event_taking;
mod falling_back;
pub(crate) mod outcome;
mod phase;
mod starting;
mod submissions;

pub use boot_holder::{BootHolder, LentBoot, OwnedBoot};
pub use outcome::{BootFault, Outcome, Progress};

/// A boot on its way, over what holds its machine and its menu. It keeps no bytes of files: these
/// lie in the pool of the memory that each of its calls is handed.
#[derive(Drop)]
pub struct SessionOver<A: Allocator + Copy, H: BootHolder<A>> {
    alloc: A,
    holder: H,
    sizes: Vec<Option<u64>, A>,
    phase: Phase<A>,
}

/// A boot on its way whose machine and menu are lent.
pub type Session<'a, A> = SessionOver<A, LentBoot<'a, A>>;

/// A boot on its way that owns its machine and its menu: it may be kept where no borrow can, as
/// by C.
pub type OwnedSession<A> = SessionOver<A, OwnedBoot<A>>;

impl<A: Allocator + Copy, H: BootHolder<A>> Model for SessionOver<A, H> {
    ghost use Rattle.bl_session.specs.session.Phases.{SessionFacts, boot_facts, phase_facts};
    ghost use Rattle.bl_session.specs.internal.session.KeptPhases.{IsPhaseKept};

    ghost Value = { SessionFacts };

    ghost view = { λ s. record {
      boot = boot_facts (H.machine s.holder) (H.menu s.holder) s.sizes.items;
      phase = phase_facts (H.menu s.holder).attempts s.phase;
    } };

    ghost invariant = { λ s. IsPhaseKept (H.machine s.holder) (H.menu s.holder) s.phase };
}

impl<A: Allocator + Copy, H: BootHolder<A>> SessionOver<A, H> {
    /// The machine that it boots.
    pub fn machine(&self) -> &Machine<A>
        ensures { result.now ≡ self.now.boot.machine }
    {
        self.holder.machine()
    }

    /// Its menu.
    pub fn menu(&self) -> &Menu<A>
        ensures { result.now ≡ self.now.boot.menu }
    {
        self.holder.menu()
    }

    /// Gives room to the pool, and begins the first attempt. It acts once: later it changes
    /// nothing.
    ///
    /// Memory has the machine's size. While an attempt waits, and where memory ran out, no byte
    /// outside the pool changed; after a handover memory holds the parts, 0 elsewhere in the pool,
    /// and each other byte as before; where no entry is left, the pool is 0.
    pub fn start<M: PhysMem>(&mut self, memory: &mut M) -> Progress
        requires size { length (M.bytes memory.old) ≡ self.old.boot.machine.size }
        ensures boot { self.new.boot ≡ self.old.boot }
        ensures step { StartsOrFails self.old.boot (state_at (M.bytes memory.old) self.old.phase)
            (state_at (M.bytes memory.new) self.new.phase) }
        ensures progress { result ≡ boot.progress
            (attempt_number (state_at (M.bytes memory.old) self.old.phase))
            (state_at (M.bytes memory.new) self.new.phase) }
        ensures memory { self.old.phase ≡ not_started
            → IsMemoryAt self.old.boot.machine.pool (state_at (M.bytes memory.new) self.new.phase)
            (M.bytes memory.old) (M.bytes memory.new) }
        ensures unchanged { self.old.phase ≢ not_started
            → (self.new ≡ self.old) × (M.bytes memory.new ≡ M.bytes memory.old) }
        ensures room { self.old.phase ≡ not_started → is_waiting self.new.phase ≡ true
            → HasRoom (M.room memory.new)
            self.old.boot.machine.pool.start self.old.boot.machine.pool.end }
        ensures staged { KeepsFramesIn self.old.boot.machine.pool self.new.phase }
        ensures kept { KeepsSizeAndRoom M.lender M.bytes M.room memory.old memory.new }
    {
        let boot = BootContext::over(self.alloc, &self.holder, &self.sizes);
        let attempt = number_of(&self.phase);
        if let Phase::Unstarted = self.phase {
            self.phase = match reserve_and_begin(&boot, memory) {
                Ok(first) => first,
                Err(_) => Phase::Failed(BootFault::NoMemory),
            };
        }
        progress_of(boot.machine, boot.menu, attempt, &self.phase)
    }

    /// Takes one event. One that is not wanted changes nothing: before the start, after the end, of
    /// another attempt, of a piece that came, of no such file or piece, or of another length.
    ///
    /// While an attempt waits, the pool has room. Memory has the machine's size, and afterwards
    /// what is said at `start`.
    pub fn event<M: PhysMem>(&mut self, memory: &mut M, event: Event) -> Progress
        requires size { length (M.bytes memory.old) ≡ self.old.boot.machine.size }
        requires room { is_waiting self.old.phase ≡ true → HasRoom (M.room memory.old)
            self.old.boot.machine.pool.start self.old.boot.machine.pool.end }
        ensures boot { self.new.boot ≡ self.old.boot }
        ensures step { StepsToOrFails self.old.boot (state_at (M.bytes memory.old) self.old.phase)
            (event_facts event.entry) (state_at (M.bytes memory.new) self.new.phase) }
        ensures progress { result ≡ boot.progress
            (attempt_number (state_at (M.bytes memory.old) self.old.phase))
            (state_at (M.bytes memory.new) self.new.phase) }
        ensures memory { MatchBool
            (is_taken (state_at (M.bytes memory.old) self.old.phase) (event_facts event.entry))
            (IsMemoryAt self.old.boot.machine.pool (state_at (M.bytes memory.new) self.new.phase)
            (M.bytes memory.old) (M.bytes memory.new))
            (M.bytes memory.new ≡ M.bytes memory.old) }
        ensures unchanged { is_taken (state_at (M.bytes memory.old) self.old.phase)
            (event_facts event.entry) ≡ false → self.new ≡ self.old }
        ensures room { is_waiting self.new.phase ≡ true → HasRoom (M.room memory.new)
            self.old.boot.machine.pool.start self.old.boot.machine.pool.end }
        ensures staged { KeepsFramesIn self.old.boot.machine.pool self.new.phase }
        ensures kept { KeepsSizeAndRoom M.lender M.bytes M.room memory.old memory.new }
    {
        let boot = BootContext::over(self.alloc, &self.holder, &self.sizes);
        let attempt = number_of(&self.phase);
        if let Phase::Waits(running) = &mut self.phase {
            let ended = take_in_attempt(&boot, memory, running, event);
            go_on(&mut self.phase, ended);
        }
        progress_of(boot.machine, boot.menu, attempt, &self.phase)
    }

    /// The end, once there is one.
    pub fn outcome(&self) -> Option<Result<&Outcome<A>, &BootFault<A>>>
        ensures end { told_end result ≡ end_facts self.now.phase }
        ensures inside { IfSome result (λ end. IfOk end (λ outcome.
            LiesWithin self.now.boot.machine.size outcome.now.handoff)) }
    {
        match &self.phase {
            Phase::HandedOver(outcome) => Some(Ok(outcome)),
            Phase::Failed(fault) => Some(Err(fault)),
            Phase::Unstarted => None,
            Phase::Waits(_) => None,
        }
    }

    /// The end, once there is one, for good.
    pub fn into_outcome(self) -> Option<Result<Outcome<A>, BootFault<A>>>
        ensures end { option_map final_phase result ≡ end_facts self.phase }
        ensures inside { IfSome result (λ end. IfOk end (λ outcome.
            LiesWithin self.boot.machine.size outcome.handoff)) }
    {
        let SessionOver { phase, .. } = self;
        match phase {
            Phase::HandedOver(outcome) => Some(Ok(outcome)),
            Phase::Failed(fault) => Some(Err(fault)),
            Phase::Unstarted => None,
            Phase::Waits(_) => None,
        }
    }
}
