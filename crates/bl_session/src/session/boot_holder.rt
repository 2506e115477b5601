//! What holds the machine and the menu of a session: both are lent to it, or its own.
ghost use Rattle.std.specs.Prelude.{◌≡◌, IfOk};
ghost use Rattle.bl_map.specs.MachineFacts.{MachineFacts};
ghost use Rattle.bl_session.specs.menu.Menu.{MenuFacts};
ghost use Rattle.bl_session.specs.session.Phases.{boot_facts, not_started};
ghost use Rattle.bl_session.specs.internal.session.KeptPhases.{facts_of_boot};

use crate::menu::Menu;
use crate::session::phase::{BootContext, Phase};
use crate::session::{OwnedSession, Session, SessionOver};
use bl_map::Machine;
use std::alloc::{AllocError, Allocator};

/// What holds the machine and the menu of a session.
pub trait BootHolder<A: Allocator>: Drop {
    ghost machine: { Self → MachineFacts };

    ghost menu: { Self → MenuFacts };

    /// The machine that is booted.
    fn machine(&self) -> &Machine<A>
        ensures { result.now ≡ machine self.now };

    /// The menu that is booted on it.
    fn menu(&self) -> &Menu<A>
        ensures { result.now ≡ menu self.now };
}

impl<'a, A: Allocator + Copy> BootContext<'a, A> {
    /// The boot of one call, over what holds its machine and its menu.
    pub fn over<H: BootHolder<A>>(
        alloc: A,
        holder: &'a H,
        sizes: &'a Vec<Option<u64>, A>,
    ) -> BootContext<'a, A>
        ensures { facts_of_boot result
            ≡ boot_facts (H.machine holder.now) (H.menu holder.now) sizes.now.items }
    {
        BootContext {
            alloc,
            machine: holder.machine(),
            menu: holder.menu(),
            sizes,
        }
    }
}

/// A machine and a menu that are lent.
#[derive(Drop)]
pub struct LentBoot<'a, A: Allocator> {
    machine: &'a Machine<A>,
    menu: &'a Menu<A>,
}

impl<'a, A: Allocator> BootHolder<A> for LentBoot<'a, A> {
    ghost machine = { λ b. b.machine.now };

    ghost menu = { λ b. b.menu.now };

    fn machine(&self) -> &Machine<A> {
        self.machine
    }

    fn menu(&self) -> &Menu<A> {
        self.menu
    }
}

impl<'a, A: Allocator + Copy> Session<'a, A> {
    /// A boot of this menu on this machine, not started. `sizes` has the length of each file of the
    /// menu, by its index; `None` is a missing file, and so is one after the end.
    pub fn new(
        alloc: A,
        machine: &'a Machine<A>,
        menu: &'a Menu<A>,
        sizes: &[Option<u64>],
    ) -> Result<Session<'a, A>, AllocError>
        ensures { IfOk result (λ session. session ≡ record {
          boot = boot_facts machine.now menu.now sizes.now;
          phase = not_started;
        }) }
    {
        Ok(SessionOver {
            alloc,
            holder: LentBoot { machine, menu },
            sizes: Vec::from_slice(alloc, sizes)?,
            phase: Phase::Unstarted,
        })
    }
}

/// A machine and a menu that are owned.
#[derive(Drop)]
pub struct OwnedBoot<A: Allocator> {
    machine: Machine<A>,
    menu: Menu<A>,
}

impl<A: Allocator> BootHolder<A> for OwnedBoot<A> {
    ghost machine = { λ b. b.machine };

    ghost menu = { λ b. b.menu };

    fn machine(&self) -> &Machine<A> {
        &self.machine
    }

    fn menu(&self) -> &Menu<A> {
        &self.menu
    }
}

impl<A: Allocator + Copy> OwnedSession<A> {
    /// A boot of this menu on this machine, not started, with sizes as of `Session::new`.
    pub fn new(
        alloc: A,
        machine: Machine<A>,
        menu: Menu<A>,
        sizes: Vec<Option<u64>, A>,
    ) -> OwnedSession<A>
        ensures { result ≡ record {
          boot = boot_facts machine menu sizes.items;
          phase = not_started;
        } }
    {
        SessionOver {
            alloc,
            holder: OwnedBoot { machine, menu },
            sizes,
            phase: Phase::Unstarted,
        }
    }
}
