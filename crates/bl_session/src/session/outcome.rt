//! Where a session stands, and what it comes to.
ghost use Rattle.std.specs.Prelude.{◌≡◌};

use bl_load::{Handoff, RefusedEntry};
use std::alloc::Allocator;
use std::error::Error;
use std::fmt;

/// Where a session stands after a call.
#[derive(Clone, Copy, Debug, PartialEq, Eq)]
pub enum Progress {
    /// The attempt waits for pieces, or the session was not started.
    Waiting,
    /// One or more attempts were refused, and the one of this number waits for pieces.
    Next(u32),
    /// An entry was handed over.
    Done,
    /// No entry is left, or memory ran out.
    Failed,
}

/// The entry that is handed over, by its index in the menu, with the refusals before it, in order.
#[derive(Drop)]
pub struct Outcome<A: Allocator> {
    pub entry: u32,
    pub refused: Vec<RefusedEntry, A>,
    pub handoff: Handoff<A>,
}

/// By hand, as of `BootFault`: a derive would ask it of the allocator too.
impl<A: Allocator> fmt::Debug for Outcome<A> {
    fn fmt<W: fmt::Write>(&self, f: &mut fmt::Formatter<W>) -> fmt::Result {
        f.debug_struct("Outcome")
            .field("entry", &self.entry)
            .field("refused", &self.refused.as_slice())
            .field("handoff", &self.handoff)
            .finish()
    }
}

/// Why nothing is handed over.
#[derive(Drop)]
pub enum BootFault<A: Allocator> {
    /// Each entry was refused: all refusals, in order.
    NoEntryLeft(Vec<RefusedEntry, A>),
    /// Memory ran out.
    NoMemory,
}

impl<A: Allocator> BootFault<A> {
    ghost use Rattle.bl_session.specs.session.BootFaults.{boot_fault_number};

    /// The fault's number, 40 or 41.
    pub fn number(&self) -> u32
        ensures { result ≡ boot_fault_number self.now }
    {
        match self {
            // >>> tools/refusals: numbers of BootFault
            BootFault::NoEntryLeft(_) => 40,
            BootFault::NoMemory => 41,
            // <<<
        }
    }
}

impl<A: Allocator> fmt::Debug for BootFault<A> {
    fn fmt<W: fmt::Write>(&self, f: &mut fmt::Formatter<W>) -> fmt::Result {
        match self {
            BootFault::NoEntryLeft(refused) => f
                .debug_tuple("NoEntryLeft")
                .field(&refused.as_slice())
                .finish(),
            BootFault::NoMemory => f.write_str("NoMemory"),
        }
    }
}

/// As `no entry is left` or `no memory`; each refusal prints by itself.
impl<A: Allocator> fmt::Display for BootFault<A> {
    ghost use Rattle.std.specs.Prelude.{Some};
    ghost use Rattle.bl_session.specs.session.BootFaults.{boot_fault_text};

    ghost output = { λ fault. Some (boot_fault_text fault) };

    fn fmt<W: fmt::Write>(&self, f: &mut fmt::Formatter<W>) -> fmt::Result {
        match self {
            BootFault::NoEntryLeft(_) => f.write_str("no entry is left"),
            BootFault::NoMemory => f.write_str("no memory"),
        }
    }
}

impl<A: Allocator> Error for BootFault<A> {}
