//! Why there is no menu.
ghost use Rattle.std.specs.Prelude.{◌≡◌, ◌↔◌, All, IsTrue};
ghost use Rattle.bl_load.specs.EntryValue.{IsWithinLimits};
ghost use Rattle.bl_session.specs.menu.MenuFaults.{AreWithinLimits, AreEntryIndices};
ghost use Rattle.bl_session.specs.declared.menu.fault.MenuFault.TheVariants.{NoMemory};

use bl_load::Entry;
use bl_plan::MAX_ENTRIES;
use std::alloc::{AllocError, AllocFailed, Allocator};
use thiserror::Error;

/// Why there is no menu: the first fault in the order `TooMany`, `BadIndex`. Memory may run out if
/// there is none.
#[derive(Clone, Copy, Debug, PartialEq, Eq, Error)]
pub enum MenuFault {
    #[error("an index names no entry")]
    BadIndex,
    #[error("too many entries or modules, or a copy of an RSDP that has no byte or too many")]
    TooMany,
    #[error("no memory")]
    NoMemory,
}

impl MenuFault {
    ghost use Rattle.bl_session.specs.menu.MenuFaults.{menu_fault_number};

    /// The fault's number, 51 to 53.
    pub fn number(self) -> u32
        ensures { result ≡ menu_fault_number self }
    {
        match self {
            // >>> tools/refusals: numbers of MenuFault
            MenuFault::BadIndex => 51,
            MenuFault::TooMany => 52,
            MenuFault::NoMemory => 53,
            // <<<
        }
    }
}

impl From<AllocError> for MenuFault {
    ghost from_gives = { λ _ fault. fault ≡ NoMemory };

    fn from(_: AllocError) -> MenuFault {
        MenuFault::NoMemory
    }
}

impl<T: Drop> From<AllocFailed<T>> for MenuFault {
    ghost from_gives = { λ _ fault. fault ≡ NoMemory };

    fn from(_: AllocFailed<T>) -> MenuFault {
        MenuFault::NoMemory
    }
}

/// Whether each entry has at most 64 modules, and copies of 1 to 256 bytes.
fn each_is_within_limits<A: Allocator>(entries: &[Entry<A>]) -> bool
    ensures { IsTrue result ↔ All IsWithinLimits entries.now }
{
    match entries {
        [] => true,
        [entry, rest @ ..] => entry.is_within_limits() && each_is_within_limits(rest),
    }
}

pub(crate) fn are_within_limits<A: Allocator>(entries: &[Entry<A>]) -> bool
    ensures { IsTrue result ↔ AreWithinLimits entries.now }
{
    entries.len() <= MAX_ENTRIES && each_is_within_limits(entries)
}

/// Whether each index names one of so many entries.
pub(crate) fn are_entry_indices(count: usize, default: u32, fallbacks: &[u32]) -> bool
    ensures { IsTrue result ↔ AreEntryIndices count default fallbacks.now }
{
    (default as usize) < count && fallbacks.iter().all(|index| (*index as usize) < count)
}
