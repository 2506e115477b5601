//! The menu, and the order in which its entries are attempted.
ghost use Rattle.std.specs.Prelude.{◌≡◌, ◌∷◌, ◌++◌, ◌==◌, ◌+◌, ◌<◌, ◌≤◌, ◌^◌, ℕ, [], length, map};
ghost use Rattle.std.specs.Prelude.{All, IfErr, IfOk, OnOk, slice_index_or, if◌then◌else◌};
ghost use Rattle.std.specs.List.{list_any};
ghost use Rattle.bl_load.specs.WellFormedEntry.{IsWellFormedEntry, IsWellFormedValue};
ghost use Rattle.bl_load.specs.EntryValue.{IsWithinLimits};
ghost use Rattle.bl_session.specs.menu.Menu.{facts_of, entry_at};
ghost use Rattle.bl_session.specs.menu.AttemptOrder.{attempt_order};
ghost use Rattle.bl_session.specs.menu.MenuFaults.{AreWithinLimits, AreEntryIndices};
ghost use Rattle.bl_session.specs.menu.MenuFaults.{HasMenuFault};
ghost use Rattle.bl_session.specs.menu.NamedFiles as attempts;

use crate::menu::fault::{are_entry_indices, are_within_limits};
use crate::menu::lines_and_copies::entries_are_well_formed;
use crate::menu::named_files::named_file_count;
use bl_load::Entry;
use std::alloc::{AllocError, Allocator};
use std::marker::Model;

pub(crate) mod entry_files;
mod fault;
mod lines_and_copies;
mod named_files;

pub use fault::MenuFault;

/// Entries, and the order in which they are attempted.
#[derive(Drop)]
pub struct Menu<A: Allocator> {
    entries: Vec<Entry<A>, A>,
    attempts: Vec<u32, A>,
}

impl<A: Allocator> Model for Menu<A> {
    ghost use Rattle.std.specs.Prelude.{◌<◌, ◌≤◌, [], length, map, All};
    ghost use Rattle.bl_load.specs.WellFormedEntry.{IsWellFormedEntry};
    ghost use Rattle.bl_load.specs.EntryValue.{IsWithinLimits};
    ghost use Rattle.bl_session.specs.menu.Menu.{MenuFacts, facts_of};
    ghost use Rattle.bl_plan.specs.MenuLimits.{max_entries};

    ghost Value = { MenuFacts };

    ghost view = { λ menu. record {
      entries = map facts_of menu.entries.items;
      attempts = menu.attempts.items;
    } };

    ghost invariant = { λ menu.
        All (λ entry. entry < length menu.entries.items) menu.attempts.items
        × All IsWithinLimits menu.entries.items
        × All IsWellFormedEntry menu.entries.items
        × (length menu.attempts.items ≤ max_entries) };
}

fn is_among(index: u32, earlier: &[u32]) -> bool
    ensures { result ≡ list_any (λ i. i == index) earlier.now }
{
    earlier.iter().any(|i| *i == index)
}

/// Appends an index, if it is not among the earlier ones.
fn add_once<A: Allocator>(attempts: &mut Vec<u32, A>, index: u32) -> Result<(), AllocError>
    ensures { OnOk result (attempts.new.items ≡ (if list_any (λ i. i == index) attempts.old.items
        then attempts.old.items else attempts.old.items ++ index ∷ [])) }
{
    if !is_among(index, attempts) {
        attempts.push(index)?;
    }
    Ok(())
}

/// The order in which entries are attempted: the default, then the fallbacks, one that was named
/// before left out.
pub fn order_attempts<A: Allocator>(
    alloc: A,
    default: u32,
    fallbacks: &[u32],
) -> Result<Vec<u32, A>, AllocError>
    ensures { IfOk result (λ attempts. attempts.items ≡ attempt_order default fallbacks.now) }
{
    let mut attempts = Vec::new(alloc);
    attempts.push(default)?;
    for index in fallbacks {
        add_once(&mut attempts, *index)?;
    }
    Ok(attempts)
}

impl<A: Allocator + Copy> Menu<A> {
    /// A menu of these entries, by their index from 0: the default is attempted first, and then the
    /// fallbacks in order, one that was named before left out.
    ///
    /// - `TooMany`: there are more than 32 entries, or more than 64 modules in one, or a copy of an
    ///   RSDP has not 1 to 256 bytes.
    /// - `BadIndex`: the default or a fallback names no entry, as each index does if there is none.
    /// - `NoMemory`: there was no memory for the list of attempts.
    ///
    /// Each entry is within these limits, and its lines and copies are bytes, so that of what it
    /// hands over its kernel sees the entry.
    pub fn new(
        alloc: A,
        entries: Vec<Entry<A>, A>,
        default: u32,
        fallbacks: &[u32],
    ) -> Result<Menu<A>, MenuFault>
        ensures ok { IfOk result (λ menu. menu ≡ record {
          entries = map facts_of entries.items;
          attempts = attempt_order default fallbacks.now;
        }) }
        ensures allowed { OnOk result (AreWithinLimits entries.items
            × AreEntryIndices (length entries.items) default fallbacks.now) }
        ensures first_fault { IfErr result (HasMenuFault entries.items default fallbacks.now) }
        ensures well_formed { IfOk result
            (λ menu. All (λ entry. IsWellFormedValue entry.blank) menu.entries) }
    {
        let offered = entries.as_slice();
        if !are_within_limits(offered) {
            return Err(MenuFault::TooMany);
        }
        if !are_entry_indices(offered.len(), default, fallbacks) {
            return Err(MenuFault::BadIndex);
        }
        // For the proof: all lines and copies are bytes.
        entries_are_well_formed(offered);
        let attempts = order_attempts(alloc, default, fallbacks)?;
        Ok(Menu { entries, attempts })
    }
}

impl<A: Allocator> Menu<A> {
    /// How many files the menu names: the greatest index of a file plus 1, or 0 if no entry names
    /// a file. At most 2^32. `run` asks for the size of each index below it, also of one that no
    /// entry names: number a menu's files without gaps.
    pub fn files(&self) -> usize
        ensures count { result ≡ attempts.named_file_count self.now.entries }
        ensures few { result ≤ 2 ^ 32 }
    {
        named_file_count(&self.entries)
    }

    /// How many attempts there are, at most 32.
    pub fn attempts(&self) -> usize
        ensures count { result ≡ length self.now.attempts }
        ensures few { result ≤ 32 }
    {
        self.attempts.len()
    }

    /// The index of the entry of an attempt.
    pub fn entry_of(&self, attempt: usize) -> u32
        requires { attempt < length self.now.attempts }
        ensures entry { (d : ℕ) → result ≡ slice_index_or self.now.attempts attempt d }
        ensures inside { result < length self.now.entries }
    {
        self.attempts[attempt]
    }

    /// An entry, by its index.
    pub fn entry(&self, index: u32) -> &Entry<A>
        requires { index < length self.now.entries }
        ensures entry { facts_of result.now ≡ entry_at self.now index }
        ensures limits { IsWithinLimits result.now }
        ensures well_formed { IsWellFormedEntry result.now }
    {
        &self.entries[index as usize]
    }
}
