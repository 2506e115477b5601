//! A menu as the libraries take it.
ghost use Rattle.std.specs.Prelude.{◌≡◌, IfOk, IfErr, OnOk, length, map};
ghost use Rattle.bl_session.specs.menu.Menu.{facts_of};
ghost use Rattle.bl_session.specs.menu.MenuFaults.{AreEntryIndices, AreWithinLimits};
ghost use Rattle.c_records.specs.MenuGiven.{AreFewGiven, IsMenuAllowed, IsMenuFault, IsNoMenu};
ghost use Rattle.c_records.specs.MenuGiven.{entries_facts, menu_given};
ghost use Rattle.c_abi.specs.internal.Menus as spec;
ghost use Rattle.c_abi.specs.internal.Menus.{AreNotTaken};

use bl_load::Entry;
use bl_plan::MAX_ENTRIES;
use bl_session::{Menu, MenuFault};
use c_records::{EntryRecord, GivenFault, Misuse, check_entries, entry_of, have_few_modules};
use std::alloc::Allocator;

/// The entries of a menu; the files of each come after those of the entries before it.
fn entries_of<A: Allocator + Copy>(
    alloc: A,
    records: &[EntryRecord],
) -> Result<Vec<Entry<A>, A>, GivenFault>
    ensures facts { IfOk result
        (λ entries. map facts_of entries.items ≡ entries_facts 0 records.now) }
    ensures limits { IfOk result (λ entries. AreWithinLimits entries.items) }
    ensures fault { IfErr result (AreNotTaken records.now) }
{
    if records.len() > MAX_ENTRIES {
        return Err(GivenFault::Misused(Misuse::TooManyEntries));
    }
    if !have_few_modules(records) {
        return Err(GivenFault::Misused(Misuse::TooManyModules));
    }
    let mut entries = Vec::new(alloc);
    let mut before: u32 = 0;
    for record in records {
        let entry = match entry_of(alloc, record, before) {
            Ok(entry) => entry,
            Err(fault) => return Err(fault),
        };
        before += entry.file_count() as u32;
        let Ok(()) = entries.push(entry) else {
            return Err(GivenFault::NoMemory);
        };
    }
    Ok(entries)
}

/// A fault of a menu whose entries were taken: so they are not too many.
fn given_fault_of_menu(fault: MenuFault) -> GivenFault
    ensures { result ≡ spec.given_fault_of_menu fault }
{
    match fault {
        MenuFault::TooMany => GivenFault::Misused(Misuse::TooManyEntries),
        MenuFault::BadIndex => GivenFault::Misused(Misuse::BadIndex),
        MenuFault::NoMemory => GivenFault::NoMemory,
    }
}

/// The menu of entries that have no misuse.
fn menu_made<A: Allocator + Copy>(
    alloc: A,
    entries: &[EntryRecord],
    default: u32,
    fallbacks: &[u32],
) -> Result<Menu<A>, GivenFault>
    ensures menu { IfOk result (λ menu. menu ≡ menu_given entries.now default fallbacks.now) }
    ensures few { OnOk result (AreFewGiven entries.now) }
    ensures named { OnOk result (AreEntryIndices (length entries.now) default fallbacks.now) }
    ensures fault { IfErr result (IsNoMenu entries.now default fallbacks.now) }
{
    let typed = match entries_of(alloc, entries) {
        Ok(typed) => typed,
        Err(fault) => return Err(fault),
    };
    match Menu::new(alloc, typed, default, fallbacks) {
        Ok(menu) => Ok(menu),
        Err(fault) => Err(given_fault_of_menu(fault)),
    }
}

/// The menu that is given, if it may be.
pub(crate) fn menu_of<A: Allocator + Copy>(
    alloc: A,
    entries: &[EntryRecord],
    default: u32,
    fallbacks: &[u32],
) -> Result<Menu<A>, GivenFault>
    ensures menu { IfOk result (λ menu. menu ≡ menu_given entries.now default fallbacks.now) }
    ensures allowed { OnOk result (IsMenuAllowed entries.now default fallbacks.now) }
    ensures fault { IfErr result (IsMenuFault entries.now default fallbacks.now) }
{
    if let Err(misuse) = check_entries(entries) {
        return Err(GivenFault::Misused(misuse));
    }
    menu_made(alloc, entries, default, fallbacks)
}
