//! The menu of a description.
ghost use Rattle.std.specs.Prelude.{◌≡◌, ◌<◌, ◌^◌, All, IfOk, length, map};
ghost use Rattle.bl_load.specs.WellFormedEntry.{IsWellFormedValue};
ghost use Rattle.bl_load.specs.EntryValue.{IsWithinLimits};
ghost use Rattle.bl_session.specs.menu.Menu.{facts_of};
ghost use Rattle.bl_session.specs.declared.menu.fault.MenuFault.TheVariants as menu_fault;
ghost use Rattle.program_boots.specs.described.DescribedMenu as attempted;
ghost use Rattle.program_boots.specs.described.DescribedMenu.{entry_facts};
ghost use Rattle.program_boots.specs.internal.MenuRows.{AreEntriesOf, AreModulesOf};
ghost use Rattle.program_desc.specs.Views.{HasMenu, entry_view, view};

use bl_load::{Entry, Module};
use bl_mem::Bytes;
use bl_session::{Menu, MenuFault};
use program_desc::{Description, EntryForm, EntryRow, ModuleRow, file_index};
use std::alloc::{AllocError, Allocator};

/// The modules of an entry, whose files go by their places among the names.
fn modules_of<A: Allocator + Copy>(
    alloc: A,
    names: &[&str],
    rows: &[ModuleRow<A>],
) -> Result<Vec<Module<A>, A>, AllocError>
    requires { length names.now < 2 ^ 32 }
    ensures { IfOk result (λ modules.
        AreModulesOf (map (λ n. n.now) names.now) rows.now modules.items) }
{
    let mut modules = Vec::new(alloc);
    for row in rows {
        modules.push(Module {
            file: file_index(names, row.file.as_str()) as u32,
            line: Bytes::copy(alloc, row.line.as_str().as_bytes())?,
        })?;
    }
    Ok(modules)
}

/// A copy of the copy, if there is one.
fn copy_of<A: Allocator + Copy>(
    alloc: A,
    copy: &Option<Bytes<A>>,
) -> Result<Option<Bytes<A>>, AllocError>
    ensures { IfOk result (λ same. same ≡ copy.now) }
{
    match copy {
        Some(bytes) => Ok(Some(Bytes::copy(alloc, bytes.as_slice())?)),
        None => Ok(None),
    }
}

/// The entry of a row, whose files go by their places among the names.
#[tactic(auto, unfolding(bl_load::specs::EntryValue::IsWithinLimits))]
pub fn entry_of<A: Allocator + Copy>(
    alloc: A,
    names: &[&str],
    row: &EntryRow<A>,
) -> Result<Entry<A>, AllocError>
    requires { length names.now < 2 ^ 32 }
    ensures entry { IfOk result (λ entry.
        facts_of entry ≡ entry_facts (map (λ n. n.now) names.now) (entry_view row.now)) }
    ensures few { IfOk result IsWithinLimits }
{
    let kernel = file_index(names, row.kernel.as_str()) as u32;
    let line = Bytes::copy(alloc, row.line.as_str().as_bytes())?;
    match &row.form {
        EntryForm::Multiboot2 {
            modules,
            rsdp_old,
            rsdp_new,
        } => Ok(Entry::Multiboot2 {
            kernel,
            line,
            modules: modules_of(alloc, names, &modules.rows)?,
            rsdp_old: copy_of(alloc, rsdp_old)?,
            rsdp_new: copy_of(alloc, rsdp_new)?,
        }),
        EntryForm::Linux { initrd, wide } => Ok(Entry::Linux {
            kernel,
            line,
            initrd: match initrd {
                Some(file) => Some(file_index(names, file.as_str()) as u32),
                None => None,
            },
            wide: *wide,
        }),
    }
}

/// The entries of rows, whose files go by their places among the names.
fn entries_of<A: Allocator + Copy>(
    alloc: A,
    names: &[&str],
    rows: &[EntryRow<A>],
) -> Result<Vec<Entry<A>, A>, AllocError>
    requires { length names.now < 2 ^ 32 }
    ensures { IfOk result (λ entries.
        AreEntriesOf (map (λ n. n.now) names.now) rows.now entries.items) }
{
    let mut entries = Vec::new(alloc);
    for row in rows {
        entries.push(entry_of(alloc, names, row)?)?;
    }
    Ok(entries)
}

/// Want of memory, which is the only fault that the menu of a description has: its entries and
/// their modules are few, and its indices name entries.
fn no_memory(fault: MenuFault) -> AllocError
    requires { fault ≡ menu_fault.NoMemory }
{
    match fault {
        MenuFault::NoMemory => AllocError,
        MenuFault::TooMany | MenuFault::BadIndex => unreachable!(),
    }
}

/// The menu of a description, in which files go by their places among the names.
pub fn menu_of<A: Allocator + Copy>(
    alloc: A,
    names: &[&str],
    description: &Description<A>,
) -> Result<Menu<A>, AllocError>
    requires menu { HasMenu description.now }
    requires names { map (λ n. n.now) names.now
        ≡ attempted.attempted_file_names (view description.now) }
    requires few { length names.now < 2 ^ 32 }
    ensures menu { IfOk result (λ menu. menu ≡ attempted.menu_of (view description.now)) }
    ensures well_formed { IfOk result
        (λ menu. All (λ entry. IsWellFormedValue entry.blank) menu.entries) }
{
    let entries = entries_of(alloc, names, &description.entries)?;
    match Menu::new(alloc, entries, description.default, &description.fallbacks) {
        Ok(menu) => Ok(menu),
        Err(fault) => Err(no_memory(fault)),
    }
}

/// The title of an entry, by its index; none if there is no such entry.
pub fn title_of<A: Allocator>(description: &Description<A>, entry: u32) -> &str
    ensures { result.now ≡ (attempted.described_entry (view description.now) entry).title }
{
    match description.entries.get(entry as usize) {
        Some(row) => row.title.as_str(),
        None => "",
    }
}
