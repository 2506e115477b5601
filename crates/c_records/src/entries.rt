//! Entries as the libraries take them.
ghost use Rattle.std.specs.Prelude.{◌≡◌, ◌+◌, ◌<◌, ◌≤◌, ◌^◌, ◌∷◌, [], None, IfOk, IfErr, OnOk};
ghost use Rattle.std.specs.Prelude.{length, map, option_to_list};
ghost use Rattle.bl_load.specs.EntryValue.{file_count, value_of, IsWithinLimits};
ghost use Rattle.bl_session.specs.menu.Menu.{facts_of, files_of};
ghost use Rattle.c_records.specs.Given as spec;
ghost use Rattle.c_records.specs.GivenChecks.{entry_misuse};
ghost use Rattle.c_records.specs.EntryFaults.{IsEntryGivenFault, IsEntrySizeFault};
ghost use Rattle.c_records.specs.MenuGiven.{numbered, entry_facts_given};

use crate::given_checks::check_entry;
use crate::given_fault::GivenFault;
use crate::given_records::{EntryRecord, ModuleRecord};
use crate::misuse::Misuse;
use bl_load::{Entry, Module};
use bl_mem::Bytes;
use bl_plan::{MAX_MODULES, Protocol};
use std::alloc::{AllocError, Allocator};

/// Modules, whose files are numbered from a first one on.
fn modules_of<A: Allocator + Copy>(
    alloc: A,
    rows: &[ModuleRecord],
    first: u32,
) -> Result<Vec<Module<A>, A>, AllocError>
    requires { first + length rows.now < 2 ^ 32 }
    ensures files { IfOk result
        (λ modules. map (λ m. m.file) modules.items ≡ numbered first rows.now) }
    ensures lines { IfOk result
        (λ modules. map (λ m. m.line) modules.items ≡ map (λ m. m.line.now) rows.now) }
{
    let mut modules = Vec::new(alloc);
    let mut file = first;
    for row in rows {
        modules.push(Module::new(alloc, file, row.line)?)?;
        file += 1;
    }
    Ok(modules)
}

/// A copy of the RSDP.
fn copy_of<A: Allocator + Copy>(alloc: A, copy: &[u8]) -> Result<Option<Bytes<A>>, AllocError>
    ensures { IfOk result (λ made. made ≡ spec.copy_given copy.now) }
{
    if copy.is_empty() {
        return Ok(None);
    }
    Ok(Some(Bytes::copy(alloc, copy)?))
}

/// The initial ramdisk, whose file has this number.
fn initrd_of(row: &EntryRecord, file: u32) -> Option<u32>
    ensures { option_to_list result ≡ numbered file (spec.initrd_given row.now) }
{
    if row.has_initrd == 0 {
        return None;
    }
    Some(file)
}

/// An entry of protocol 1, whose files are numbered from `before` on.
fn multiboot2_of<A: Allocator + Copy>(
    alloc: A,
    row: &EntryRecord,
    before: u32,
) -> Result<Entry<A>, AllocError>
    requires before { before ≤ 2 ^ 31 }
    requires few { length row.now.modules.now ≤ 64 }
    ensures value { IfOk result (λ made. value_of [] made ≡ spec.multiboot2_without_files row.now) }
    ensures files { IfOk result
        (λ made. files_of made ≡ before ∷ numbered (before + 1) row.now.modules.now) }
{
    Ok(Entry::Multiboot2 {
        kernel: before,
        line: Bytes::copy(alloc, row.line)?,
        modules: modules_of(alloc, row.modules, before + 1)?,
        rsdp_old: copy_of(alloc, row.rsdp_old)?,
        rsdp_new: copy_of(alloc, row.rsdp_new)?,
    })
}

/// An entry of another protocol, whose files are numbered from `before` on.
#[tactic(auto, unfolding(bl_load::specs::EntryValue::IsWithinLimits))]
fn linux_of<A: Allocator + Copy>(
    alloc: A,
    row: &EntryRecord,
    before: u32,
) -> Result<Entry<A>, AllocError>
    requires { before ≤ 2 ^ 31 }
    ensures value { IfOk result (λ made. value_of [] made ≡ spec.linux_without_files row.now) }
    ensures files { IfOk result (λ made. files_of made
        ≡ before ∷ numbered (before + 1) (spec.initrd_given row.now)) }
    ensures limits { IfOk result IsWithinLimits }
{
    Ok(Entry::Linux {
        kernel: before,
        line: Bytes::copy(alloc, row.line)?,
        initrd: initrd_of(row, before + 1),
        wide: row.is_of(Protocol::Linux64),
    })
}

/// An entry, whose files are numbered from `before` on: the kernel's first, and then those of its
/// modules or its initial ramdisk. Its protocol is not looked into here.
pub fn entry_of<A: Allocator + Copy>(
    alloc: A,
    row: &EntryRecord,
    before: u32,
) -> Result<Entry<A>, GivenFault>
    requires { before ≤ 2 ^ 31 }
    ensures value { IfOk result (λ made. value_of [] made ≡ spec.entry_without_files row.now) }
    ensures facts { IfOk result (λ made. facts_of made ≡ entry_facts_given before row.now) }
    ensures count { IfOk result (λ made. file_count made ≡ length (spec.files_given row.now)) }
    ensures limits { IfOk result IsWithinLimits }
    ensures fault { IfErr result (IsEntrySizeFault row.now) }
{
    if !row.is_of(Protocol::Multiboot2) {
        return Ok(linux_of(alloc, row, before)?);
    }
    // before the files are numbered: so no number is too high
    if row.modules.len() > MAX_MODULES {
        return Err(GivenFault::Misused(Misuse::TooManyModules));
    }
    let entry = multiboot2_of(alloc, row, before)?;
    if !entry.is_within_limits() {
        return Err(GivenFault::Misused(Misuse::LongRsdp));
    }
    Ok(entry)
}

/// The entry that is given, if it may be.
pub fn take_entry<A: Allocator + Copy>(alloc: A, row: &EntryRecord) -> Result<Entry<A>, GivenFault>
    ensures value { IfOk result (λ entry. value_of [] entry ≡ spec.entry_without_files row.now) }
    ensures count { IfOk result (λ entry. file_count entry ≡ length (spec.files_given row.now)) }
    ensures limits { IfOk result IsWithinLimits }
    ensures sound { OnOk result (entry_misuse row.now ≡ None) }
    ensures fault { IfErr result (IsEntryGivenFault row.now) }
{
    check_entry(row)?;
    entry_of(alloc, row, 0)
}
