//! The files of a menu.
ghost use Rattle.std.specs.Prelude.{◌≡◌, ◌++◌, IfOk, OnOk, map, option_copied};
ghost use Rattle.bl_store.specs.Ledger.{sliced_file};
ghost use Rattle.c_abi.specs.Boot as spec;
ghost use Rattle.c_records.specs.Given.{files_given};
ghost use Rattle.c_records.specs.MenuGiven.{menu_files};

use bl_plan::Protocol;
use c_records::{EntryRecord, FileRecord, ModuleRecord, UNREADABLE};
use std::alloc::{AllocError, Allocator};

/// Appends the files of modules.
fn add_module_files<'a, A: Allocator>(
    modules: &[ModuleRecord<'a>],
    files: &mut Vec<FileRecord<'a>, A>,
) -> Result<(), AllocError>
    ensures { OnOk result (files.new.items ≡ files.old.items ++ map (λ m. m.file) modules.now) }
{
    for module in modules {
        files.push(module.file)?;
    }
    Ok(())
}

/// Appends the files of an entry, in order.
fn add_files<'a, A: Allocator>(
    entry: &EntryRecord<'a>,
    files: &mut Vec<FileRecord<'a>, A>,
) -> Result<(), AllocError>
    ensures { OnOk result (files.new.items ≡ files.old.items ++ files_given entry.now) }
{
    files.push(entry.kernel)?;
    if entry.is_of(Protocol::Multiboot2) {
        return add_module_files(entry.modules, files);
    }
    if entry.has_initrd == 0 {
        return Ok(());
    }
    files.push(entry.initrd)?;
    Ok(())
}

/// The files of all entries, one entry's after the other's.
pub(crate) fn files_of<'a, A: Allocator>(
    alloc: A,
    entries: &[EntryRecord<'a>],
) -> Result<Vec<FileRecord<'a>, A>, AllocError>
    ensures { IfOk result (λ files. files.items ≡ menu_files entries.now) }
{
    let mut files = Vec::new(alloc);
    for entry in entries {
        add_files(entry, &mut files)?;
    }
    Ok(files)
}

/// A file; none if it can't be read.
fn stored_of<'a>(file: &FileRecord<'a>) -> Option<&'a [u8]>
    ensures { sliced_file (option_copied result) ≡ spec.stored_given file.now }
{
    if file.length == UNREADABLE {
        return None;
    }
    Some(file.bytes)
}

/// The files of a menu, for a boot.
pub(crate) fn stored_files<'a, A: Allocator + Copy>(
    alloc: A,
    entries: &[EntryRecord<'a>],
) -> Result<Vec<Option<&'a [u8]>, A>, AllocError>
    ensures { IfOk result (λ files. map (λ file. sliced_file (option_copied file)) files.items
        ≡ spec.given_files entries.now) }
{
    let files = files_of(alloc, entries)?;
    let mut stored = Vec::new(alloc);
    for file in &files {
        stored.push(stored_of(file))?;
    }
    Ok(stored)
}
