//! An entry of a description, with its files as they were found.
ghost use Rattle.std.specs.Prelude.{◌≡◌, ◌∷◌, [], ◌++◌, IfOk, IfErr, OnOk, map};
ghost use Rattle.bl_load.specs.Parts.{IsPrepFault};
ghost use Rattle.program_desc.specs.EntryNames.{file_names, names_beside};
ghost use Rattle.program_say.specs.Sought.{bytes_found};
ghost use Rattle.program_boots.specs.internal.FoundEntries.{IsFoundEntry, IsFoundPlan};
ghost use Rattle.program_boots.specs.internal.FoundEntries.{texts_of_views};
ghost use Rattle.program_boots.specs.explaining.Details.{value_sought};
ghost use Rattle.program_desc.specs.Views.{entry_view, form_view, module_view};

use crate::described::entry_of;
use bl_load::{Entry, Plan, PrepFault, prepare};
use bl_map::Machine;
use bl_mem::SliceView;
use program_desc::{EntryForm, EntryRow, ModuleRow};
use program_say::Sought;
use std::alloc::{AllocError, Allocator};

/// Appends the bytes of the file of this name.
fn add_text<'s, A: Allocator>(
    texts: &mut Vec<SliceView<'s>, A>,
    sought: &'s Sought<'_, A>,
    name: &str,
) -> Result<(), AllocError>
    ensures { OnOk result (texts_of_views texts.new.items ≡ texts_of_views texts.old.items
        ++ bytes_found sought.now name.now ∷ []) }
{
    texts.push(SliceView::new(sought.bytes(name)))?;
    Ok(())
}

/// Appends the bytes of the files of modules.
fn add_modules<'s, A: Allocator, B: Allocator>(
    texts: &mut Vec<SliceView<'s>, A>,
    sought: &'s Sought<'_, A>,
    modules: &[ModuleRow<B>],
) -> Result<(), AllocError>
    ensures { OnOk result (texts_of_views texts.new.items ≡ texts_of_views texts.old.items
        ++ map (bytes_found sought.now) (map (λ m. m.file) (map module_view modules.now))) }
{
    match modules {
        [] => Ok(()),
        [first, rest @ ..] => {
            add_text(texts, sought, first.file.as_str())?;
            add_modules(texts, sought, rest)
        }
    }
}

/// Appends the bytes of the files beside the kernel.
fn add_beside<'s, A: Allocator, B: Allocator>(
    texts: &mut Vec<SliceView<'s>, A>,
    sought: &'s Sought<'_, A>,
    form: &EntryForm<B>,
) -> Result<(), AllocError>
    ensures { OnOk result (texts_of_views texts.new.items ≡ texts_of_views texts.old.items
        ++ map (bytes_found sought.now) (names_beside (form_view form.now))) }
{
    match form {
        EntryForm::Multiboot2 { modules, .. } => add_modules(texts, sought, &modules.rows),
        EntryForm::Linux {
            initrd: Some(file),
            ..
        } => add_text(texts, sought, file.as_str()),
        EntryForm::Linux { initrd: None, .. } => Ok(()),
    }
}

/// The bytes of an entry's files, in order, the kernel's first; a file that is missing or too long
/// has none.
fn entry_texts<'s, A: Allocator, B: Allocator>(
    alloc: A,
    sought: &'s Sought<'_, A>,
    entry: &EntryRow<B>,
) -> Result<Vec<SliceView<'s>, A>, AllocError>
    ensures { IfOk result (λ texts. texts_of_views texts.items
        ≡ map (bytes_found sought.now) (file_names (entry_view entry.now))) }
{
    let mut texts = Vec::new(alloc);
    add_text(&mut texts, sought, entry.kernel.as_str())?;
    add_beside(&mut texts, sought, &entry.form)?;
    Ok(texts)
}

/// An entry of a description, whose files are those that were found for their names.
#[derive(Drop)]
pub struct FoundEntry<'s, A: Allocator> {
    pub entry: Entry<A>,
    pub files: Vec<SliceView<'s>, A>,
}

/// The entry of a row. The places of its files' names are of no account.
pub fn entry_with_files<'s, A: Allocator + Copy>(
    alloc: A,
    sought: &'s Sought<'_, A>,
    row: &EntryRow<A>,
) -> Result<FoundEntry<'s, A>, AllocError>
    ensures { IfOk result (IsFoundEntry sought.now (entry_view row.now)) }
{
    let files = entry_texts(alloc, sought, row)?;
    let entry = entry_of(alloc, &[], row)?;
    Ok(FoundEntry { entry, files })
}

/// What is loaded for the entry of a row, or its first refusal.
pub fn plan_found<A: Allocator + Copy>(
    alloc: A,
    machine: &Machine<A>,
    sought: &Sought<'_, A>,
    row: &EntryRow<A>,
) -> Result<Plan<A>, PrepFault>
    ensures planned { IfOk result
        (IsFoundPlan machine.now (value_sought sought.now (entry_view row.now))) }
    ensures fault { IfErr result
        (IsPrepFault machine.now (value_sought sought.now (entry_view row.now))) }
{
    let found = entry_with_files(alloc, sought, row)?;
    prepare(alloc, machine, &found.entry, &found.files)
}
