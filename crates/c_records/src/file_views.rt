//! Files as the loader takes them: their bytes, or their lengths alone.
ghost use Rattle.std.specs.Prelude.{◌≡◌, ◌++◌, IfOk, OnOk, map};
ghost use Rattle.c_records.specs.Given as spec;

use crate::given_records::{EntryRecord, ModuleRecord};
use bl_mem::SliceView;
use bl_plan::Protocol;
use std::alloc::{AllocError, Allocator};

/// Appends the files of modules.
fn add_modules<'a, A: Allocator>(
    modules: &[ModuleRecord<'a>],
    views: &mut Vec<SliceView<'a>, A>,
) -> Result<(), AllocError>
    ensures { OnOk result (map (λ v. v.bytes.now) views.new.items
        ≡ map (λ v. v.bytes.now) views.old.items
        ++ map (λ file. file.bytes.now) (map (λ m. m.file) modules.now)) }
{
    for module in modules {
        views.push(SliceView::new(module.file.bytes))?;
    }
    Ok(())
}

/// Appends the files of an entry beside the kernel.
fn add_beside<'a, A: Allocator>(
    entry: &EntryRecord<'a>,
    views: &mut Vec<SliceView<'a>, A>,
) -> Result<(), AllocError>
    ensures { OnOk result (map (λ v. v.bytes.now) views.new.items
        ≡ map (λ v. v.bytes.now) views.old.items
        ++ map (λ file. file.bytes.now) (spec.files_beside entry.now)) }
{
    if entry.is_of(Protocol::Multiboot2) {
        return add_modules(entry.modules, views);
    }
    if entry.has_initrd == 0 {
        return Ok(());
    }
    views.push(SliceView::new(entry.initrd.bytes))?;
    Ok(())
}

/// The files of an entry, in order.
pub fn views_of<'a, A: Allocator + Copy>(
    alloc: A,
    entry: &EntryRecord<'a>,
) -> Result<Vec<SliceView<'a>, A>, AllocError>
    ensures { IfOk result
        (λ views. map (λ v. v.bytes.now) views.items ≡ spec.texts_given entry.now) }
{
    let mut views = Vec::new(alloc);
    views.push(SliceView::new(entry.kernel.bytes))?;
    add_beside(entry, &mut views)?;
    Ok(views)
}

/// Appends the lengths of modules' files.
fn add_module_lengths<A: Allocator>(
    modules: &[ModuleRecord],
    lengths: &mut Vec<u64, A>,
) -> Result<(), AllocError>
    ensures { OnOk result (lengths.new.items ≡ lengths.old.items
        ++ map (λ file. file.length) (map (λ m. m.file) modules.now)) }
{
    for module in modules {
        lengths.push(module.file.length)?;
    }
    Ok(())
}

/// The lengths of an entry's files beside the kernel, in order, as they are told.
pub fn lengths_beside<A: Allocator + Copy>(
    alloc: A,
    entry: &EntryRecord,
) -> Result<Vec<u64, A>, AllocError>
    ensures { IfOk result (λ lengths. lengths.items ≡ spec.lengths_beside entry.now) }
{
    let mut lengths = Vec::new(alloc);
    if entry.is_of(Protocol::Multiboot2) {
        add_module_lengths(entry.modules, &mut lengths)?;
        return Ok(lengths);
    }
    if entry.has_initrd == 0 {
        return Ok(lengths);
    }
    lengths.push(entry.initrd.length)?;
    Ok(lengths)
}
