//! The files of an entry, by their index in the menu.
ghost use Rattle.std.specs.Prelude.{◌≡◌, ◌<◌, ◌++◌, ℕ, IfOk, OnOk, length, map, slice_index_or};
ghost use Rattle.bl_load.specs.EntryValue.{IsWithinLimits};
ghost use Rattle.bl_session.specs.menu.Menu as menu;

use bl_load::{Entry, Module};
use std::alloc::{AllocError, Allocator};

/// Appends the indices of modules' files.
fn push_modules<A: Allocator>(
    files: &mut Vec<u32, A>,
    modules: &[Module<A>],
) -> Result<(), AllocError>
    ensures { OnOk result (files.new.items ≡ files.old.items ++ map (λ m. m.file) modules.now) }
{
    for module in modules {
        files.push(module.file)?;
    }
    Ok(())
}

/// The indices of an entry's files, in order, the kernel's first.
#[tactic(auto, unfolding(bl_load::specs::EntryValue::IsWithinLimits))]
pub fn files_of<A: Allocator + Copy>(alloc: A, entry: &Entry<A>) -> Result<Vec<u32, A>, AllocError>
    requires { IsWithinLimits entry.now }
    ensures { IfOk result (λ files. files.items ≡ menu.files_of entry.now) }
{
    let mut files = Vec::new(alloc);
    match entry {
        Entry::Multiboot2 {
            kernel,
            modules,
            ..
        } => {
            files.push(*kernel)?;
            push_modules(&mut files, modules)?;
        }
        Entry::Linux { kernel, initrd, .. } => {
            files.push(*kernel)?;
            if let Some(file) = initrd {
                files.push(*file)?;
            }
        }
    }
    Ok(files)
}

/// The index of the file at a place of an entry.
pub fn file_at<A: Allocator>(entry: &Entry<A>, place: usize) -> u32
    requires { place < length (menu.files_of entry.now) }
    ensures { (d : ℕ) → result ≡ slice_index_or (menu.files_of entry.now) place d }
{
    match entry {
        Entry::Multiboot2 {
            kernel,
            modules,
            ..
        } => {
            if place == 0 {
                *kernel
            } else {
                modules[place - 1].file
            }
        }
        Entry::Linux { kernel, initrd, .. } => match initrd {
            Some(file) if place == 1 => *file,
            _ => *kernel,
        },
    }
}
