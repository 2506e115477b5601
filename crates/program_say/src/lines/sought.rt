//! The files of an entry that is attempted, line by line.
ghost use Rattle.std.specs.Prelude.{◌+◌, ◌<◌, ◌^◌, length};

use crate::blame::say_name;
use crate::say;
use crate::subjects::Sought;
use bl_map::frames_of;
use program_desc::{EntryForm, EntryRow, ModuleRow};
use std::alloc::{AllocError, Allocator};

/// Appends what stands before a file's name: its place in the entry and its length, if there is
/// such a file.
fn say_front<A: Allocator + Copy>(
    out: &mut Vec<u8, A>,
    place: u64,
    size: Option<u64>,
) -> Result<(), AllocError> {
    match size {
        None => say!(out, "no file {place} "),
        Some(size) => say!(out, "file {place} {size} {} ", frames_of(size)),
    }
}

/// Appends the line of a file by its name, at this place of the entry.
fn say_sought<A: Allocator + Copy>(
    out: &mut Vec<u8, A>,
    sought: &Sought<'_, A>,
    place: u64,
    name: &str,
) -> Result<(), AllocError> {
    say_front(out, place, sought.size(name))?;
    say_name(out, name.as_bytes())?;
    out.extend_from_slice(b"\n")
}

/// Appends the lines of the files of modules, from this place of the entry on.
fn say_modules<A: Allocator + Copy, B: Allocator>(
    out: &mut Vec<u8, A>,
    sought: &Sought<'_, A>,
    place: u64,
    modules: &[ModuleRow<B>],
) -> Result<(), AllocError>
    requires { place + length modules.now < 2 ^ 64 }
{
    match modules {
        [] => Ok(()),
        [first, rest @ ..] => {
            say_sought(out, sought, place, first.file.as_str())?;
            say_modules(out, sought, place + 1, rest)
        }
    }
}

/// Appends the lines of an entry's files, the kernel's first.
pub fn say_entry_files<A: Allocator + Copy, B: Allocator>(
    out: &mut Vec<u8, A>,
    sought: &Sought<'_, A>,
    entry: &EntryRow<B>,
) -> Result<(), AllocError> {
    say_sought(out, sought, 0, entry.kernel.as_str())?;
    match &entry.form {
        EntryForm::Multiboot2 { modules, .. } => say_modules(out, sought, 1, &modules.rows),
        EntryForm::Linux {
            initrd: Some(file),
            ..
        } => say_sought(out, sought, 1, file.as_str()),
        EntryForm::Linux { initrd: None, .. } => Ok(()),
    }
}
