//! The frames of the pool that an entry's files take, in a line.
ghost use Rattle.std.specs.Prelude.{◌≡◌, ◌*◌, ◌≤◌, ◌^◌, OnErr, OnOk, length, map};
ghost use Rattle.std.specs.Io.{StartsWith};
ghost use Rattle.bl_map.specs.PoolFrames as room;
ghost use Rattle.program_desc.specs.EntryNames.{file_names, names_beside};
ghost use Rattle.program_say.specs.internal.Frames.{frames_wanted, length_found, names_at};
ghost use Rattle.program_desc.specs.Views.{entry_view, form_view, module_view, view};

use crate::say;
use crate::subjects::{Sought, entry_at};
use bl_load::Handoff;
use bl_map::{Machine, frames_in, frames_of, open_frames};
use program_desc::{Description, EntryForm, EntryRow, ModuleRow};
use std::alloc::{AllocError, Allocator};

/// How many frames the file of this name takes.
fn frames_of_name<A: Allocator>(sought: &Sought<'_, A>, name: &str) -> u64
    ensures frames { result ≡ room.frames_of (length_found sought.now name.now) }
    ensures most { result ≤ 2 ^ 52 }
{
    match sought.size(name) {
        Some(size) => frames_of(size),
        None => 0,
    }
}

/// How many frames the files of modules take.
fn frames_of_modules<A: Allocator, B: Allocator>(
    sought: &Sought<'_, A>,
    modules: &[ModuleRow<B>],
) -> u64
    requires { length modules.now ≤ 64 }
    ensures frames { result ≡ frames_wanted sought.now
        (map (λ m. m.file) (map module_view modules.now)) }
    ensures most { result ≤ 2 ^ 52 * length modules.now }
{
    match modules {
        [] => 0,
        [first, rest @ ..] => {
            frames_of_name(sought, first.file.as_str()) + frames_of_modules(sought, rest)
        }
    }
}

/// How many frames the files beside the kernel take.
fn frames_of_files_beside<A: Allocator, B: Allocator>(
    sought: &Sought<'_, A>,
    form: &EntryForm<B>,
) -> u64
    ensures frames { result ≡ frames_wanted sought.now (names_beside (form_view form.now)) }
    ensures most { result ≤ 2 ^ 58 }
{
    match form {
        EntryForm::Multiboot2 { modules, .. } => frames_of_modules(sought, &modules.rows),
        EntryForm::Linux {
            initrd: Some(file),
            ..
        } => frames_of_name(sought, file.as_str()),
        EntryForm::Linux { initrd: None, .. } => 0,
    }
}

/// How many frames an entry's files take.
fn frames_of_entry<A: Allocator, B: Allocator>(sought: &Sought<'_, A>, entry: &EntryRow<B>) -> u64
    ensures { result ≡ frames_wanted sought.now (file_names (entry_view entry.now)) }
{
    frames_of_name(sought, entry.kernel.as_str()) + frames_of_files_beside(sought, &entry.form)
}

/// How many frames the files of an entry of the menu take, by its index.
pub fn frames_at<A: Allocator, B: Allocator>(
    description: &Description<B>,
    sought: &Sought<'_, A>,
    index: u32,
) -> u64
    ensures { result ≡ frames_wanted sought.now (names_at (view description.now).entries index) }
{
    match entry_at(description, index) {
        Some(entry) => frames_of_entry(sought, entry),
        None => 0,
    }
}

/// Appends a number between two texts.
pub fn say_counted<A: Allocator + Copy>(
    out: &mut Vec<u8, A>,
    before: &str,
    count: u64,
    behind: &str,
) -> Result<(), AllocError> {
    say!(out, "{before}{count}{behind}")
}

pub fn say_frames<A: Allocator + Copy>(
    out: &mut Vec<u8, A>,
    wanted: u64,
    beside: u64,
    all: u64,
) -> Result<(), AllocError> {
    say_counted(out, "frames ", wanted, " wanted, ")?;
    say_counted(out, "", beside, " open, ")?;
    say_counted(out, "", all, " in all\n")
}

/// Appends the line of the frames of an entry that is handed over. An error leaves the text as it
/// was.
pub fn say_handoff_frames<A: Allocator + Copy, B: Allocator>(
    out: &mut Vec<u8, A>,
    description: &Description<B>,
    sought: &Sought<'_, A>,
    machine: &Machine<B>,
    entry: u32,
    handoff: &Handoff<B>,
) -> Result<(), AllocError>
    ensures ok { OnOk result (StartsWith out.new.items out.old.items) }
    ensures err { OnErr result (out.new.items ≡ out.old.items) }
{
    let wanted = frames_at(description, sought, entry);
    let pool = machine.pool();
    // For the proof: places ascend.
    handoff.len();
    let beside = open_frames(&pool, handoff.ranges());
    let mut lines = Vec::new(*out.allocator());
    say_frames(&mut lines, wanted, beside, frames_in(&pool))?;
    out.extend_from_slice(&lines)
}
