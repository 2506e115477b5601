//! The entries that are attempted, line by line, for a person.
ghost use Rattle.std.specs.Prelude.{◌≡◌, OnErr, OnOk};
ghost use Rattle.std.specs.Io.{StartsWith};

use crate::lines::refusal::say_explained_refusal;
use crate::lines::refusal_detail::say_detail;
use crate::lines::sought::say_entry_files;
use crate::say;
use crate::subjects::{Sought, ToldRefusal, entry_at};
use bl_map::Machine;
use program_desc::Description;
use std::alloc::{AllocError, Allocator};

fn say_entry<A: Allocator + Copy, B: Allocator>(
    out: &mut Vec<u8, A>,
    description: &Description<B>,
    sought: &Sought<'_, A>,
    index: u32,
) -> Result<(), AllocError> {
    match entry_at(description, index) {
        Some(entry) => {
            say!(out, "entry {index} {}\n", entry.title.as_str())?;
            say_entry_files(out, sought, entry)
        }
        None => Ok(()),
    }
}

/// Appends the lines of an entry of the menu: its index and its title, then its files. An error
/// leaves the text as it was.
pub fn say_attempt<A: Allocator + Copy, B: Allocator>(
    out: &mut Vec<u8, A>,
    description: &Description<B>,
    sought: &Sought<'_, A>,
    index: u32,
) -> Result<(), AllocError>
    ensures ok { OnOk result (StartsWith out.new.items out.old.items) }
    ensures err { OnErr result (out.new.items ≡ out.old.items) }
{
    let mut lines = Vec::new(*out.allocator());
    say_entry(&mut lines, description, sought, index)?;
    out.extend_from_slice(&lines)
}

fn say_refused_attempt<A: Allocator + Copy, B: Allocator>(
    out: &mut Vec<u8, A>,
    machine: &Machine<B>,
    description: &Description<B>,
    sought: &Sought<'_, A>,
    told: &ToldRefusal,
) -> Result<(), AllocError> {
    let entry = told.refused.entry;
    say_entry(out, description, sought, entry)?;
    say_explained_refusal(out, told.refused.refusal)?;
    say_detail(out, machine, description, sought, entry, told.detail)
}

fn say_each_refused<A: Allocator + Copy, B: Allocator>(
    out: &mut Vec<u8, A>,
    machine: &Machine<B>,
    description: &Description<B>,
    sought: &Sought<'_, A>,
    told: &[ToldRefusal],
) -> Result<(), AllocError> {
    for attempt in told {
        say_refused_attempt(out, machine, description, sought, attempt)?;
    }
    Ok(())
}

/// Appends the lines of the attempts that were refused, each with its refusal and the detail, in
/// order. An error leaves the text as it was.
pub fn say_refused_attempts<A: Allocator + Copy, B: Allocator>(
    out: &mut Vec<u8, A>,
    machine: &Machine<B>,
    description: &Description<B>,
    sought: &Sought<'_, A>,
    told: &[ToldRefusal],
) -> Result<(), AllocError>
    ensures ok { OnOk result (StartsWith out.new.items out.old.items) }
    ensures err { OnErr result (out.new.items ≡ out.old.items) }
{
    let mut lines = Vec::new(*out.allocator());
    say_each_refused(&mut lines, machine, description, sought, told)?;
    out.extend_from_slice(&lines)
}
