//! What a boot comes to, entry by entry; and that an image is refused.
ghost use Rattle.std.specs.Prelude.{◌≡◌, ◌++◌, OnOk, OnErr};
ghost use Rattle.program_say.specs.BootAndMapLines as says;

use crate::say;
use bl_load::RefusedEntry;
use std::alloc::{AllocError, Allocator};

/// Appends the lines of entries that were refused, in order: each by its index in the menu, and the
/// refusal's number.
pub fn say_refusals<A: Allocator + Copy>(
    out: &mut Vec<u8, A>,
    refused: &[RefusedEntry],
) -> Result<(), AllocError>
    ensures { OnOk result (out.new.items ≡ out.old.items ++ says.refused_lines refused.now) }
{
    for entry in refused {
        say!(out, "refused {} {}\n", entry.entry, entry.refusal.number())?;
    }
    Ok(())
}

/// Appends the line of the entry that was booted: its index in the menu, and its title. An error
/// leaves the text as it was.
pub fn say_booted<A: Allocator + Copy>(
    out: &mut Vec<u8, A>,
    entry: u64,
    title: &str,
) -> Result<(), AllocError>
    ensures ok { OnOk result (out.new.items ≡ out.old.items ++ says.booted_line entry title.now) }
    ensures err { OnErr result (out.new.items ≡ out.old.items) }
{
    say!(out, "booted {entry} {title}\n")
}

/// Appends the line of a menu in which each entry was refused. An error leaves the text as it was.
pub fn say_no_entry_left<A: Allocator>(out: &mut Vec<u8, A>) -> Result<(), AllocError>
    ensures ok { OnOk result (out.new.items ≡ out.old.items ++ says.no_entry_line) }
    ensures err { OnErr result (out.new.items ≡ out.old.items) }
{
    out.extend_from_slice(b"no entry left\n")
}

/// Appends the line of an image that is refused with this number. An error leaves the text as it
/// was.
pub fn say_bad_image<A: Allocator + Copy, B: Allocator>(
    alloc: A,
    blame: &mut Vec<u8, B>,
    number: u32,
) -> Result<(), AllocError>
    ensures ok { OnOk result (blame.new.items ≡ blame.old.items ++ says.bad_image_line number) }
    ensures err { OnErr result (blame.new.items ≡ blame.old.items) }
{
    let line = format!(in alloc; "bad image {number}\n")?;
    blame.extend_from_slice(line.as_bytes())
}
