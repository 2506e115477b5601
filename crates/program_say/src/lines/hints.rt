//! Hints on a menu, line by line, for a person.
ghost use Rattle.std.specs.Prelude.{◌≡◌, ◌≤◌, OnErr, OnOk, length};
ghost use Rattle.std.specs.Io.{StartsWith};

use crate::blame::say_region_hints;
use crate::lines::cut_kernels::say_cut_hint;
use crate::say;
use crate::subjects::{Sought, entry_at};
use bl_load::{Refusal, RefusedEntry};
use bl_mem::{SliceView, u16_at, u32_at};
use program_desc::Description;
use std::alloc::{AllocError, Allocator};

/// Whether a file has the magic numbers of a bzImage.
fn has_bz_magic(bytes: &[u8]) -> bool {
    let view = SliceView::new(bytes);
    bytes.len() >= 0x206 && u16_at(&view, 0x1FE) == 0xAA55 && u32_at(&view, 0x202) == 0x5372_6448
}

/// Whether a file begins as an ELF file.
fn has_elf_magic(bytes: &[u8]) -> bool {
    bytes.len() >= 4 && u32_at(&SliceView::new(bytes), 0) == 0x464C_457F
}

/// Appends the hint on the bytes of an entry's kernel that was refused, if there is one.
fn say_kernel_hint<A: Allocator + Copy>(
    out: &mut Vec<u8, A>,
    refused: &RefusedEntry,
    bytes: &[u8],
) -> Result<(), AllocError> {
    let entry = refused.entry;
    match refused.refusal {
        Refusal::NoHeader if has_bz_magic(bytes) => {
            say!(
                out,
                "hint: the kernel of entry {entry} is a bzImage: protocol linux\n"
            )
        }
        Refusal::NotBzImage if has_elf_magic(bytes) => {
            say!(
                out,
                "hint: the kernel of entry {entry} is an ELF file: protocol multiboot2\n"
            )
        }
        _ => Ok(()),
    }
}

/// Appends the hint on the kernel of an entry, by its index, if it was cut.
fn say_cut_hint_at<A: Allocator + Copy, B: Allocator>(
    out: &mut Vec<u8, A>,
    description: &Description<B>,
    sought: &Sought<'_, A>,
    index: u32,
) -> Result<(), AllocError> {
    match entry_at(description, index) {
        Some(entry) => say_cut_hint(out, index, sought.bytes(entry.kernel.as_str())),
        None => Ok(()),
    }
}

/// Appends the hints on the kernel of an entry that was refused.
fn say_hints_of<A: Allocator + Copy, B: Allocator>(
    out: &mut Vec<u8, A>,
    description: &Description<B>,
    sought: &Sought<'_, A>,
    refused: &RefusedEntry,
) -> Result<(), AllocError> {
    if let Some(entry) = entry_at(description, refused.entry) {
        say_kernel_hint(out, refused, sought.bytes(entry.kernel.as_str()))?;
    }
    say_cut_hint_at(out, description, sought, refused.entry)
}

/// Appends the hint on the kernel of the entry that is handed over, if there is one.
fn say_booted_hint<A: Allocator + Copy, B: Allocator>(
    out: &mut Vec<u8, A>,
    description: &Description<B>,
    sought: &Sought<'_, A>,
    booted: Option<u32>,
) -> Result<(), AllocError> {
    match booted {
        Some(entry) => say_cut_hint_at(out, description, sought, entry),
        None => Ok(()),
    }
}

/// Appends the hints on the kernels of entries that were refused, in order.
fn say_kernel_hints<A: Allocator + Copy, B: Allocator>(
    out: &mut Vec<u8, A>,
    description: &Description<B>,
    sought: &Sought<'_, A>,
    refused: &[RefusedEntry],
) -> Result<(), AllocError> {
    for attempt in refused {
        say_hints_of(out, description, sought, attempt)?;
    }
    Ok(())
}

/// Whether an entry is one of these.
fn is_among(index: u32, indices: &[u32]) -> bool {
    indices.iter().any(|f| *f == index)
}

/// Whether the default or a fallback is this entry.
fn is_attempted<A: Allocator>(description: &Description<A>, index: u32) -> bool {
    description.default == index || is_among(index, &description.fallbacks)
}

/// Appends the hint on an entry, if there is one.
fn say_hint_at<A: Allocator + Copy, B: Allocator>(
    out: &mut Vec<u8, A>,
    description: &Description<B>,
    index: u32,
) -> Result<(), AllocError> {
    if is_attempted(description, index) {
        return Ok(());
    }
    say!(
        out,
        "hint: entry {index} is not attempted: neither default nor fallback names it\n"
    )
}

/// Appends a line for each entry that is never attempted.
fn say_unattempted<A: Allocator + Copy, B: Allocator>(
    out: &mut Vec<u8, A>,
    description: &Description<B>,
) -> Result<(), AllocError>
    requires { length description.now.entries.items ≤ 32 }
{
    for index in 0..description.entries.len() {
        say_hint_at(out, description, index as u32)?;
    }
    Ok(())
}

fn say_each_hint<A: Allocator + Copy, B: Allocator>(
    out: &mut Vec<u8, A>,
    description: &Description<B>,
    sought: &Sought<'_, A>,
    refused: &[RefusedEntry],
    booted: Option<u32>,
) -> Result<(), AllocError>
    requires { length description.now.entries.items ≤ 32 }
{
    say_kernel_hints(out, description, sought, refused)?;
    say_booted_hint(out, description, sought, booted)?;
    say_region_hints(out, &description.regions)?;
    say_unattempted(out, description)
}

/// Appends the hints on a boot with these refusals, and with the entry that is handed over, if
/// there is one: on kernels of another protocol and kernels that were cut, on regions that are not
/// made of whole frames, and on entries that are never attempted. An error leaves the text as it
/// was.
pub fn say_hints<A: Allocator + Copy, B: Allocator>(
    out: &mut Vec<u8, A>,
    description: &Description<B>,
    sought: &Sought<'_, A>,
    refused: &[RefusedEntry],
    booted: Option<u32>,
) -> Result<(), AllocError>
    requires { length description.now.entries.items ≤ 32 }
    ensures ok { OnOk result (StartsWith out.new.items out.old.items) }
    ensures err { OnErr result (out.new.items ≡ out.old.items) }
{
    let mut lines = Vec::new(*out.allocator());
    say_each_hint(&mut lines, description, sought, refused, booted)?;
    out.extend_from_slice(&lines)
}
