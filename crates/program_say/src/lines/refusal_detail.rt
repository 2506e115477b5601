//! The detail of a refusal, line by line.

use crate::blame::say_unplaceable;
use crate::lines::addresses::say_address;
use crate::lines::frames::{frames_at, say_counted, say_frames};
use crate::lines::part_names::part_name;
use crate::say;
use crate::subjects::{RefusalDetail, Sought};
use bl_load::{Choice, Row};
use bl_map::{Machine, frames_in};
use program_desc::Description;
use std::alloc::{AllocError, Allocator};

/// Appends where a part may lie.
fn say_window<A: Allocator + Copy>(
    out: &mut Vec<u8, A>,
    align: u64,
    low: u64,
    high: u64,
) -> Result<(), AllocError> {
    say_address(out, "from ", low, " to ")?;
    say_address(out, "", high, ", alignment ")?;
    say!(out, "{align}")
}

/// Appends how a part's address is chosen.
fn say_choice<A: Allocator + Copy>(out: &mut Vec<u8, A>, choice: Choice) -> Result<(), AllocError> {
    match choice {
        Choice::Fixed(at) => say_address(out, "at ", at, ""),
        Choice::Lowest { align, low, high } => {
            out.extend_from_slice(b"lowest ")?;
            say_window(out, align, low, high)
        }
        Choice::Highest { align, low, high } => {
            out.extend_from_slice(b"highest ")?;
            say_window(out, align, low, high)
        }
        Choice::Preferred {
            at,
            align,
            low,
            high,
        } => {
            say_address(out, "preferred ", at, ", lowest ")?;
            say_window(out, align, low, high)
        }
    }
}

/// Appends the line of a part that finds no place: which one of its role it is, its length, and
/// how its address is chosen.
fn say_no_place<A: Allocator + Copy>(out: &mut Vec<u8, A>, row: &Row) -> Result<(), AllocError> {
    say!(
        out,
        "no place {} {} {} ",
        part_name(row.role),
        row.index,
        row.length
    )?;
    say_choice(out, row.choice)?;
    out.extend_from_slice(b"\n")
}

/// Appends how many ranges the machine has to avoid, if there are any.
fn say_avoided_count<A: Allocator + Copy, B: Allocator>(
    out: &mut Vec<u8, A>,
    machine: &Machine<B>,
) -> Result<(), AllocError> {
    match machine.avoided().len() {
        0 => Ok(()),
        count => say!(out, "ranges {count} avoided\n"),
    }
}

/// Appends why a part finds no place, by its byte on which no part may lie if there is one.
fn say_unplaceable_if<A: Allocator + Copy, B: Allocator>(
    out: &mut Vec<u8, A>,
    machine: &Machine<B>,
    unplaceable: Option<u64>,
) -> Result<(), AllocError> {
    match unplaceable {
        Some(address) => {
            let kind = machine.kind_at(address);
            say_unplaceable(out, machine.size(), address, kind)
        }
        None => say_avoided_count(out, machine),
    }
}

/// Appends the line of the pool's frames.
fn say_pool_frames<A: Allocator + Copy>(
    out: &mut Vec<u8, A>,
    wanted: u64,
    all: u64,
    beside: Option<u64>,
) -> Result<(), AllocError> {
    match beside {
        Some(beside) => say_frames(out, wanted, beside, all),
        None => {
            say_counted(out, "frames ", wanted, " wanted, ")?;
            say_counted(out, "", all, " in all\n")
        }
    }
}

/// Appends the lines of what is told of a refusal, of the entry of this index.
pub fn say_detail<A: Allocator + Copy, B: Allocator>(
    out: &mut Vec<u8, A>,
    machine: &Machine<B>,
    description: &Description<B>,
    sought: &Sought<'_, A>,
    entry: u32,
    detail: RefusalDetail,
) -> Result<(), AllocError> {
    match detail {
        RefusalDetail::Nothing => Ok(()),
        RefusalDetail::NoPlace { row, unplaceable } => {
            say_no_place(out, &row)?;
            say_unplaceable_if(out, machine, unplaceable)
        }
        RefusalDetail::Frames { beside } => {
            let wanted = frames_at(description, sought, entry);
            say_pool_frames(out, wanted, frames_in(&machine.pool()), beside)
        }
    }
}
