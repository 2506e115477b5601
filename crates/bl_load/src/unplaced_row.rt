//! Which part of an entry finds no place.
ghost use Rattle.std.specs.Prelude.{◌≡◌, All, [], IfOk, IfErr, length, map};
ghost use Rattle.bl_plan.specs.Placed.{IsWellFormedRow};
ghost use Rattle.bl_load.specs.internal.CheckedEntries.{value_of_files, IsReadWithFiles};
ghost use Rattle.bl_load.specs.Rows as table;
ghost use Rattle.bl_load.specs.Unplaced.{IsUnplacedOf, IsUnplaced, IsFaultBeforePlacing};
ghost use Rattle.bl_load.specs.EntryValue.{value_of, file_count, IsWithinLimits};
ghost use Rattle.bl_load.specs.declared.refusal.PrepFault.TheVariants.{NoMemory};

use crate::checked_entry::CheckedEntry;
use crate::entry::Entry;
use crate::entry_checks::checked_entry;
use crate::entry_kernel::read_entry_kernel;
use crate::loadable_kernel::LoadableKernel;
use crate::refusal::PrepFault;
use bl_map::Machine;
use bl_mem::ByteView;
use bl_plan::{PlanFault, Planner, Row};
use std::alloc::Allocator;

/// The first of these rows that has no place, or none.
fn first_unplaced<A: Allocator + Copy>(
    alloc: A,
    machine: &Machine<A>,
    rows: &[Row],
) -> Result<Option<Row>, PrepFault>
    requires { All IsWellFormedRow rows.now }
    ensures which { IfOk result (IsUnplacedOf machine.now [] rows.now) }
    ensures fault { IfErr result (λ fault. fault ≡ NoMemory) }
{
    let mut planner = Planner::new(alloc, machine)?;
    for row in rows {
        match planner.place_row(row) {
            Ok(_) => {}
            Err(PlanFault::NoMemory) => return Err(PrepFault::NoMemory),
            Err(PlanFault::NotUsable) => return Ok(Some(*row)),
            Err(PlanFault::Overlap) => return Ok(Some(*row)),
            Err(PlanFault::NoRoom) => return Ok(Some(*row)),
        }
    }
    Ok(None)
}

/// The first part that has no place of an entry whose kernel was read, or none.
fn unplaced_part<A: Allocator + Copy, V: ByteView, K: LoadableKernel>(
    alloc: A,
    entry: &CheckedEntry<'_, A, V>,
    kernel: &K,
) -> Result<Option<Row>, PrepFault>
    requires { IsReadWithFiles entry.now (K.reading kernel.now) }
    ensures which { IfOk result (IsUnplacedOf entry.now.machine.now []
        (table.rows_of entry.now.machine.now (value_of_files entry.now)
        (K.reading kernel.now))) }
    ensures fault { IfErr result (λ fault. fault ≡ NoMemory) }
{
    let rows = kernel.rows(alloc, entry)?;
    first_unplaced(alloc, entry.machine, rows.as_slice())
}

/// The row of the first part that finds no place on a machine, or none if each part has one: a
/// second call where `prepare` refuses by `NotUsable` or `NoRoom`. `files` are the entry's files in
/// order, the kernel first. The machine, the entry and the files stay as they are.
///
/// The row tells the part's role, which of its role it is, its length in bytes, and how its address
/// is chosen. Each row before it has its place, and is in its way. A length above 4 GiB may be told
/// as another one above 4 GiB. What refuses before a place is looked for is the fault, as of
/// `prepare`: the lines, then what is read of the kernel. Want of memory may be answered at any
/// growth.
pub fn unplaced<A: Allocator + Copy, V: ByteView>(
    alloc: A,
    machine: &Machine<A>,
    entry: &Entry<A>,
    files: &[V],
) -> Result<Option<Row>, PrepFault>
    requires files { length files.now ≡ file_count entry.now }
    requires limits { IsWithinLimits entry.now }
    ensures which { IfOk result (IsUnplaced machine.now
        (value_of (map V.bytes files.now) entry.now)) }
    ensures fault { IfErr result (IsFaultBeforePlacing machine.now
        (value_of (map V.bytes files.now) entry.now)) }
{
    let no_copy = None;
    let checked = checked_entry(machine, entry, &no_copy, files)?;
    let kernel = read_entry_kernel(alloc, &checked)?;
    unplaced_part(alloc, &checked, &kernel)
}
