//! Which part of an entry finds no place is told to C.
ghost use Rattle.std.specs.Prelude.{◌≡◌, ℕ, List, length, IfOk, IfErr, OnOk, Option, None, Result};
ghost use Rattle.bl_load.specs.EntryValue.{value_of, file_count, IsWithinLimits};
ghost use Rattle.bl_load.specs.Unplaced.{IsUnplaced, IsFaultBeforePlacing};
ghost use Rattle.bl_plan.specs.RoleNumbers.{role_number};
ghost use Rattle.bl_plan.specs.declared.part.Row.{Row};
ghost use Rattle.c_records.specs.Given.{files_given, value_with};
ghost use Rattle.c_records.specs.EntryFaults.{IsEntrySound};
ghost use Rattle.c_records.specs.declared.load_fault.LoadFault.{LoadFault};
ghost use Rattle.c_abi.specs.Prepare.{AreFilesOf};
ghost use Rattle.c_abi.specs.UnplacedPart.{IsSought, IsNotSought, IsSoughtEnd, IsEarlyFault};
ghost use Rattle.c_abi.specs.UnplacedTold as spec;

use bl_load::{Entry, PrepFault, unplaced_by_lengths};
use bl_map::{MAX_SIZE, Machine};
use bl_mem::SliceView;
use bl_plan::{Choice, Row};
use c_records::{
    EntryRecord, LoadFault, MachineRecord, RefusalRecord, UnplacedRecord, lengths_beside,
    load_fault_of_given, load_fault_of_prep, machine_of, take_entry, tell_load_fault,
};
use std::alloc::Allocator;

/// The row of an entry that was taken, by its kernel and by the lengths of its other files.
fn row_of_taken<A: Allocator + Copy>(
    alloc: A,
    machine: &Machine<A>,
    entry: &Entry<A>,
    given: &EntryRecord,
) -> Result<Option<Row>, PrepFault>
    requires count { file_count entry.now ≡ length (files_given given.now) }
    requires limits { IsWithinLimits entry.now }
    ensures which { IfOk result (λ which. (texts : List (List ℕ)) → AreFilesOf given.now texts
        → IsUnplaced machine.now (value_of texts entry.now) which) }
    ensures fault { IfErr result (λ fault. (texts : List (List ℕ)) → AreFilesOf given.now texts
        → IsFaultBeforePlacing machine.now (value_of texts entry.now) fault) }
{
    let lengths = lengths_beside(alloc, given)?;
    let kernel = SliceView::new(given.kernel.bytes);
    unplaced_by_lengths(alloc, machine, entry, &kernel, &lengths)
}

/// The row of an entry on a machine.
fn row_given<A: Allocator + Copy>(
    alloc: A,
    machine: &Machine<A>,
    given: &EntryRecord,
) -> Result<Option<Row>, LoadFault>
    ensures which { IfOk result (λ which. (texts : List (List ℕ)) → AreFilesOf given.now texts
        → IsUnplaced machine.now (value_with given.now texts) which) }
    ensures sound { OnOk result (IsEntrySound given.now) }
    ensures fault { IfErr result (λ fault. (texts : List (List ℕ)) → AreFilesOf given.now texts
        → IsEarlyFault machine.now given.now texts fault) }
{
    let entry = match take_entry(alloc, given) {
        Ok(entry) => entry,
        Err(fault) => return Err(load_fault_of_given(fault)),
    };
    match row_of_taken(alloc, machine, &entry, given) {
        Ok(which) => Ok(which),
        Err(fault) => Err(load_fault_of_prep(fault)),
    }
}

/// The row of an entry on the machine that is given.
fn row_sought<A: Allocator + Copy>(
    alloc: A,
    machine: &MachineRecord,
    entry: &EntryRecord,
) -> Result<Option<Row>, LoadFault>
    ensures sought { IfOk result (IsSought machine.now entry.now) }
    ensures fault { IfErr result (λ fault. (texts : List (List ℕ)) → AreFilesOf entry.now texts
        → IsNotSought machine.now entry.now texts fault) }
{
    let made = match machine_of(alloc, machine) {
        Ok(made) => made,
        Err(fault) => return Err(load_fault_of_given(fault)),
    };
    row_given(alloc, &made, entry)
}

/// A length as it is told: the greatest number stands for one that no machine can hold.
fn length_told(count: u64) -> u64
    ensures { result ≡ spec.length_told count }
{
    if count <= MAX_SIZE { count } else { u64::MAX }
}

/// A row with what its choice says.
fn row_with(
    row: Row,
    choice: u32,
    address: u64,
    alignment: u64,
    low: u64,
    high: u64,
) -> UnplacedRecord
    ensures { result ≡ record {
      role = role_number row.role;
      index = row.index;
      length = spec.length_told row.length;
      alignment = alignment;
      low = low;
      high = high;
      address = address;
      choice = choice;
      reserved = 0;
    } }
{
    UnplacedRecord {
        role: row.role.number(),
        index: row.index,
        length: length_told(row.length),
        alignment,
        low,
        high,
        address,
        choice,
        reserved: 0,
    }
}

/// A row as C is told it.
fn row_told(row: Row) -> UnplacedRecord
    ensures { result ≡ spec.row_told row }
{
    match row.choice {
        Choice::Fixed(at) => row_with(row, 1, at, 0, 0, 0),
        Choice::Lowest { align, low, high } => row_with(row, 2, 0, align, low, high),
        Choice::Highest { align, low, high } => row_with(row, 3, 0, align, low, high),
        Choice::Preferred {
            at,
            align,
            low,
            high,
        } => row_with(row, 4, at, align, low, high),
    }
}

/// That each part has its place.
fn nothing_told() -> UnplacedRecord
    ensures { result ≡ spec.unplaced_told None }
{
    UnplacedRecord {
        role: 0,
        index: 0,
        length: 0,
        alignment: 0,
        low: 0,
        high: 0,
        address: 0,
        choice: 0,
        reserved: 0,
    }
}

/// Tells which part of an entry is the first that finds no place, or that each has one; or what
/// refuses the entry before a place is looked for. Of the files after the kernel the lengths are
/// looked at.
pub fn unplaced_told<A: Allocator + Copy>(
    alloc: A,
    machine: &MachineRecord,
    entry: &EntryRecord,
    told: &mut UnplacedRecord,
    refusal: &mut RefusalRecord,
) -> u32
    ensures { (end : Result (Option Row) LoadFault)
        × IsSoughtEnd machine.now entry.now end
        × spec.TellsUnplaced end result told.old told.new refusal.old refusal.new }
{
    match row_sought(alloc, machine, entry) {
        Ok(Some(row)) => {
            *told = row_told(row);
            0
        }
        Ok(None) => {
            *told = nothing_told();
            0
        }
        Err(fault) => tell_load_fault(fault, refusal),
    }
}
