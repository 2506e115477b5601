//! The digest of an entry begins, whose files are fed later.
ghost use Rattle.std.specs.Prelude.{ℕ, List, IfOk, IfErr, OnOk};
ghost use Rattle.c_abi.specs.Digest.{IsGivenDigestEnd};
ghost use Rattle.c_abi.specs.Load.{IsEntryFault};
ghost use Rattle.c_records.specs.EntryFaults.{IsEntrySound};
ghost use Rattle.c_abi.specs.Prepare.{AreFilesOf};
ghost use Rattle.c_abi.specs.internal.Digests.{IsDigestOn};
ghost use Rattle.c_abi.specs.internal.TakenEntries.{IsTakenFrom};

use crate::preparing::prepare_row;
use bl_digest::Digesting;
use bl_load::Entry;
use bl_map::Machine;
use c_records::{
    EntryRecord, LoadFault, MachineRecord, load_fault_of_given, load_fault_of_prep, machine_of,
    take_entry,
};
use std::alloc::Allocator;

/// Begins the digest of an entry that was taken on a machine.
fn digest_of_entry<A: Allocator + Copy>(
    alloc: A,
    machine: &Machine<A>,
    entry: &Entry<A>,
    row: &EntryRecord,
) -> Result<Digesting<A>, LoadFault>
    requires { IsTakenFrom row.now entry.now }
    ensures begun { IfOk result (IsDigestOn machine.now row.now) }
    ensures fault { IfErr result (λ fault. (texts : List (List ℕ)) → AreFilesOf row.now texts
        → IsEntryFault machine.now row.now texts 0 fault) }
{
    let plan = match prepare_row(alloc, machine, entry, row) {
        Ok(plan) => plan,
        Err(fault) => return Err(load_fault_of_prep(fault)),
    };
    match Digesting::begin(alloc, &plan) {
        Ok(digest) => Ok(digest),
        Err(_) => Err(LoadFault::NoMemory),
    }
}

/// Begins the digest of an entry on a machine.
fn digest_on<A: Allocator + Copy>(
    alloc: A,
    machine: &Machine<A>,
    row: &EntryRecord,
) -> Result<Digesting<A>, LoadFault>
    ensures begun { IfOk result (IsDigestOn machine.now row.now) }
    ensures sound { OnOk result (IsEntrySound row.now) }
    ensures fault { IfErr result (λ fault. (texts : List (List ℕ)) → AreFilesOf row.now texts
        → IsEntryFault machine.now row.now texts 0 fault) }
{
    match take_entry(alloc, row) {
        Ok(entry) => digest_of_entry(alloc, machine, &entry, row),
        Err(fault) => Err(load_fault_of_given(fault)),
    }
}

/// Begins the digest of an entry, before the files beside its kernel have come, or answers why it
/// would not be loaded. The checks are those of `prepare_told`, in its order.
pub fn digest_given<A: Allocator + Copy>(
    alloc: A,
    machine: &MachineRecord,
    entry: &EntryRecord,
) -> Result<Digesting<A>, LoadFault>
    ensures { IsGivenDigestEnd machine.now entry.now result }
{
    let made = match machine_of(alloc, machine) {
        Ok(made) => made,
        Err(fault) => return Err(load_fault_of_given(fault)),
    };
    digest_on(alloc, &made, entry)
}
