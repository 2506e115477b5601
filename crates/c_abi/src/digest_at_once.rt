//! The digests of an entry whose files are all at hand.
ghost use Rattle.std.specs.Prelude.{IfOk, IfErr, OnOk, Result};
ghost use Rattle.bl_digest.specs.DigestsFacts.{DigestsFacts};
ghost use Rattle.c_abi.specs.Digest.{IsGivenDigestsEnd};
ghost use Rattle.c_abi.specs.DigestTold.{TellsDigests};
ghost use Rattle.c_abi.specs.Load.{IsEntryFault};
ghost use Rattle.c_records.specs.EntryFaults.{IsEntrySound};
ghost use Rattle.c_records.specs.Given.{texts_given};
ghost use Rattle.c_abi.specs.internal.Digests.{AreDigestsOn};
ghost use Rattle.c_abi.specs.internal.TakenEntries.{IsTakenFrom};
ghost use Rattle.c_records.specs.declared.load_fault.LoadFault.{LoadFault};

use crate::digest_telling::tell_digests;
use bl_digest::{Digests, digest_plan};
use bl_load::{Entry, prepare};
use bl_map::Machine;
use c_records::{
    DigestsRecord, EntryRecord, LoadFault, MachineRecord, PartDigestRecord, RefusalRecord,
    load_fault_of_given, load_fault_of_prep, machine_of, take_entry, tell_load_fault, views_of,
};
use std::alloc::Allocator;

/// The digests of what an entry that was taken hands over on a machine.
fn digests_of_entry<A: Allocator + Copy>(
    alloc: A,
    machine: &Machine<A>,
    entry: &Entry<A>,
    row: &EntryRecord,
) -> Result<Digests<A>, LoadFault>
    requires { IsTakenFrom row.now entry.now }
    ensures digests { IfOk result (AreDigestsOn machine.now row.now) }
    ensures fault { IfErr result (IsEntryFault machine.now row.now (texts_given row.now) 0) }
{
    let Ok(views) = views_of(alloc, row) else {
        return Err(LoadFault::NoMemory);
    };
    let plan = match prepare(alloc, machine, entry, &views) {
        Ok(plan) => plan,
        Err(fault) => return Err(load_fault_of_prep(fault)),
    };
    match digest_plan(alloc, &plan, &views) {
        Ok(digests) => Ok(digests),
        Err(_) => Err(LoadFault::NoMemory),
    }
}

/// The digests of what an entry hands over on a machine.
fn digests_on<A: Allocator + Copy>(
    alloc: A,
    machine: &Machine<A>,
    row: &EntryRecord,
) -> Result<Digests<A>, LoadFault>
    ensures digests { IfOk result (AreDigestsOn machine.now row.now) }
    ensures sound { OnOk result (IsEntrySound row.now) }
    ensures fault { IfErr result (IsEntryFault machine.now row.now (texts_given row.now) 0) }
{
    match take_entry(alloc, row) {
        Ok(entry) => digests_of_entry(alloc, machine, &entry, row),
        Err(fault) => Err(load_fault_of_given(fault)),
    }
}

/// The digests of what an entry hands over on the machine that is given.
fn digests_given<A: Allocator + Copy>(
    alloc: A,
    machine: &MachineRecord,
    entry: &EntryRecord,
) -> Result<Digests<A>, LoadFault>
    ensures { IsGivenDigestsEnd machine.now entry.now result }
{
    let made = match machine_of(alloc, machine) {
        Ok(made) => made,
        Err(fault) => return Err(load_fault_of_given(fault)),
    };
    digests_on(alloc, &made, entry)
}

/// Tells the digests of what a load of an entry would hand over, or why it would not be loaded. The
/// checks are those of `load_told`, in its order, but for those of memory and of room for places.
pub fn digests_told<A: Allocator + Copy>(
    alloc: A,
    machine: &MachineRecord,
    entry: &EntryRecord,
    told: &mut DigestsRecord,
    parts: &mut [PartDigestRecord],
    refusal: &mut RefusalRecord,
) -> u32
    ensures { (end : Result DigestsFacts LoadFault)
        × IsGivenDigestsEnd machine.now entry.now end
        × TellsDigests end result
        (record { digests = told.old; parts = parts.old })
        (record { digests = told.new; parts = parts.new }) refusal.old refusal.new }
{
    match digests_given(alloc, machine, entry) {
        Ok(digests) => {
            tell_digests(digests.image(), digests.parts(), told, parts);
            0
        }
        Err(fault) => tell_load_fault(fault, refusal),
    }
}
