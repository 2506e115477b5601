//! Machines as the libraries take them.
ghost use Rattle.std.specs.Prelude.{◌≡◌, ◌+◌, ◌-◌, IfOk, IfErr, OnOk, map};
ghost use Rattle.c_records.specs.Given as spec;
ghost use Rattle.c_records.specs.Machines as machines;

use crate::firmware_given::{firmware_of, ranges_of};
use crate::given_checks::check_machine;
use crate::given_fault::GivenFault;
use crate::given_records::{MachineRecord, RegionRecord};
use crate::misuse::Misuse;
use bl_map::{Kind, Machine, MapFault, Region};
use std::alloc::{AllocError, Allocator};
use std::ops::Range;

/// A region.
fn region_of(region: &RegionRecord) -> Region
    ensures { result ≡ spec.region_given region.now }
{
    Region {
        base: region.base,
        length: region.length,
        kind: Kind::from_number(region.kind).unwrap_or(Kind::Reserved),
    }
}

/// Regions.
fn regions_of<A: Allocator>(
    alloc: A,
    regions: &[RegionRecord],
) -> Result<Vec<Region, A>, AllocError>
    ensures { IfOk result (λ made. made.items ≡ map spec.region_given regions.now) }
{
    regions.iter().map(region_of).collect(alloc)
}

/// The addresses of the pool.
fn pool_of(machine: &MachineRecord) -> Range<u64>
    ensures { result ≡ machines.pool_given machine.now }
{
    machine.pool_base..machine.pool_base.saturating_add(machine.pool_length)
}

fn given_fault_of_map(fault: MapFault) -> GivenFault
    ensures { result ≡ machines.given_fault_of_map fault }
{
    match fault {
        MapFault::BadSize => GivenFault::Misused(Misuse::BadSize),
        MapFault::BadRegion(_) => GivenFault::Misused(Misuse::BadRegion),
        MapFault::TooManyRegions => GivenFault::Misused(Misuse::TooManyRegions),
        MapFault::BadPool => GivenFault::Misused(Misuse::BadPool),
        MapFault::NoMemory => GivenFault::NoMemory,
        told => GivenFault::Misused(Misuse::BadFirmware(told)),
    }
}

/// The machine that is given, if it may be; else its first fault.
pub fn machine_of<A: Allocator + Copy>(
    alloc: A,
    machine: &MachineRecord,
) -> Result<Machine<A>, GivenFault>
    ensures machine { IfOk result (machines.IsMachineGiven machine.now) }
    ensures sound { OnOk result (machines.IsMachineSound machine.now) }
    ensures fault { IfErr result (machines.HasMachineFault machine.now) }
{
    check_machine(machine)?;
    let typed = regions_of(alloc, machine.regions)?;
    let avoided = ranges_of(alloc, machine.firmware.avoided)?;
    let told = firmware_of(machine.firmware, &avoided);
    match Machine::with_firmware(alloc, machine.size, &typed, pool_of(machine), &told) {
        Ok(made) => Ok(made),
        Err(fault) => Err(given_fault_of_map(fault)),
    }
}
