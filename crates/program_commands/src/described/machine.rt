//! The machine of a description.
ghost use Rattle.std.specs.Prelude.{IfOk, IfErr};
ghost use Rattle.bl_map.specs.FirmwareFaults.{HasFirstMachineFault};
ghost use Rattle.program_desc.specs.Views.{view};
ghost use Rattle.program_boots.specs.described.DescribedMachine.{IsMachineFault, IsMachineOf};
ghost use Rattle.program_commands.specs.internal.Readings.{IsReadMachine, IsReadingFault};

use crate::document::read_description;
use bl_map::{Machine, MapFault};
use program_desc::{DescFault, Description};
use std::alloc::{Allocator, Global};

/// The machine that is described, or the first fault of it.
pub fn make_machine<A: Allocator + Copy>(
    alloc: A,
    description: &Description<A>,
) -> Result<Machine<A>, MapFault>
    ensures machine { IfOk result (IsMachineOf (view description.now)) }
    ensures fault { IfErr result (HasFirstMachineFault description.now.size
        description.now.regions.items description.now.pool description.now.firmware) }
{
    let pool = description.pool.start..description.pool.end;
    let regions = description.regions.as_slice();
    let firmware = description.firmware.lend();
    let machine = Machine::with_firmware(alloc, description.size, regions, pool, &firmware)?;
    // For the proof: each byte of what firmware tells is one.
    let _size = machine.size();
    Ok(machine)
}

/// The machine that is described, which is a bad description where it breaks a rule of machines.
pub fn machine_of<A: Allocator + Copy>(
    alloc: A,
    description: &Description<A>,
) -> Result<Machine<A>, DescFault>
    ensures machine { IfOk result (IsMachineOf (view description.now)) }
    ensures fault { IfErr result (IsMachineFault (view description.now)) }
{
    match make_machine(alloc, description) {
        Ok(machine) => Ok(machine),
        Err(fault) => match fault {
            MapFault::NoMemory => Err(DescFault::NoMemory),
            _ => Err(DescFault::BadDescription),
        },
    }
}

/// A description, with the machine that it describes.
#[derive(Drop)]
pub struct DescribedMachine<A: Allocator> {
    pub description: Description<A>,
    pub machine: Machine<A>,
}

/// What the bytes describe, with its machine; a description whose machine breaks a rule is a bad
/// one.
pub fn read_machine<A: Allocator + Copy>(
    alloc: A,
    global: Global,
    desc: &[u8],
) -> Result<DescribedMachine<A>, DescFault>
    ensures read { IfOk result (IsReadMachine desc.now) }
    ensures fault { IfErr result (IsReadingFault desc.now) }
{
    let description = read_description(alloc, global, desc)?;
    let machine = machine_of(alloc, &description)?;
    Ok(DescribedMachine {
        description,
        machine,
    })
}
