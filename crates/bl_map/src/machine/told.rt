//! A machine of which firmware tells more than its memory.
ghost use Rattle.std.specs.Prelude.{◌≡◌, IfErr, IfOk, OnOk};
ghost use Rattle.bl_map.specs.Faults.{IsAccepted};
ghost use Rattle.bl_map.specs.FirmwareFaults.{HasFirstMachineFault};
ghost use Rattle.bl_map.specs.MachineFacts.{IsFirmware, IsWellFormedMachine};
ghost use Rattle.bl_map.specs.NormalMap.{IsNormalMap};

use crate::fault::MapFault;
use crate::firmware::{Firmware, OwnedFirmware, firmware_fault};
use crate::machine::{Machine, check_parts};
use crate::normalization::normal_map;
use crate::region::Region;
use std::alloc::Allocator;
use std::ops::Range;

impl<A: Allocator> Machine<A> {
    /// The machine that `new` makes of these, and what firmware tells of it, of which it keeps a
    /// copy.
    ///
    /// The first of these faults that stands refuses it: those of `new`; then
    /// - those of `Screen::fault`; `BadScreenPlace` too if a byte of the screen is usable memory,
    ///   as a kernel is told it: also above the machine's size;
    /// - `BadRsdp`: the address is 0, the 36 bytes there end above 2^52, or one is usable memory;
    /// - those of `EfiInfo::fault`; `BadSystemTable` too if the table's 120 bytes end above 2^52;
    ///   `BadEfiMapPlace` too if a byte of the map is usable memory;
    /// - `BadSmbiosSize`: the tables do not have 1 byte to 64 KiB;
    /// - `TooManyAvoided`: more than 128 ranges are avoided;
    /// - `BadAvoided(i)`: range `i`, the first such one from 0, has its start above its end, or
    ///   ends above 2^52;
    /// - `PoolAvoided`: a byte of the pool is avoided;
    /// - `NoMemory`: there was no memory for the normal map and the copy.
    pub fn with_firmware(
        alloc: A,
        size: u64,
        regions: &[Region],
        pool: Range<u64>,
        firmware: &Firmware<'_>,
    ) -> Result<Machine<A>, MapFault>
    where
        A: Copy,
        ensures accepted { OnOk result (IsAccepted size regions.now pool) }
        ensures told { OnOk result (IsFirmware regions.now pool firmware.now) }
        ensures size { IfOk result (λ m. m.size ≡ size) }
        ensures runs { IfOk result (λ m. IsNormalMap regions.now m.runs) }
        ensures pool { IfOk result (λ m. m.pool ≡ pool) }
        ensures firmware { IfOk result (λ m. m.firmware ≡ firmware.now) }
        ensures first_fault { IfErr result
            (HasFirstMachineFault size regions.now pool firmware.now) }
    {
        check_parts(size, regions, &pool)?;
        if let Some(fault) = firmware_fault(regions, &pool, firmware) {
            return Err(fault);
        }
        let runs = normal_map(alloc, regions)?;
        let copy = OwnedFirmware::copy(alloc, firmware)?;
        Ok(Machine {
            size,
            runs,
            pool,
            firmware: Some(copy),
        })
    }

    /// What firmware tells of it.
    pub fn firmware(&self) -> Firmware<'_>
        ensures firmware { result ≡ self.now.firmware }
        ensures facts { IsWellFormedMachine self.now }
    {
        match &self.firmware {
            None => Firmware::none(),
            Some(copy) => copy.lend(),
        }
    }

    /// The ranges that are avoided, as they were given: in any order, perhaps empty or overlapping.
    pub fn avoided(&self) -> &[Range<u64>]
        ensures avoided { result.now ≡ self.now.firmware.avoided }
        ensures facts { IsWellFormedMachine self.now }
    {
        match &self.firmware {
            None => &[],
            Some(copy) => copy.avoided(),
        }
    }
}
