//! A machine.
ghost use Rattle.std.specs.Prelude.{IfErr, OnOk};
ghost use Rattle.bl_map.specs.Faults.{HasFirstMapFault, IsAccepted};

use crate::fault::MapFault;
use crate::firmware::OwnedFirmware;
use crate::kind::Kind;
use crate::limits::{HIGH_START, KIB, MAX_HIGH_KIB, MAX_LOW_KIB, MAX_REGIONS};
use crate::normalization::{greatest_kind, normal_map};
use crate::region::Region;
use crate::rules::{first_high, is_pool, is_size, is_usable_among, usable_end};
use std::alloc::Allocator;
use std::marker::Model;
use std::ops::Range;

mod told;

/// The first fault that stands of what a machine is made of, before memory is asked for.
fn check_parts(size: u64, regions: &[Region], pool: &Range<u64>) -> Result<(), MapFault>
    ensures accepted { OnOk result (IsAccepted size regions.now pool.now) }
    ensures first_fault { IfErr result (HasFirstMapFault size regions.now pool.now) }
{
    if !is_size(size) {
        return Err(MapFault::BadSize);
    }
    if regions.len() > MAX_REGIONS {
        return Err(MapFault::TooManyRegions);
    }
    if let Some(i) = first_high(regions) {
        return Err(MapFault::BadRegion(i));
    }
    if !is_pool(regions, size, pool) {
        return Err(MapFault::BadPool);
    }
    Ok(())
}

/// A machine: its size, its normal map, its pool, what firmware tells of it. Contracts see it as
/// these facts.
#[derive(Drop)]
pub struct Machine<A: Allocator> {
    size: u64,
    runs: Vec<Region, A>,
    pool: Range<u64>,
    firmware: Option<OwnedFirmware<A>>,
}

impl<A: Allocator> Model for Machine<A> {
    ghost use Rattle.std.specs.Prelude.{unwrap_or};
    ghost use Rattle.bl_map.specs.Firmware.{no_firmware};
    ghost use Rattle.bl_map.specs.MachineFacts.{MachineFacts, IsWellFormedMachine};

    ghost Value = { MachineFacts };

    ghost view = { λ m. record {
      size = m.size;
      runs = m.runs.items;
      pool = m.pool;
      firmware = unwrap_or m.firmware no_firmware;
    } };

    ghost invariant = { λ m. IsWellFormedMachine record {
      size = m.size;
      runs = m.runs.items;
      pool = m.pool;
      firmware = unwrap_or m.firmware no_firmware;
    } };
}

impl<A: Allocator> Machine<A> {
    ghost use Rattle.std.specs.Prelude.{◌≡◌, ◌^◌, ◌<◌, ◌≤◌, IfErr, IfOk, MatchBool, OnOk};
    ghost use Rattle.bl_map.specs.Kinds.{number_or_zero};
    ghost use Rattle.bl_map.specs.NormalMap.{IsNormalMap};
    ghost use Rattle.bl_map.specs.NormalMap as normal_map;
    ghost use Rattle.bl_map.specs.MachineFacts.{AllUsable, IsWellFormedMachine};
    ghost use Rattle.bl_map.specs.Faults.{HasFirstMapFault, IsAccepted};
    ghost use Rattle.bl_map.specs.Firmware.{no_firmware};

    /// The machine of these regions, in any order, overlapping, adjoining or empty. `size` is in
    /// bytes; `pool` has the addresses of the frames that files are staged in. Firmware tells
    /// nothing of it.
    ///
    /// The first of these faults that stands refuses it:
    /// - `BadSize`: the size is not 1 MiB to 4 GiB in whole frames of 4096 bytes.
    /// - `TooManyRegions`: there are more than 128 regions.
    /// - `BadRegion(i)`: region `i`, the first such one from 0, ends above 2^52.
    /// - `BadPool`: the pool's start lies above its end, one of the two is no multiple of 4096, or
    ///   a byte of it is not usable. An empty pool may stand at any multiple of 4096.
    /// - `NoMemory`: there was no memory for the normal map.
    pub fn new(
        alloc: A,
        size: u64,
        regions: &[Region],
        pool: Range<u64>,
    ) -> Result<Machine<A>, MapFault>
        ensures accepted { OnOk result (IsAccepted size regions.now pool) }
        ensures size { IfOk result (λ m. m.size ≡ size) }
        ensures runs { IfOk result (λ m. IsNormalMap regions.now m.runs) }
        ensures pool { IfOk result (λ m. m.pool ≡ pool) }
        ensures firmware { IfOk result (λ m. m.firmware ≡ no_firmware) }
        ensures first_fault { IfErr result (HasFirstMapFault size regions.now pool) }
    {
        check_parts(size, regions, &pool)?;
        let runs = normal_map(alloc, regions)?;
        Ok(Machine {
            size,
            runs,
            pool,
            firmware: None,
        })
    }

    /// How many bytes of memory there are.
    pub fn size(&self) -> u64
        ensures size { result ≡ self.now.size }
        ensures facts { IsWellFormedMachine self.now }
    {
        self.size
    }

    /// The normal map: the longest runs of one kind, ascending.
    pub fn normal(&self) -> &[Region]
        ensures runs { result.now ≡ self.now.runs }
        ensures facts { IsWellFormedMachine self.now }
    {
        self.runs.as_slice()
    }

    /// The frames that files are staged in.
    pub fn pool(&self) -> Range<u64>
        ensures pool { result ≡ self.now.pool }
        ensures facts { IsWellFormedMachine self.now }
    {
        self.pool.start..self.pool.end
    }

    /// What an address is for.
    pub fn kind_at(&self, a: u64) -> Option<Kind>
        ensures kind { number_or_zero result ≡ normal_map.kind_at self.now.runs a }
        ensures facts { IsWellFormedMachine self.now }
    {
        greatest_kind(self.runs.as_slice(), a)
    }

    /// Whether each byte of the range is usable, as in an empty one: of kind `Usable`, from 4096
    /// on, below the size and below 0xFFFFF000.
    pub fn is_usable(&self, range: Range<u64>) -> bool
        requires forward { range.start ≤ range.end }
        ensures usable { MatchBool result
            (AllUsable self.now range.start range.end)
            (¬ AllUsable self.now range.start range.end) }
        ensures facts { IsWellFormedMachine self.now }
    {
        is_usable_among(self.runs.as_slice(), self.size, range.start, range.end)
    }

    /// KiB of usable memory from address 0 on, at most 640 (Multiboot2 3.6.3 "Basic memory
    /// information").
    pub fn low_kib(&self) -> u64
        ensures low_kib { result ≡ normal_map.low_kib self.now.runs }
        ensures most { result ≤ MAX_LOW_KIB }
        ensures facts { IsWellFormedMachine self.now }
    {
        (usable_end(self.runs.as_slice(), 0) / KIB).min(MAX_LOW_KIB)
    }

    /// KiB of usable memory from 1 MiB on, at most what 32 bits hold (Multiboot2 3.6.3 "Basic
    /// memory information").
    pub fn high_kib(&self) -> u64
        ensures high_kib { result ≡ normal_map.high_kib self.now.runs }
        ensures most { result < 2 ^ 32 }
        ensures facts { IsWellFormedMachine self.now }
    {
        let end = usable_end(self.runs.as_slice(), HIGH_START);
        (end.saturating_sub(HIGH_START) / KIB).min(MAX_HIGH_KIB)
    }
}
