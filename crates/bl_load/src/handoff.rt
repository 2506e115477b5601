//! What a kernel is handed.
use crate::plan::PlannedPart;
use crate::registers::Registers;
use bl_plan::{Place, Protocol};
use std::alloc::Allocator;
use std::fmt;
use std::marker::Model;
use std::ops::Range;

/// What a kernel is handed: the protocol, the registers, and the places of the parts in address
/// order. There are at most 256; none is empty, none meets another, and none ends above 4 GiB.
#[derive(Drop)]
pub struct Handoff<A: Allocator> {
    pub(crate) protocol: Protocol,
    pub(crate) registers: Registers,
    pub(crate) parts: Vec<PlannedPart<A>, A>,
    pub(crate) ranges: Vec<Range<u64>, A>,
}

impl<A: Allocator> Model for Handoff<A> {
    ghost use Rattle.std.specs.Prelude.{◌≡◌, map};
    ghost use Rattle.bl_plan.specs.Placed.{place_range};
    ghost use Rattle.bl_load.specs.PlannedPlaces.{planned_place};
    ghost use Rattle.bl_load.specs.HandoffFacts.{HandoffFacts, IsWellFormedHandoff};

    ghost Value = { HandoffFacts };

    ghost view = { λ h. record {
      protocol = h.protocol;
      registers = h.registers;
      places = map planned_place h.parts.items;
    } };

    ghost invariant = { λ h. IsWellFormedHandoff (record {
      protocol = h.protocol;
      registers = h.registers;
      places = map planned_place h.parts.items;
    }) × (h.ranges.items ≡ map place_range (map planned_place h.parts.items)) };
}

impl<A: Allocator> Handoff<A> {
    ghost use Rattle.std.specs.Prelude.{◌≡◌, ◌<◌, length, map, slice_index_or};
    ghost use Rattle.bl_plan.specs.Placed.{place_range};
    ghost use Rattle.bl_load.specs.HandoffFacts.{IsWellFormedHandoff};
    ghost use Rattle.bl_load.specs.PlannedPlaces.{planned_place};

    /// How the kernel is entered.
    pub fn protocol(&self) -> Protocol
        ensures { result ≡ self.now.protocol }
    {
        self.protocol
    }

    /// The registers as the kernel begins.
    pub fn registers(&self) -> Registers
        ensures { result ≡ self.now.registers }
    {
        self.registers
    }

    /// How many parts there are, at most 256.
    pub fn len(&self) -> usize
        ensures len { result ≡ length self.now.places }
        ensures kept { IsWellFormedHandoff self.now }
    {
        self.parts.len()
    }

    /// The place of the part with this number in address order.
    pub fn place(&self, index: usize) -> Place
        requires { index < length self.now.places }
        ensures { result ≡ slice_index_or self.now.places index result }
    {
        self.parts[index].place
    }

    /// The parts in address order. The contract speaks of their places alone; where the bytes of
    /// each came from is as the plan had it.
    pub fn parts(&self) -> &[PlannedPart<A>]
        ensures { map planned_place result.now ≡ self.now.places }
    {
        self.parts.as_slice()
    }

    /// The ranges of the parts, in address order. They are the plan's.
    pub fn ranges(&self) -> &[Range<u64>]
        ensures { result.now ≡ map place_range self.now.places }
    {
        self.ranges.as_slice()
    }
}

/// The protocol, the registers and the ranges. By hand: a derive would ask it of the allocator too.
impl<A: Allocator> fmt::Debug for Handoff<A> {
    fn fmt<W: fmt::Write>(&self, f: &mut fmt::Formatter<W>) -> fmt::Result {
        f.debug_struct("Handoff")
            .field("protocol", &self.protocol)
            .field("registers", &self.registers)
            .field("ranges", &self.ranges())
            .finish()
    }
}
