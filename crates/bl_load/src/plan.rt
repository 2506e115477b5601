//! What is going to be loaded.
ghost use Rattle.std.specs.Prelude.{◌≡◌, map};
ghost use Rattle.bl_plan.specs.Placed.{place_range};
ghost use Rattle.bl_load.specs.PlannedPlaces.{planned_place};

use crate::registers::Registers;
use bl_mem::{Bytes, Segment};
use bl_plan::{Place, Protocol};
use std::alloc::Allocator;
use std::ops::Range;

/// Where the bytes of a part come from.
#[derive(Drop)]
pub enum Content<A: Allocator> {
    /// These bytes, which the plan holds: what the loader makes, and a copy of a line. Boot
    /// parameters have a Linux kernel's setup header in them.
    Own(Bytes<A>),

    /// `count` bytes of a file, from `offset` on. Nothing is read where `count` is 0.
    File {
        file: usize,
        offset: u64,
        count: u64,
    },

    /// The block of these segments of a file, which ascend.
    Block {
        file: usize,
        segments: Vec<Segment, A>,
    },
}

/// A place with its content. Behind its content it has zeros.
#[derive(Drop)]
pub struct PlannedPart<A: Allocator> {
    pub place: Place,
    pub content: Content<A>,
}

/// The parts of an entry in address order, and its registers.
#[derive(Drop)]
pub struct Plan<A: Allocator> {
    pub protocol: Protocol,
    pub registers: Registers,
    pub parts: Vec<PlannedPart<A>, A>,
    pub ranges: Vec<Range<u64>, A>,
    ghost ranges_are: { ranges.items ≡ map place_range (map planned_place parts.items) },
}

impl<A: Allocator> Plan<A> {
    ghost use Rattle.std.specs.Prelude.{◌≡◌, map};
    ghost use Rattle.bl_plan.specs.Placed.{place_range};
    ghost use Rattle.bl_load.specs.PlanContents.{places_of};

    /// The ranges of the parts, in address order.
    pub fn ranges(&self) -> &[Range<u64>]
        ensures { result.now ≡ map place_range (places_of self.now) }
    {
        self.ranges.as_slice()
    }
}
