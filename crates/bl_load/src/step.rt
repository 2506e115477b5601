//! A plan as its caller carries it out.
use bl_mem::Bytes;
use std::alloc::Allocator;

/// Where the bytes of a step come from.
#[derive(Clone, Copy, Debug, PartialEq, Eq)]
pub enum StepSource {
    /// The entry's file of this number, from `offset` on.
    File { file: usize, offset: u64 },

    /// The bytes that the plan holds itself, which are `own` of `Steps`, from `offset` on.
    Own { offset: usize },

    /// None: the bytes are zero.
    Zeros,
}

/// The `length` bytes of physical memory from `address` on become those of the source. There is one
/// at least.
#[derive(Clone, Copy, Debug, PartialEq, Eq)]
pub struct Step {
    pub address: u64,
    pub length: u64,
    pub source: StepSource,
}

/// A plan told as steps: whoever carries them out, in this order or another
/// (`steps_write_the_same_in_any_order`), loads the plan.
#[derive(Drop)]
pub struct Steps<A: Allocator> {
    /// In ascending addresses; none begins before the one before it has ended.
    pub steps: Vec<Step, A>,

    /// The bytes that the plan holds itself, one part's after the other's.
    pub own: Bytes<A>,
}
