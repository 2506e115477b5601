//! What C is told of a plan, beside its handoff and its places.

/// A step of a plan: the `length` bytes of physical memory from `address` on become those of the
/// source from `offset` on. The source is 1, the entry's file with the place `file`; 2, the bytes
/// that the plan holds itself; or 3, zeros. An offset or a file that says nothing is 0, as
/// `reserved` is.
#[repr(C)]
#[derive(Clone, Copy)]
pub struct StepRecord {
    pub address: u64,
    pub length: u64,
    pub offset: u64,
    pub source: u32,
    pub file: u32,
    pub reserved: u64,
}

/// How many places and steps a plan has, and how many bytes it holds itself.
#[repr(C)]
#[derive(Clone, Copy)]
pub struct PlanCountsRecord {
    pub places: u64,
    pub steps: u64,
    pub own: u64,
}
