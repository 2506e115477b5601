//! A plan with its steps.
use bl_load::{Plan, Steps};
use std::alloc::Allocator;

/// A plan, and the steps that carry it out.
#[derive(Drop)]
pub(crate) struct SteppedPlan<A: Allocator> {
    pub(crate) plan: Plan<A>,
    pub(crate) told: Steps<A>,
}
