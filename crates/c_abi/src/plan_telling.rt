//! What C is told of a plan.
ghost use Rattle.std.specs.Prelude.{◌≡◌, ◌≤◌, All, MatchBool, length, map};
ghost use Rattle.c_abi.specs.PlanTold as spec;
ghost use Rattle.c_records.specs.WalkTold.{told_over};
ghost use Rattle.c_abi.specs.internal.Plans.{HasSmallFile, plan_facts};
ghost use Rattle.c_abi.specs.internal.Tellings.{plan_telling};

use crate::plan_steps::SteppedPlan;
use bl_load::{Step, StepSource};
use c_records::{
    HandoffRecord, Misuse, PlaceRecord, PlanCountsRecord, StepRecord, put_front, tell_plan,
};
use std::alloc::Allocator;

/// Tells a step. An entry has few files, so each has a number of 32 bits.
fn step_told(step: Step) -> StepRecord
    requires { HasSmallFile step }
    ensures { result ≡ spec.step_told step }
{
    let Step {
        address,
        length,
        ..
    } = step;
    match step.source {
        StepSource::File { file, offset } => StepRecord {
            address,
            length,
            offset,
            source: 1,
            file: file as u32,
            reserved: 0,
        },
        StepSource::Own { offset } => StepRecord {
            address,
            length,
            offset: offset as u64,
            source: 2,
            file: 0,
            reserved: 0,
        },
        StepSource::Zeros => StepRecord {
            address,
            length,
            offset: 0,
            source: 3,
            file: 0,
            reserved: 0,
        },
    }
}

/// Tells steps in the first records.
fn tell_steps(steps: &[Step], records: &mut [StepRecord])
    requires room { length steps.now ≤ length records.old }
    requires files { All HasSmallFile steps.now }
    ensures { records.new ≡ told_over (map spec.step_told steps.now) records.old }
{
    for index in 0..steps.len() {
        records[index] = step_told(steps[index]);
    }
}

/// Whether arrays have room for a plan's places, steps and own bytes.
#[tactic(auto, using(crate::proofs::PlanLemmas::count_places))]
fn fits_into<A: Allocator>(
    made: &SteppedPlan<A>,
    places: &[PlaceRecord],
    steps: &[StepRecord],
    own: &[u8],
) -> bool
    ensures { MatchBool result
        (spec.HasPlanRoom (plan_facts made.now) places.now steps.now own.now)
        (¬ spec.HasPlanRoom (plan_facts made.now) places.now steps.now own.now) }
{
    if places.len() < made.plan.parts.len() {
        return false;
    }
    if steps.len() < made.told.steps.len() {
        return false;
    }
    if own.len() < made.told.own.len() {
        return false;
    }
    true
}

/// Tells a plan with its steps, if there is room for all of it, and else how much is wanted; and
/// the status.
#[tactic(auto, using(crate::proofs::PlanLemmas::count_places))]
pub(crate) fn tell_stepped<A: Allocator>(
    made: &SteppedPlan<A>,
    told: &mut HandoffRecord,
    counts: &mut PlanCountsRecord,
    places: &mut [PlaceRecord],
    steps: &mut [StepRecord],
    own: &mut [u8],
) -> u32
    requires few { length made.now.plan.parts.items ≤ 256 }
    requires files { All HasSmallFile made.now.told.steps.items }
    ensures { spec.TellsPlanned (plan_facts made.now) result
        (plan_telling told.old counts.old places.old steps.old own.old)
        (plan_telling told.new counts.new places.new steps.new own.new) }
{
    *counts = PlanCountsRecord {
        places: made.plan.parts.len() as u64,
        steps: made.told.steps.len() as u64,
        own: made.told.own.len() as u64,
    };
    if !fits_into(made, places, steps, own) {
        return Misuse::SmallRoom.status();
    }
    tell_plan(&made.plan, told, places);
    tell_steps(made.told.steps.as_slice(), steps);
    put_front(made.told.own.as_slice(), own);
    0
}
