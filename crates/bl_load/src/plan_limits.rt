//! How large a plan may be that is told as steps.
ghost use Rattle.std.specs.Prelude.{◌≡◌, ◌≤◌, List, None, length, map};
ghost use Rattle.bl_map.specs.MachineFacts.{MachineFacts, IsWellFormedMachine};
ghost use Rattle.bl_load.specs.declared.plan.PlannedPart.{PlannedPart};
ghost use Rattle.bl_load.specs.EntryValue.{EntryValue, HasLimits, lines_fault, lines_of};
ghost use Rattle.bl_load.specs.Origins.{planned_origin, AreOrigins};
ghost use Rattle.bl_load.specs.PlanSteps.{steps_from, own_bytes};

use std::alloc::Allocator;

/// The most steps of a plan.
pub const MAX_STEPS: usize = 520;

/// The most bytes that a plan holds itself.
pub const MAX_OWN: usize = 409600;

/// A plan that `prepare` answers is small: arrays of a fixed room have room for its steps and for
/// the bytes that it holds itself.
pub fn plans_are_small<A: Allocator>()
    ensures steps { (facts : MachineFacts) (value : EntryValue) (parts : List (PlannedPart A))
        → HasLimits value → AreOrigins facts value (map planned_origin parts)
        → length (steps_from 0 parts) ≤ MAX_STEPS }
    ensures own { (facts : MachineFacts) (value : EntryValue) (parts : List (PlannedPart A))
        → IsWellFormedMachine facts → HasLimits value → lines_fault (lines_of value) ≡ None
        → AreOrigins facts value (map planned_origin parts)
        → length (own_bytes parts) ≤ MAX_OWN }
{}
