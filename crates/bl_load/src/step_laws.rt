//! Laws of steps: which they are, and what they write.
ghost use Rattle.std.specs.Prelude.{◌≡◌, ◌≤◌, ℕ, List, length, map, All, AllPairs, IsPermutation};
ghost use Rattle.bl_map.specs.MachineFacts.{MachineFacts};
ghost use Rattle.bl_load.specs.declared.plan.PlannedPart.{PlannedPart};
ghost use Rattle.bl_load.specs.declared.step.Step.{Step};
ghost use Rattle.bl_load.specs.EntryValue.{EntryValue};
ghost use Rattle.bl_load.specs.Loadable.{lengths_of};
ghost use Rattle.bl_load.specs.LoadedBySteps.{LoadsEntry};
ghost use Rattle.bl_load.specs.Origins.{planned_origin, AreOrigins};
ghost use Rattle.bl_load.specs.PlanSteps.{steps_from, own_bytes};
ghost use Rattle.bl_load.specs.Steps.{carry_out, IsStep, StepsAscend};
ghost use Rattle.bl_load.specs.StepsByOrigins.{steps_by, own_by};

use std::alloc::Allocator;

/// Equal facts and equal values give equal steps with equal bytes: the parts of plans that
/// `prepare` answers for them come from the same, and steps follow from where parts come from.
pub fn plan_steps_are_determined<A: Allocator, B: Allocator>()
    ensures steps { (facts : MachineFacts) (value : EntryValue) (parts : List (PlannedPart A))
        (others : List (PlannedPart B)) → AreOrigins facts value (map planned_origin parts)
        → AreOrigins facts value (map planned_origin others)
        → steps_from 0 parts ≡ steps_from 0 others }
    ensures own { (facts : MachineFacts) (value : EntryValue) (parts : List (PlannedPart A))
        (others : List (PlannedPart B)) → AreOrigins facts value (map planned_origin parts)
        → AreOrigins facts value (map planned_origin others) → own_bytes parts ≡ own_bytes others }
{}

/// The steps of a plan, and its own bytes, are a function of where its parts lie and come from.
pub fn plan_steps_are_those_of_origins<A: Allocator>()
    ensures steps { (parts : List (PlannedPart A))
        → steps_from 0 parts ≡ steps_by 0 (map planned_origin parts) }
    ensures own { (parts : List (PlannedPart A))
        → own_bytes parts ≡ own_by (map planned_origin parts) }
{}

/// Two lists of steps that load one entry, each with the bytes of its plan, make equal memory of
/// equal memory: the machine's facts and the entry's value alone decide what is written.
pub fn carried_out_steps_are_determined()
    ensures { (facts : MachineFacts) (value : EntryValue) (steps others : List Step)
        (own held memory : List ℕ) → LoadsEntry facts value steps own
        → LoadsEntry facts value others held → facts.size ≤ length memory
        → carry_out steps own value.files memory ≡ carry_out others held value.files memory }
{}

/// Steps that ascend may be carried out in any order: memory is the same afterwards.
pub fn steps_write_the_same_in_any_order()
    ensures { (steps others : List Step) (own memory : List ℕ) (texts : List (List ℕ)) (size : ℕ)
        → All (IsStep (lengths_of texts) (length own) size) steps → AllPairs StepsAscend steps
        → IsPermutation steps others → size ≤ length memory
        → carry_out others own texts memory ≡ carry_out steps own texts memory }
{}
